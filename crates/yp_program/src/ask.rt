//! The client commands: a server is asked, and its answer printed.

ghost use Rattle.std.specs.Prelude.{◌≡◌, IsTrue, Err};
ghost use Rattle.yp_client.specs.Questions.{bytes_of};
ghost use Rattle.yp_client.specs.inside.Questions.{QuestionIsWithin};
ghost use Rattle.yp_client.specs.inside.query.Faults.{FaultIsTellable as MayBeTold};
ghost use Rattle.yp_command.specs.office.Seeing.{seeing, IsPassedOn};
ghost use Rattle.yp_command.specs.inside.office.Status.{IsTellable};
ghost use Rattle.yp_program.specs.Asking.{AskDoes, ask_may_end, status_of};

use std::alloc::Global;
use std::random::RandomSource;
use yp_client::query::{QueryFault, query};
use yp_client::{ClientFault, Question};
use yp_command::office::{Office, Status, status_of_row};
use yp_end_to_end::exchange::laws;
use yp_io::{Clock, Dial, Disk, Inbox, Peer, Sink, Source, Texts};

/// The status of a call that was refused.
fn status_of_call(fault: ClientFault) -> Status
    requires { MayBeTold (QueryFault.Client fault) }
    ensures { result ≡ status_of (Err (QueryFault.Client fault)) }
{
    match fault {
        ClientFault::Yp(stat) => Status::Yp { stat },
        ClientFault::Denied(_) => Status::Denied,
        ClientFault::BadReply { at } => Status::BadReply { at: at as u64 },
        ClientFault::BadXid { want, got } => Status::BadXid { want, got },
        ClientFault::Torn { at } => Status::Torn { at },
        ClientFault::TooLong { at } => Status::TooLong { at },
        ClientFault::ReadFault => Status::ReadFault,
        ClientFault::WriteFault => Status::WriteFault,
        ClientFault::Rows { row, fault } => status_of_row(row, fault),
        ClientFault::Spent => unreachable!(),
        ClientFault::NoMemory => unreachable!(),
    }
}

/// The status of a question that has no answer.
pub fn status_of(fault: QueryFault) -> Status
    requires { MayBeTold fault }
    ensures { result ≡ status_of (Err fault) }
{
    match fault {
        QueryFault::NoKey | QueryFault::NotMember | QueryFault::NotDone(_) => Status::No,
        QueryFault::Client(fault) => status_of_call(fault),
        QueryFault::Dial => Status::DialFault,
        QueryFault::Output => Status::WriteFault,
        QueryFault::NoMemory => Status::NoMemory,
    }
}

/// Asks the server at `to` a question, and prints its answer.
pub fn ask<S: Source, K: Sink, D: Disk, C: Clock, A: Dial, I: Inbox, T: Texts>(
    alloc: Global,
    rt: &impl RandomSource,
    to: Peer,
    question: Question<Vec<u8>>,
    office: &mut Office<S, K, D, C, A, I, T>,
) -> Status
    requires { QuestionIsWithin (bytes_of question) }
    ensures does { AskDoes (seeing S.Source K.Sink D.Disk C.Clock A.Dial I.Inbox T.Texts)
        to (bytes_of question) result office.old office.new }
    ensures may_end { IsTrue (ask_may_end result) }
    ensures passed_on { IsPassedOn (seeing S.Source K.Sink D.Disk C.Clock A.Dial I.Inbox T.Texts)
        result office.old office.new }
    ensures tellable { IsTellable result }
{
    laws::log_run_is_printed();
    match query(
        alloc,
        rt,
        &mut office.dial,
        to,
        &question,
        &mut office.wire.sink,
    ) {
        Ok(()) => {
            drop(question);
            Status::Done
        }
        Err(fault) => {
            drop(question);
            status_of(fault)
        }
    }
}
