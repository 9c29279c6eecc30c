//! The commands `getport`, `setport` and `unsetport`: a port mapper is called, again after each quiet turn, until it
//! answers.

ghost use Rattle.std.specs.Prelude.{◌≡◌, ◌≢◌, IsTrue, if◌then◌else◌};
ghost use Rattle.yp_io.specs.Counts.{HasRisen};
ghost use Rattle.yp_command.specs.office.Seeing.{seeing, IsPassedOn};
ghost use Rattle.yp_command.specs.inside.office.Status.{IsTellable};
ghost use Rattle.yp_command.specs.declared.office.status.Status.TheVariants.{WriteFault, InboxFault};
ghost use Rattle.yp_command_mail.specs.Telling.{TellsText};
ghost use Rattle.yp_command_mail.specs.Mapper.{Goes, Hears, Rests, is_answer, begun, port_line, port_status};
ghost use Rattle.yp_command_mail.specs.Mapper.{truth_text, truth_status, answer_text, answer_status};
ghost use Rattle.yp_command_mail.specs.Mapper.{mapper_may_end, MapperDoes};

use crate::text::tell_text;
use std::alloc::Global;
use yp_binding::is_same_peer;
use yp_binding::portmap::{PortAnswer, PortCall, read_answer, write_port_call};
use yp_command::office::{Line, Office, Status, add, add_number};
use yp_io::{Clock, Dial, Disk, Failed, Inbox, Peer, Sink, Source, Texts};
use yp_rpc::{Handler, Room, Wish, take_turns};
use yp_xdr::{NoRoom, XdrFault};

/// The number of each call.
const CALL_NUMBER: u32 = 1;

/// The first two words of an answer: the number of the call, and that it is a reply.
const ANSWER_FRONT: [u8; 8] = [0, 0, 0, 1, 0, 0, 0, 1];

/// A call of a port mapper, and its answer.
#[derive(Clone, Copy)]
pub struct Asking {
    /// The port mapper.
    pub mapper: Peer,
    /// What it is asked.
    pub call: PortCall,
    /// Whether the call is to be sent before the next turn.
    pub is_due: bool,
    /// What was read of the answer, once it came.
    pub answer: Option<Result<PortAnswer, XdrFault>>,
}

/// Whether a datagram of a peer is the answer of a port mapper.
fn is_answer(mapper: Peer, from: Peer, mail: &[u8]) -> bool
    ensures { result ≡ is_answer mapper from mail.now }
{
    is_same_peer(mapper, from) && mail.starts_with(&ANSWER_FRONT)
}

impl Handler for Asking {
    ghost goes = { Goes };

    ghost hears = { Hears };

    ghost rests = { Rests };

    ghost letters = { λ asking. if asking.is_due then 1 else 0 };

    fn next(&mut self, buf: &mut [u8]) -> Wish {
        if self.answer.is_some() {
            return Wish::Done;
        }
        if !self.is_due {
            return Wish::Wait;
        }
        self.is_due = false;
        match write_port_call(buf, CALL_NUMBER, self.call) {
            Ok(len) => Wish::Send {
                to: self.mapper,
                len,
            },
            Err(NoRoom) => unreachable!(),
        }
    }

    fn hear(&mut self, from: Peer, mail: &[u8], _buf: &mut [u8]) -> usize {
        if is_answer(self.mapper, from, mail) {
            self.answer = Some(read_answer(mail, self.call));
        }
        0
    }

    fn rest(&mut self) {
        self.is_due = true;
    }
}

/// The line of a port.
fn line(port: u32) -> Line
    ensures { result.items ≡ port_line port }
{
    let mut line = Line::new();
    add(&mut line, b"port ");
    add_number(&mut line, u64::from(port));
    add(&mut line, b"\n");
    line
}

/// The status of a port, which isn't there where it is 0.
fn port_status(port: u32) -> Status
    ensures { result ≡ port_status port }
{
    if port == 0 { Status::No } else { Status::Done }
}

/// The line of a truth value that answers a call.
fn truth_text(call: PortCall, is_done: bool) -> &'static [u8]
    ensures { result.now ≡ truth_text call is_done }
{
    match (call, is_done) {
        (PortCall::Unset { .. }, true) => b"unset\n",
        (_, true) => b"set\n",
        (_, false) => b"refused\n",
    }
}

/// The status of a truth value.
fn truth_status(is_done: bool) -> Status
    ensures { result ≡ truth_status is_done }
{
    if is_done { Status::Done } else { Status::No }
}

/// Tells what a port mapper answered, or why there is no answer.
fn tell_answer<K: Sink>(
    sink: &mut K,
    turns: u64,
    call: PortCall,
    answer: Option<Result<PortAnswer, XdrFault>>,
) -> Status
    ensures tells { TellsText (answer_text call answer) (answer_status turns answer) result
        (K.output sink.old) (K.output sink.new) }
    ensures may_end { IsTrue (mapper_may_end result) }
    ensures heard { result ≢ InboxFault }
    ensures flushed { result ≢ WriteFault → IsTrue (K.flushed sink.old) → IsTrue (K.flushed sink.new) }
    ensures cause { result ≡ WriteFault → HasRisen (K.faults sink.old) (K.faults sink.new) }
    ensures tellable { IsTellable result }
{
    match answer {
        None => Status::Unanswered { turns },
        Some(Err(fault)) => Status::BadReply {
            at: fault.place() as u64,
        },
        Some(Ok(PortAnswer::Port(port))) => tell_text(sink, &line(port), port_status(port)),
        Some(Ok(PortAnswer::Truth(is_done))) => {
            tell_text(sink, truth_text(call, is_done), truth_status(is_done))
        }
        Some(Ok(PortAnswer::Refused)) => Status::Denied,
    }
}

/// Calls the port mapper at `mapper`, in at most so many turns, and tells what it answers.
pub fn ask_mapper<S: Source, K: Sink, D: Disk, C: Clock, A: Dial, I: Inbox, T: Texts>(
    alloc: Global,
    turns: u64,
    mapper: Peer,
    call: PortCall,
    office: &mut Office<S, K, D, C, A, I, T>,
) -> Status
    ensures does { MapperDoes (seeing S.Source K.Sink D.Disk C.Clock A.Dial I.Inbox T.Texts)
        turns (begun mapper call) result office.old office.new }
    ensures may_end { IsTrue (mapper_may_end result) }
    ensures passed_on { IsPassedOn (seeing S.Source K.Sink D.Disk C.Clock A.Dial I.Inbox T.Texts)
        result office.old office.new }
    ensures tellable { IsTellable result }
{
    let Ok(mut room) = Room::new(alloc) else {
        return Status::NoMemory;
    };
    let mut asking = Asking {
        mapper,
        call,
        is_due: true,
        answer: None,
    };
    match take_turns(&mut office.inbox, &mut asking, &mut room, turns) {
        Ok(_) => tell_answer(&mut office.wire.sink, turns, call, asking.answer),
        Err(Failed) => Status::InboxFault,
    }
}
