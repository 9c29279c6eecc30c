//! A question over a wire that is dialed.

ghost use Rattle.std.specs.Prelude.{◌≡◌, ◌≢◌, ℕ, ◌≤◌, List, min, Err, IsTrue, IfErr};
ghost use Rattle.yp_io.specs.Counts.{HasRisen, last_count};
ghost use Rattle.yp_io.specs.Dials.{dialing_of};
ghost use Rattle.yp_client.specs.inside.query.Faults.{FaultIsTellable};
ghost use Rattle.yp_client.specs.Questions.{bytes_of};
ghost use Rattle.yp_client.specs.inside.Questions.{QuestionIsWithin};
ghost use Rattle.yp_client.specs.inside.query.Answers.{outcome_of};
ghost use Rattle.yp_client.specs.query.Asked.{Converses};
ghost use Rattle.yp_client.specs.query.Complete.{HasAnswer, HasCome};
ghost use Rattle.yp_client.specs.inside.query.Complete.{QueryIsAnswered};
ghost use Rattle.yp_client.specs.query.Scenes.{query_tells, Asks, Dials};
ghost use Rattle.yp_client.specs.inside.query.Scenes.{DialHasCause, HasQueryCause};

use crate::query::answer::{Answer, ask};
use crate::query::fault::QueryFault;
use crate::query::print::{print, print_refusal};
use crate::{Question, Unconnected, connect};
use std::alloc::Global;
use std::random::RandomSource;
use yp_io::{Dial, Peer, Sink};
use yp_rpc::laws;

/// Asks the server at `to` a question, and prints the whole answer, or nothing of it. Where a wire came, it is given
/// back with every outcome, before anything is printed. Each call is flushed before its reply is waited for.
pub fn query<A: Dial, K: Sink>(
    alloc: Global,
    rt: &impl RandomSource,
    dial: &mut A,
    to: Peer,
    question: &Question<Vec<u8>>,
    sink: &mut K,
) -> Result<(), QueryFault>
    requires { QuestionIsWithin (bytes_of question.now) }
    ensures asks { Asks to (bytes_of question.now) result
        (query_tells A.past A.faults K.output K.faults dial.old sink.old)
        (query_tells A.past A.faults K.output K.faults dial.new sink.new) }
    ensures cause { IfErr result (λ fault. HasQueryCause fault
        (query_tells A.past A.faults K.output K.faults dial.old sink.old)
        (query_tells A.past A.faults K.output K.faults dial.new sink.new)) }
    ensures tellable { IfErr result FaultIsTellable }

    // A wire that gives whole replies, which answer the calls, has it answered, but for faults and want of memory.
    ensures complete { (stream : List ℕ) → HasAnswer (bytes_of question.now) stream
        → HasCome to stream (A.past dial.old) (A.past dial.new)
        → ¬ HasRisen (A.faults dial.old) (A.faults dial.new) → ¬ HasRisen (K.faults sink.old) (K.faults sink.new)
        → QueryIsAnswered result }
    ensures flushed { result ≢ Err QueryFault.Output → IsTrue (K.flushed sink.old) → IsTrue (K.flushed sink.new) }
    ensures letters { A.letters dial.new ≡ A.letters dial.old }
    ensures dial_faults { min (A.faults dial.old) last_count ≤ A.faults dial.new }
    ensures faults { K.faults sink.old ≤ K.faults sink.new }
{
    laws::first_is_one();
    laws::rest_is_not_whole();
    ask_and_print(alloc, rt, dial, to, question, sink)
}

/// Asks a question over a wire and prints the answer. It says nothing of wires that give whole replies.
fn ask_and_print<A: Dial, K: Sink>(
    alloc: Global,
    rt: &impl RandomSource,
    dial: &mut A,
    to: Peer,
    question: &Question<Vec<u8>>,
    sink: &mut K,
) -> Result<(), QueryFault>
    requires { QuestionIsWithin (bytes_of question.now) }
    ensures asks { Asks to (bytes_of question.now) result
        (query_tells A.past A.faults K.output K.faults dial.old sink.old)
        (query_tells A.past A.faults K.output K.faults dial.new sink.new) }
    ensures cause { IfErr result (λ fault. HasQueryCause fault
        (query_tells A.past A.faults K.output K.faults dial.old sink.old)
        (query_tells A.past A.faults K.output K.faults dial.new sink.new)) }
    ensures tellable { IfErr result FaultIsTellable }
    ensures flushed { result ≢ Err QueryFault.Output → IsTrue (K.flushed sink.old) → IsTrue (K.flushed sink.new) }
    ensures letters { A.letters dial.new ≡ A.letters dial.old }
    ensures dial_faults { min (A.faults dial.old) last_count ≤ A.faults dial.new }
    ensures faults { K.faults sink.old ≤ K.faults sink.new }
{
    match ask_dialed(alloc, rt, dial, to, question) {
        Ok(answer) => print(alloc, &answer, sink),
        Err(QueryFault::NotMember) => print(alloc, &Answer::Membership(false), sink),
        Err(QueryFault::NotDone(stat)) => print_refusal(alloc, question, stat, sink),
        Err(fault) => Err(fault),
    }
}

/// Dials, makes the calls of a question, and gives the wire back.
fn ask_dialed<A: Dial>(
    alloc: Global,
    rt: &impl RandomSource,
    dial: &mut A,
    to: Peer,
    question: &Question<Vec<u8>>,
) -> Result<Answer, QueryFault>
    requires { QuestionIsWithin (bytes_of question.now) }
    ensures dials { Dials to (Converses (bytes_of question.now)) (outcome_of result)
        (dialing_of A.past A.faults dial.old) (dialing_of A.past A.faults dial.new) }
    ensures cause { IfErr result (λ fault. DialHasCause fault (A.faults dial.old) (A.faults dial.new)) }
    ensures letters { A.letters dial.new ≡ A.letters dial.old }
    ensures faults { min (A.faults dial.old) last_count ≤ A.faults dial.new }
{
    let mut client = match connect(alloc, dial, to) {
        Ok(client) => client,
        Err(Unconnected::Dial) => return Err(QueryFault::Dial),
        Err(Unconnected::NoMemory) => return Err(QueryFault::NoMemory),
    };
    let answer = ask(alloc, rt, &mut client, question);
    dial.back(client.into_wire());
    answer
}
