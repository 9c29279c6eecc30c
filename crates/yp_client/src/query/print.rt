//! Answers that are printed.

ghost use Rattle.std.specs.Prelude.{◌≡◌, ◌≢◌, ◌≤◌, [], IsTrue, Ok, Err, OnOk, IfOk, IfErr};
ghost use Rattle.std.specs.Option.{option_map_or};
ghost use Rattle.yp_io.specs.Counts.{CountsFaults, HasRisen};
ghost use Rattle.yp_client.specs.query.Lines.{line, lines, row_line, rows_text, standing_text, membership_text};
ghost use Rattle.yp_client.specs.inside.query.Printed.{Puts};
ghost use Rattle.yp_client.specs.inside.query.Answers.{answer_text, answer_outcome, said};
ghost use Rattle.yp_client.specs.Questions.{ByteQuestion, bytes_of};
ghost use Rattle.yp_client.specs.query.Scenes.{Prints, refusal_text};

use crate::Question;
use crate::query::answer::Answer;
use crate::query::fault::QueryFault;
use crate::query::status::status_text;
use crate::query::text::TextBuffer;
use std::alloc::Global;
use yp_io::{Failed, NoMemory, Sink};
use yp_messages::{Names, XfrStat};
use yp_version::{Order, Version};

/// Prints an answer, and flushes.
pub fn print<K: Sink>(alloc: Global, answer: &Answer, sink: &mut K) -> Result<(), QueryFault>
    ensures prints { (question : ByteQuestion)
        → Prints question (answer_outcome answer.now) result (K.output sink.old) (K.output sink.new) }
    ensures flushed { result ≢ Err QueryFault.Output → IsTrue (K.flushed sink.old) → IsTrue (K.flushed sink.new) }
    ensures cause { result ≡ Err QueryFault.Output → HasRisen (K.faults sink.old) (K.faults sink.new) }
    ensures faults { K.faults sink.old ≤ K.faults sink.new }
{
    let mut text = TextBuffer::new(alloc)?;
    match print_answer(&mut text, sink, answer) {
        Ok(()) => {}
        Err(Failed) => return Err(QueryFault::Output),
    }
    match text.end(sink) {
        Ok(()) => said(answer),
        Err(Failed) => Err(QueryFault::Output),
    }
}

/// Prints the status for which a server doesn't do what it was asked to.
pub fn print_refusal<K: Sink>(
    alloc: Global,
    question: &Question<Vec<u8>>,
    stat: XfrStat,
    sink: &mut K,
) -> Result<(), QueryFault>
    ensures prints { Prints (bytes_of question.now) (Err (QueryFault.NotDone stat)) result
        (K.output sink.old) (K.output sink.new) }
    ensures flushed { result ≢ Err QueryFault.Output → IsTrue (K.flushed sink.old) → IsTrue (K.flushed sink.new) }
    ensures cause { result ≡ Err QueryFault.Output → HasRisen (K.faults sink.old) (K.faults sink.new) }
    ensures faults { K.faults sink.old ≤ K.faults sink.new }
{
    let Some(text) = refusal_text(alloc, question, stat)? else {
        return Err(QueryFault::NotDone(stat));
    };
    match print(alloc, &Answer::Line(text), sink) {
        Ok(()) => Err(QueryFault::NotDone(stat)),
        Err(fault) => Err(fault),
    }
}

/// The line of such a status, without its line feed, where the question is one of a map to be fetched or made.
fn refusal_text(
    alloc: Global,
    question: &Question<Vec<u8>>,
    stat: XfrStat,
) -> Result<Option<Vec<u8>>, NoMemory>
    ensures { IfOk result (λ text. refusal_text (bytes_of question.now) stat
        ≡ option_map_or (λ bytes. line bytes.items) text []) }
{
    match question {
        Question::Pull { domain, map, .. } => Ok(Some(status_text(alloc, domain, map, stat)?)),
        Question::Make { domain, map } => Ok(Some(status_text(alloc, domain, map, stat)?)),
        _ => Ok(None),
    }
}

/// That an answer was printed: a no is told apart.
fn said(answer: &Answer) -> Result<(), QueryFault>
    ensures { result ≡ said (answer_outcome answer.now) }
{
    match answer {
        Answer::Membership(false) => Err(QueryFault::NotMember),
        _ => Ok(()),
    }
}

fn print_answer<K: Sink>(text: &mut TextBuffer, sink: &mut K, answer: &Answer) -> Result<(), Failed>
    ensures puts { Puts (answer_text answer.now) result text.old text.new (K.output sink.old) (K.output sink.new) }
    ensures cause { CountsFaults (K.faults sink.old) (K.faults sink.new) result }
{
    match answer {
        Answer::Rows { version, keyed } => print_rows(text, sink, version, *keyed),
        Answer::Line(line) => text.put_line(sink, line),
        Answer::Standing { order, master } => print_standing(text, sink, *order, master),
        Answer::Maps(names) => print_names(text, sink, names),
        Answer::Membership(is_member) => print_membership(text, sink, *is_member),
    }
}

fn print_membership<K: Sink>(
    text: &mut TextBuffer,
    sink: &mut K,
    is_member: bool,
) -> Result<(), Failed>
    ensures puts { Puts (membership_text is_member) result text.old text.new (K.output sink.old) (K.output sink.new) }
    ensures cause { CountsFaults (K.faults sink.old) (K.faults sink.new) result }
{
    if is_member {
        text.put_line(sink, b"yes")
    } else {
        text.put_line(sink, b"no")
    }
}

fn print_rows<K: Sink>(
    text: &mut TextBuffer,
    sink: &mut K,
    version: &Version,
    keyed: bool,
) -> Result<(), Failed>
    ensures puts { Puts (rows_text keyed version.now.rows) result text.old text.new
        (K.output sink.old) (K.output sink.new) }
    ensures cause { CountsFaults (K.faults sink.old) (K.faults sink.new) result }
{
    for i in 0..version.len() {
        let Some((key, value)) = version.row(i) else {
            unreachable!()
        };
        print_row(text, sink, key, value, keyed)?;
    }
    Ok(())
}

fn print_row<K: Sink>(
    text: &mut TextBuffer,
    sink: &mut K,
    key: &[u8],
    value: &[u8],
    keyed: bool,
) -> Result<(), Failed>
    ensures puts { Puts (row_line keyed (key.now, value.now)) result text.old text.new
        (K.output sink.old) (K.output sink.new) }
    ensures cause { CountsFaults (K.faults sink.old) (K.faults sink.new) result }
{
    if keyed {
        text.put_pair(sink, key, value)
    } else {
        text.put_line(sink, value)
    }
}

fn print_standing<K: Sink>(
    text: &mut TextBuffer,
    sink: &mut K,
    order: Order,
    master: &[u8],
) -> Result<(), Failed>
    ensures puts { Puts (standing_text order master.now) result text.old text.new
        (K.output sink.old) (K.output sink.new) }
    ensures cause { CountsFaults (K.faults sink.old) (K.faults sink.new) result }
{
    text.put_pair(
        sink,
        b"order",
        itoa::Buffer::new().format(order.number()).as_bytes(),
    )?;
    text.put_pair(sink, b"master", master)
}

fn print_names<K: Sink>(text: &mut TextBuffer, sink: &mut K, names: &Names) -> Result<(), Failed>
    ensures puts { Puts (lines names.now) result text.old text.new (K.output sink.old) (K.output sink.new) }
    ensures cause { CountsFaults (K.faults sink.old) (K.faults sink.new) result }
{
    for i in 0..names.len() {
        let Some(name) = names.get(i) else {
            unreachable!()
        };
        text.put_line(sink, name)?;
    }
    Ok(())
}
