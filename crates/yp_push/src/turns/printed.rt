//! What is told of a push.

ghost use Rattle.std.specs.Prelude.{◌≡◌, ◌↔◌, ◌++◌, IsTrue, IfOk, OnOk};
ghost use Rattle.yp_push.specs.turns.Printed.{stat_of, stat_text, slave_line, push_text, has_map, AllHaveMap};

use crate::turns::pusher::Pusher;
use crate::{Missed, Outcome};
use std::alloc::{AllocError, Global};
use yp_io::NoMemory;
use yp_messages::PushStat;

/// The status of a slave, if it has one: that of its answer, or why it couldn't be asked.
fn stat_of(outcome: Outcome) -> Option<PushStat>
    ensures { result ≡ stat_of outcome }
{
    match outcome {
        Outcome::Unsent => None,
        Outcome::Unanswered => None,
        Outcome::Missed(Missed::Rpc) => Some(PushStat::Rpc),
        Outcome::Missed(Missed::Maddr) => Some(PushStat::Maddr),
        Outcome::Answered(stat) => Some(stat),
    }
}

/// Whether a slave with this status has the map.
fn has_map(stat: Option<PushStat>) -> bool
    ensures { result ≡ has_map stat }
{
    match stat {
        Some(PushStat::Succ) => true,
        Some(PushStat::Age) => true,
        _ => false,
    }
}

/// Adds the number of a status, or that there is none.
fn add_stat(text: &mut Vec<u8>, stat: Option<PushStat>) -> Result<(), AllocError>
    ensures { OnOk result (text.new.items ≡ text.old.items ++ stat_text stat) }
{
    match stat {
        Some(stat) => {
            text.extend_from_slice(itoa::Buffer::new().format(stat.number()).as_bytes())
        }
        None => text.extend_from_slice(b"none"),
    }
}

/// Adds the line of a slave.
fn add_line(text: &mut Vec<u8>, name: &[u8], outcome: Outcome) -> Result<(), AllocError>
    ensures { OnOk result (text.new.items ≡ text.old.items ++ slave_line name.now outcome) }
{
    text.extend_from_slice(name)?;
    text.extend_from_slice(b" ")?;
    add_stat(text, stat_of(outcome))?;
    text.extend_from_slice(b"\n")
}

/// The lines of all slaves, in their order.
pub fn text_of<A>(alloc: Global, pusher: &Pusher<A>) -> Result<Vec<u8>, NoMemory>
    ensures { IfOk result (λ text. text.items ≡ push_text pusher.now) }
{
    let mut text = Vec::new(alloc);
    for (i, slave) in pusher.slaves().iter().enumerate() {
        let Ok(()) = add_line(&mut text, &slave.name, pusher.result(i as u32)) else {
            return Err(NoMemory);
        };
    }
    Ok(text)
}

/// Whether each slave has the map: it fetched it, or had one that is as new.
pub fn all_have_map<A>(pusher: &Pusher<A>) -> bool
    ensures { IsTrue result ↔ AllHaveMap pusher.now }
{
    for i in 0..pusher.slaves().len() {
        if !has_map(stat_of(pusher.result(i as u32))) {
            return false;
        }
    }
    true
}
