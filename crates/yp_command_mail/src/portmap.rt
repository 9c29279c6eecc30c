//! The command `portmap`: a port mapper, which tells its mappings at the end.

ghost use Rattle.std.specs.Prelude.{◌≡◌, ◌≢◌, ◌⊎◌, IsTrue, IfOk};
ghost use Rattle.yp_io.specs.Counts.{HasRisen};
ghost use Rattle.yp_command.specs.office.Seeing.{seeing, IsPassedOn};
ghost use Rattle.yp_command.specs.inside.office.Status.{IsTellable};
ghost use Rattle.yp_command.specs.declared.office.status.Status.TheVariants.{Done, WriteFault, InboxFault};
ghost use Rattle.yp_command_mail.specs.Telling.{TellsText};
ghost use Rattle.yp_command_mail.specs.Portmap.{Goes, Hears, Rests, mapping_line, mappings_text, portmap_may_end};
ghost use Rattle.yp_command_mail.specs.Portmap.{PortmapDoes};

use crate::text::tell_text;
use std::alloc::Global;
use yp_binding::portmap::{Mapping, Registry};
use yp_command::office::{Line, Office, Status, add, add_number};
use yp_io::{Clock, Dial, Disk, Failed, Inbox, NoMemory, Peer, Sink, Source, Texts};
use yp_rpc::{Handler, Room, Wish, take_turns};

/// What a port mapper knows, as what its turns change.
#[derive(Drop)]
pub struct Mapper {
    pub registry: Registry,
}

impl Handler for Mapper {
    ghost goes = { Goes };

    ghost hears = { Hears };

    ghost rests = { Rests };

    ghost letters = { λ _. 0 };

    fn next(&mut self, _buf: &mut [u8]) -> Wish {
        Wish::Wait
    }

    fn hear(&mut self, from: Peer, mail: &[u8], buf: &mut [u8]) -> usize {
        self.registry.on_call(mail, from, buf)
    }

    fn rest(&mut self) {}
}

/// The line of a mapping.
fn line(mapping: &Mapping) -> Line
    ensures { result.items ≡ mapping_line mapping.now }
{
    let mut line = Line::new();
    add_number(&mut line, u64::from(mapping.prog));
    add(&mut line, b" ");
    add_number(&mut line, u64::from(mapping.vers));
    add(&mut line, b" ");
    add_number(&mut line, u64::from(mapping.prot));
    add(&mut line, b" ");
    add_number(&mut line, u64::from(mapping.port));
    add(&mut line, b"\n");
    line
}

/// The lines of all mappings.
fn text_of(alloc: Global, registry: &Registry) -> Result<Vec<u8>, NoMemory>
    ensures { IfOk result (λ text. text.items ≡ mappings_text registry.now) }
{
    let mut text = Vec::new(alloc);
    for i in 0..registry.len() {
        let Some(mapping) = registry.row(i) else {
            unreachable!()
        };
        let Ok(()) = text.extend_from_slice(&line(&mapping)) else {
            return Err(NoMemory);
        };
    }
    Ok(text)
}

/// Tells all mappings, or that memory ran out.
fn tell_ports<K: Sink>(alloc: Global, sink: &mut K, registry: &Registry) -> Status
    ensures tells { TellsText (mappings_text registry.now) Done result (K.output sink.old) (K.output sink.new)
        ⊎ ((result ≡ Status.NoMemory) × (sink.new ≡ sink.old)) }
    ensures may_end { IsTrue (portmap_may_end result) }
    ensures heard { result ≢ InboxFault }
    ensures flushed { result ≢ WriteFault → IsTrue (K.flushed sink.old) → IsTrue (K.flushed sink.new) }
    ensures cause { result ≡ WriteFault → HasRisen (K.faults sink.old) (K.faults sink.new) }
{
    match text_of(alloc, registry) {
        Ok(text) => tell_text(sink, &text, Status::Done),
        Err(NoMemory) => Status::NoMemory,
    }
}

/// Answers the calls of a port mapper in so many turns, and tells the mappings that stand at the end.
pub fn serve_ports<S: Source, K: Sink, D: Disk, C: Clock, A: Dial, I: Inbox, T: Texts>(
    alloc: Global,
    turns: u64,
    office: &mut Office<S, K, D, C, A, I, T>,
) -> Status
    ensures does { PortmapDoes (seeing S.Source K.Sink D.Disk C.Clock A.Dial I.Inbox T.Texts)
        turns result office.old office.new }
    ensures may_end { IsTrue (portmap_may_end result) }
    ensures passed_on { IsPassedOn (seeing S.Source K.Sink D.Disk C.Clock A.Dial I.Inbox T.Texts)
        result office.old office.new }
    ensures tellable { IsTellable result }
{
    let Ok(mut room) = Room::new(alloc) else {
        return Status::NoMemory;
    };
    let Ok(registry) = Registry::new(alloc) else {
        return Status::NoMemory;
    };
    let mut mapper = Mapper { registry };
    match take_turns(&mut office.inbox, &mut mapper, &mut room, turns) {
        Ok(_) => tell_ports(alloc, &mut office.wire.sink, &mapper.registry),
        Err(Failed) => Status::InboxFault,
    }
}
