//! A caller of an inbox by TCP: the records that come of its connection, and the replies that it is owed.

ghost use Rattle.std.specs.Prelude.{IfOk};
ghost use Rattle.yp_io.specs.Inboxes.{MailIsWithin};

use crate::socket::{SocketSink, SocketSource};
use std::alloc::Global;
use yp_io::{Awaited, Failed, Mail, Pair, Peer, write_all};
use yp_rpc::{First, Incoming, Outgoing, Payment};

/// The most bytes of a record that is taken in.
pub const CALL_MAX: usize = 8_192;

// The bit that marks a record's last fragment (RFC 5531 section 11).
const LAST: u32 = 0x8000_0000;

/// A caller, with memory for what came of it and what it is owed alone.
#[derive(Drop)]
pub(crate) struct Caller {
    peer: Peer,
    source: SocketSource,
    incoming: Incoming,
    outgoing: Outgoing<SocketSink>,
}

impl Caller {
    /// A caller of whom nothing came yet.
    pub(crate) fn new(alloc: Global, peer: Peer, wire: Pair<SocketSource, SocketSink>) -> Caller {
        let Pair { source, sink } = wire;
        Caller {
            peer,
            source,
            incoming: Incoming::new(alloc),
            outgoing: Outgoing::new(alloc, sink),
        }
    }

    /// What is awaited of it.
    pub(crate) fn awaited(&self) -> Awaited {
        if self.outgoing.len() > 0 {
            Awaited::Payment
        } else if self.incoming.len() > 0 {
            Awaited::Rest
        } else {
            Awaited::Record
        }
    }

    /// Goes on by one step: it takes some of what it is owed, and only where it is owed nothing gives its next record,
    /// else some of that. The answer is the record, if there is one, and whether anything went on. It fails where its
    /// connection did or ended, and where its record is too long.
    pub(crate) fn go_on(&mut self, buf: &mut [u8]) -> Result<(Mail, bool), Failed>
        ensures { IfOk result (λ step. MailIsWithin step.0 buf.new) }
    {
        if self.outgoing.len() > 0 {
            let is_paid = self.outgoing.pay()? != Payment::NotNow;
            return Ok((Mail::Quiet, is_paid));
        }
        match self.take_record(buf)? {
            Mail::Quiet => Ok((Mail::Quiet, self.fill()?)),
            mail => Ok((mail, true)),
        }
    }

    // Puts its next record at the front of `buf`, where all of it came.
    fn take_record(&mut self, buf: &mut [u8]) -> Result<Mail, Failed>
        ensures { IfOk result (λ mail. MailIsWithin mail buf.new) }
    {
        let room = buf.len().min(CALL_MAX);
        match self.incoming.first(&mut buf[..room]) {
            First::Whole { len, spelled } => {
                self.incoming.pass(spelled);
                Ok(Mail::Came {
                    len,
                    from: self.peer,
                })
            }
            First::Part => Ok(Mail::Quiet),
            First::TooLong => Err(Failed),
        }
    }

    // Reads some of what came, and answers whether there was any. It fails at the end.
    fn fill(&mut self) -> Result<bool, Failed> {
        match self.incoming.fill(&mut self.source)? {
            None => Ok(false),
            Some(0) => Err(Failed),
            Some(_) => Ok(true),
        }
    }

    /// Owes it a reply, as one record, and has it take what it can at once.
    pub(crate) fn reply(&mut self, piece: &[u8]) -> Result<(), Failed> {
        let Ok(len) = u32::try_from(piece.len()) else {
            return Err(Failed);
        };
        if len >= LAST {
            return Err(Failed);
        }
        self.outgoing.hold(true);
        write_all(&mut self.outgoing, &(LAST + len).to_be_bytes())?;
        write_all(&mut self.outgoing, piece)?;
        self.outgoing.hold(false);
        self.outgoing.pay()?;
        Ok(())
    }
}
