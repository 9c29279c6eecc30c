//! What the caller of a transfer is told.

ghost use Rattle.std.specs.Prelude.{◌≡◌, length, IfOk, OnOk, OnErr};
ghost use Rattle.yp_io.specs.Counts.{CountsFaults};
ghost use Rattle.yp_io.specs.Dials.{Posted, GainsItem};
ghost use Rattle.yp_transfer.specs.inside.Dials.{dial_by};
ghost use Rattle.yp_transfer.specs.CallBack.{call_back_bytes, outcome_stat, wants_call, port_in, CallsBack};
ghost use Rattle.yp_transfer.specs.CallBack.{TellsBack};
ghost use Rattle.yp_transfer.specs.inside.CallBack.{TellsPort, TellsAt};

use crate::fault::XfrFault;
use yp_binding::portmap::protocol::{PORT, UDP};
use yp_binding::portmap::{CALL_LEN, PortReply, ask_port, read_port};
use yp_io::{Dial, Failed, Peer};
use yp_messages::protocol::{PUSHVERS, XFRRESP};
use yp_messages::{Message, RespXfr, XfrStat};
use yp_publisher::Installed;
use yp_rpc::write_call;
use yp_xdr::{NoRoom, XdrFault, laws};

/// The bytes of a call back.
const CALL_BACK_LEN: usize = 48;

/// The room for a reply of a port mapper, in bytes: one has 28, and up to 400 more in its verifier.
const PORT_REPLY_LEN: usize = 512;

/// Who asked for a transfer, and how it is told what came of that (ypreq_xfr of yp.x): its address, its program, the
/// port that it named, and the number of its transaction. A program of 0 asks for no call, and so does a port over
/// 65,535. With a port of 0 the port mapper at its address knows the port, as Debian's yppush has it.
#[derive(Clone, Copy, Debug, PartialEq, Eq)]
pub struct Asker {
    pub addr: [u8; 4],
    pub prog: u32,
    pub port: u32,
    pub transid: u32,
}

/// Posts how a transfer went, to the program of a transaction's caller. No reply is awaited.
pub fn call_back<A: Dial>(
    dial: &mut A,
    to: Peer,
    prog: u32,
    transid: u32,
    stat: XfrStat,
) -> Result<(), Failed>
    ensures posted { OnOk result
        (GainsItem (Posted to (call_back_bytes prog transid stat)) (A.letters dial.old) (A.letters dial.new)) }
    ensures none { OnErr result (A.letters dial.new ≡ A.letters dial.old) }
    ensures past { A.past dial.new ≡ A.past dial.old }
    ensures cause { CountsFaults (A.faults dial.old) (A.faults dial.new) result }
{
    let mut letter = [0; CALL_BACK_LEN];
    set_call_back(&mut letter, prog, transid, stat);
    dial.post(to, &letter)
}

/// Puts a call back into a buffer of its length.
fn set_call_back(letter: &mut [u8], prog: u32, transid: u32, stat: XfrStat)
    requires { length letter.old ≡ 48 }
    ensures { letter.new ≡ call_back_bytes prog transid stat }
{
    laws::written_is_joined();
    let at = match write_call(letter, transid, prog, PUSHVERS, XFRRESP) {
        Ok(at) => at,
        Err(NoRoom) => unreachable!(),
    };
    let told = RespXfr {
        transid,
        xfrstat: stat,
    };
    told.set(letter, at);
}

/// The status of what came of a transfer.
pub(crate) fn stat_of(outcome: &Result<Installed, XfrFault>) -> XfrStat
    ensures { result ≡ outcome_stat outcome.now }
{
    match outcome {
        Ok(_) => XfrStat::Succ,
        Err(fault) => fault.stat(),
    }
}

/// The port that is told by a reply to the call of this number, if one is.
fn port_in(reply: Result<PortReply, XdrFault>, xid: u32) -> Option<u16>
    ensures { result ≡ port_in xid reply }
{
    match reply {
        Ok(reply) if reply.xid == xid && reply.port != 0 => u16::try_from(reply.port).ok(),
        _ => None,
    }
}

/// Asks the port mapper at the address of a caller for the port at which its program takes datagrams, which may be
/// none.
fn port_of<A: Dial>(dial: &mut A, asker: &Asker) -> Result<Option<u16>, Failed>
    ensures asked { IfOk result (λ port. TellsPort asker.now port (A.letters dial.old) (A.letters dial.new)) }
    ensures none { OnErr result (A.letters dial.new ≡ A.letters dial.old) }
    ensures past { A.past dial.new ≡ A.past dial.old }
    ensures cause { CountsFaults (A.faults dial.old) (A.faults dial.new) result }
{
    let mut call = [0; CALL_LEN];
    let len = match ask_port(&mut call, asker.transid, asker.prog, PUSHVERS, UDP) {
        Ok(len) => len,
        Err(NoRoom) => unreachable!(),
    };
    let mapper = Peer {
        addr: asker.addr,
        port: PORT,
    };
    let mut reply = [0; PORT_REPLY_LEN];
    match dial.ask(mapper, &call[..len], &mut reply)? {
        Some(len) => Ok(port_in(read_port(&reply[..len]), asker.transid)),
        None => Ok(None),
    }
}

/// Tells a caller the status at a port. A fault of that changes nothing.
fn tell_at<A: Dial>(dial: &mut A, asker: &Asker, port: u16, stat: XfrStat)
    ensures { TellsAt port asker.now stat (dial_by A.Dial dial.old) (dial_by A.Dial dial.new) }
{
    let to = Peer {
        addr: asker.addr,
        port,
    };
    let _ = call_back(dial, to, asker.prog, asker.transid, stat);
}

/// Tells a caller that named no port the status, at the port that its port mapper tells, if it tells one.
fn tell_by_mapper<A: Dial>(dial: &mut A, asker: &Asker, stat: XfrStat)
    requires { asker.now.port ≡ 0 }
    ensures { TellsBack asker.now stat (dial_by A.Dial dial.old) (dial_by A.Dial dial.new) }
{
    if let Ok(Some(port)) = port_of(dial, asker) {
        tell_at(dial, asker, port, stat);
    }
}

/// Tells a caller the status of a transfer, where it wants to be told: at the port that it named, or where it named
/// none, at that which its port mapper tells, if it tells one. A fault of that changes nothing.
pub fn tell_back<A: Dial>(dial: &mut A, asker: &Asker, stat: XfrStat)
    ensures { CallsBack (wants_call asker.now) asker.now stat (dial_by A.Dial dial.old) (dial_by A.Dial dial.new) }
{
    if asker.prog == 0 {
        return;
    }
    match u16::try_from(asker.port) {
        Ok(0) => tell_by_mapper(dial, asker, stat),
        Ok(port) => tell_at(dial, asker, port, stat),
        Err(_) => {}
    }
}
