//! How a call went.

ghost use Rattle.std.specs.Prelude.{◌≡◌, IsTrue};
ghost use Rattle.yp_xdr.specs.Spelling.{is_one_of};
ghost use Rattle.yp_messages.specs.Statuses.{stat, stat_number, stat_numbers};

use crate::message::{Fields, Message};
use yp_xdr::{Cursor, XdrFault, set_i32};

/// How a look-up went (`ypstat`).
#[derive(Clone, Copy, Debug, PartialEq, Eq)]
pub enum YpStat {
    /// It succeeded.
    True,
    /// There are no more rows.
    Nomore,
    /// No.
    False,
    /// The domain has no such map.
    Nomap,
    /// The domain isn't served.
    Nodom,
    /// The map has no such key.
    Nokey,
    /// The operation isn't valid.
    Badop,
    /// The map is damaged.
    Baddb,
    /// The server failed.
    Yperr,
    /// The arguments aren't valid.
    Badargs,
    /// The versions don't agree.
    Vers,
}

/// The numbers that a status may have.
const NUMBERS: [i32; 11] = [2, 1, 0, -1, -2, -3, -4, -5, -6, -7, -8];

impl YpStat {
    /// Its number in the protocol.
    pub fn number(self) -> i32
        ensures { result ≡ stat_number self }
    {
        match self {
            YpStat::True => 1,
            YpStat::Nomore => 2,
            YpStat::False => 0,
            YpStat::Nomap => -1,
            YpStat::Nodom => -2,
            YpStat::Nokey => -3,
            YpStat::Badop => -4,
            YpStat::Baddb => -5,
            YpStat::Yperr => -6,
            YpStat::Badargs => -7,
            YpStat::Vers => -8,
        }
    }
}

impl Message for YpStat {
    ghost kind = { stat };

    ghost view = { stat_number };

    ghost is_within = { λ _. Unit {0} };

    fn len(&self) -> usize {
        4
    }

    fn set(&self, buf: &mut [u8], at: usize) -> usize {
        set_i32(buf, at, self.number())
    }
}

impl<'a> Fields<'a> for YpStat {
    fn read_fields(cursor: &mut Cursor<'a>) -> Result<YpStat, XdrFault> {
        match cursor.one_of(&NUMBERS) {
            Ok(number) => Ok(stat_of(number)),
            Err(fault) => Err(fault),
        }
    }
}

/// The status that has this number.
fn stat_of(number: i32) -> YpStat
    requires { IsTrue (is_one_of stat_numbers number) }
    ensures { stat_number result ≡ number }
{
    match number {
        2 => YpStat::Nomore,
        1 => YpStat::True,
        0 => YpStat::False,
        -1 => YpStat::Nomap,
        -2 => YpStat::Nodom,
        -3 => YpStat::Nokey,
        -4 => YpStat::Badop,
        -5 => YpStat::Baddb,
        -6 => YpStat::Yperr,
        -7 => YpStat::Badargs,
        _ => YpStat::Vers,
    }
}
