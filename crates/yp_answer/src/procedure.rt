//! The programs that are answered and their procedures: YP version 2 (yp.x) and the make program.

ghost use Rattle.std.specs.Prelude.{◌≡◌};
ghost use Rattle.yp_answer.specs.Procedures.{procedure_of, make_procedure_of, programs_on};

use yp_messages::protocol::{
    ALL, CLEAR, DOMAIN, DOMAIN_NONACK, FIRST, MAKE, MAKE_NAMED, MAKE_NULL, MAKEPROG, MAKEVERS,
    MAPLIST, MASTER, MATCH, NEXT, NULL, ORDER, XFR, YPPROG, YPVERS,
};
use yp_rpc::Programs;

/// How a call comes and its reply goes.
#[derive(Clone, Copy, Debug, PartialEq, Eq)]
pub enum Path {
    /// In records of a stream.
    Stream,
    /// In one datagram each.
    Datagram,
}

/// A procedure that is answered.
#[derive(Clone, Copy)]
pub enum Procedure {
    Null,
    Domain,
    DomainNonack,
    Match,
    First,
    Next,
    Xfr,
    Clear,
    All,
    Master,
    Order,
    Maplist,
    Make,
    MakeNamed,
}

impl Procedure {
    /// The procedure of YP with this number on a path. ALL is sent over a stream alone.
    fn of_number(path: Path, number: u32) -> Option<Procedure>
        ensures { result ≡ procedure_of path number }
    {
        match number {
            NULL => Some(Procedure::Null),
            DOMAIN => Some(Procedure::Domain),
            DOMAIN_NONACK => Some(Procedure::DomainNonack),
            MATCH => Some(Procedure::Match),
            FIRST => Some(Procedure::First),
            NEXT => Some(Procedure::Next),
            XFR => Some(Procedure::Xfr),
            CLEAR => Some(Procedure::Clear),
            ALL => match path {
                Path::Stream => Some(Procedure::All),
                Path::Datagram => None,
            },
            MASTER => Some(Procedure::Master),
            ORDER => Some(Procedure::Order),
            MAPLIST => Some(Procedure::Maplist),
            _ => None,
        }
    }

    /// The procedure of the make program with this number.
    fn of_make_number(number: u32) -> Option<Procedure>
        ensures { result ≡ make_procedure_of number }
    {
        match number {
            MAKE_NULL => Some(Procedure::Null),
            MAKE => Some(Procedure::Make),
            MAKE_NAMED => Some(Procedure::MakeNamed),
            _ => None,
        }
    }
}

/// The programs that are answered on a path.
impl Programs for Path {
    type Procedure = Procedure;

    ghost table = { programs_on };

    fn version(&self, prog: u32) -> Option<u32> {
        match prog {
            YPPROG => Some(YPVERS),
            MAKEPROG => Some(MAKEVERS),
            _ => None,
        }
    }

    fn procedure(&self, prog: u32, number: u32) -> Option<Procedure> {
        match prog {
            YPPROG => Procedure::of_number(*self, number),
            MAKEPROG => Procedure::of_make_number(number),
            _ => None,
        }
    }
}
