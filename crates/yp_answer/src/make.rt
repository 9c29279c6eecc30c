//! The make program: a map is made anew where a caller on the server's own host asks for it.

ghost use Rattle.std.specs.Prelude.{◌≡◌, ◌<◌, ◌≤◌, length, take, option_map, IfOk, IfSome};
ghost use Rattle.yp_rpc.specs.Turns.{datagram_max};
ghost use Rattle.yp_answer.specs.Make.{map_numbered, field_named, making_of, job_of, netgroups_for, is_nameless};
ghost use Rattle.yp_answer.specs.Make.{make_check};
ghost use Rattle.yp_answer.specs.inside.Make.{IsMadeAsNamed};
ghost use Rattle.yp_answer.specs.Reply.{make_reply};

use crate::caller::put_head;
use yp_board::Catalog;
use yp_io::{OWN_HOST, Peer};
use yp_messages::{Message, RespMake, XfrStat};
use yp_netgroup::reverse::Field;
use yp_rpc::ReplyHead;
use yp_texts::{Kind, Reading};

// The maps that have the netgroups by users and by hosts.
const BY_USER: &[u8] = b"netgroup.byuser";

const BY_HOST: &[u8] = b"netgroup.byhost";

/// The part of a triple by which the map with this name has the netgroups.
fn field_named(map: &[u8]) -> Option<Field>
    ensures { result ≡ field_named map.now }
{
    if map == BY_USER {
        Some(Field::User)
    } else if map == BY_HOST {
        Some(Field::Host)
    } else {
        None
    }
}

/// What a map is made of.
#[derive(Clone, Copy, Debug, PartialEq, Eq)]
pub enum Making {
    /// A text, which is read so.
    Text(Reading),

    /// What is shown of the netgroups in the map's domain, by this part of their triples.
    Netgroups(Field),
}

impl Making {
    /// What the map with this name is made of.
    fn of_map(map: &[u8]) -> Making
        ensures { result ≡ making_of map.now }
    {
        match field_named(map) {
            Some(field) => Making::Netgroups(field),
            None => Making::Text(Reading::of_map(map)),
        }
    }
}

/// A map that is made: its number from 0, and what it is made of.
#[derive(Clone, Copy, Debug, PartialEq, Eq)]
pub struct MakeJob {
    pub map: u32,
    pub making: Making,
}

impl MakeJob {
    /// The making of the map with this number, as its name says.
    pub fn of_map(catalog: &Catalog, map: u32) -> MakeJob
        requires { map < length catalog.now.maps }
        ensures { result ≡ job_of catalog.now map }
    {
        let making = Making::of_map(&catalog.name(map).map);
        MakeJob { map, making }
    }

    /// The number of the netgroups in the map's domain.
    pub fn netgroups(self, catalog: &Catalog) -> Option<u32>
        requires { self.map < length catalog.now.maps }
        ensures number { result ≡ netgroups_for catalog.now self }
        ensures inside { IfSome result (λ map. map < length catalog.now.maps) }
    {
        catalog.find(&catalog.name(self.map).domain, Kind::Netgroup.name())
    }
}

/// The map of the kind with this number, by its name.
pub fn map_numbered(kind: u32) -> Option<&'static [u8]>
    ensures { option_map (λ name. name.now) result ≡ map_numbered kind }
{
    match Kind::of_number(kind) {
        Some(kind) => Some(kind.name()),
        None => None,
    }
}

/// Whether a name has no byte.
fn is_nameless(name: Option<&[u8]>) -> bool
    ensures { result ≡ is_nameless (option_map (λ name. name.now) name.entry) }
{
    match name {
        Some(name) => name.is_empty(),
        None => false,
    }
}

/// The map of a domain that is made for a caller, or the status that refuses to, the first that applies. It rests on
/// the catalogue alone.
pub fn make_check(
    catalog: &Catalog,
    peer: Peer,
    domain: &[u8],
    map: Option<&[u8]>,
) -> Result<MakeJob, XfrStat>
    ensures check { result ≡ make_check catalog.now peer domain.now (option_map (λ name. name.now) map.entry) }
    ensures inside { IfOk result (λ job. job.map < length catalog.now.maps) }
    ensures as_named { IfOk result (λ job. IsMadeAsNamed catalog.now job) }
{
    if peer.addr != OWN_HOST {
        return Err(XfrStat::Refused);
    }
    if domain.is_empty() || is_nameless(map) {
        return Err(XfrStat::Badargs);
    }
    if !catalog.serves(domain) {
        return Err(XfrStat::Nodom);
    }
    let Some(name) = map else {
        return Err(XfrStat::Nomap);
    };
    match catalog.find(domain, name) {
        Some(map) => Ok(MakeJob::of_map(catalog, map)),
        None => Err(XfrStat::Nomap),
    }
}

/// Puts the reply of the make program with a status at the front of the buffer, and answers its length.
pub fn make_reply(buf: &mut [u8], xid: u32, stat: XfrStat) -> usize
    requires { datagram_max ≤ length buf.old }
    ensures reply { take result buf.new ≡ make_reply xid stat }
    ensures within { result ≤ length buf.new }
    ensures some { 0 < result }
{
    let at = put_head(buf, xid, &ReplyHead::Success);
    RespMake { stat }.set(buf, at)
}
