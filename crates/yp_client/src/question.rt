//! The questions of the client commands.

ghost use Rattle.std.specs.Prelude.{◌↔◌, ◌≤◌, length, IsTrue};
ghost use Rattle.yp_messages.specs.Numbers.{name_max};
ghost use Rattle.yp_client.specs.Questions.{bytes_of};
ghost use Rattle.yp_client.specs.inside.Questions.{QuestionIsWithin};

use yp_messages::protocol::{KEY_MAX, NAME_MAX};

/// What a client asks of a server: of a domain, and mostly of one of its maps. A `T` is a name or a key, or says where
/// it stands.
#[derive(Clone, Copy, Debug, Drop)]
pub enum Question<T> {
    /// ALL: the values of all rows, a line each, in rising order of their keys.
    Cat {
        domain: T,
        map: T,
    },
    /// ALL: the keys and values of all rows, with a space between, a line each, in rising order of the keys.
    Catk {
        domain: T,
        map: T,
    },
    /// MATCH: the value of a key.
    Match {
        domain: T,
        map: T,
        key: T,
    },
    /// MASTER: the name of the master of a map.
    Which {
        domain: T,
        map: T,
    },
    /// ORDER and MASTER: `order N`, and then `master NAME`, a line each.
    Poll {
        domain: T,
        map: T,
    },
    /// MAPLIST: the names of the maps, a line each, in the order of the reply.
    Maps {
        domain: T,
    },
    /// XFR: has the server fetch a map from the host that it knows as `source`, and tell nobody what comes of it.
    Pull {
        domain: T,
        map: T,
        source: T,
    },
    /// MAKE_NAMED of the make program: has the server make a map anew.
    Make {
        domain: T,
        map: T,
    },
    /// ALL of the map `netgroup`: `yes` or `no`, whether a host, a user and a domain are a member of a group. What
    /// isn't given may be any.
    Innetgr {
        domain: T,
        group: T,
        host: Option<T>,
        user: Option<T>,
        user_domain: Option<T>,
    },
}

impl Question<Vec<u8>> {
    /// Whether its names have at most 64 bytes, and its key at most 65,536, so that a call can hold them. A group, and
    /// who may be in it, are in no call.
    pub fn is_within(&self) -> bool
        ensures { IsTrue result ↔ QuestionIsWithin (bytes_of self.now) }
    {
        match self {
            Question::Cat { domain, map } => is_name(domain) && is_name(map),
            Question::Catk { domain, map } => is_name(domain) && is_name(map),
            Question::Match { domain, map, key } => {
                is_name(domain) && is_name(map) && key.len() <= KEY_MAX as usize
            }
            Question::Which { domain, map } => is_name(domain) && is_name(map),
            Question::Poll { domain, map } => is_name(domain) && is_name(map),
            Question::Maps { domain } => is_name(domain),
            Question::Pull {
                domain,
                map,
                source,
            } => is_name(domain) && is_name(map) && is_name(source),
            Question::Make { domain, map } => is_name(domain) && is_name(map),
            Question::Innetgr { domain, .. } => is_name(domain),
        }
    }
}

fn is_name(name: &[u8]) -> bool
    ensures { IsTrue result ↔ (length name.now ≤ name_max) }
{
    name.len() <= NAME_MAX as usize
}
