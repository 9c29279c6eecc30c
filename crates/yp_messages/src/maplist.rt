//! The result of MAPLIST.

ghost use Rattle.std.specs.Prelude.{◌≡◌, ◌++◌, [], ◌∷◌, length, option_map, OnOk, OnErr, IfOk};
ghost use Rattle.std.specs.List.{slice_get};
ghost use Rattle.yp_xdr.specs.Kind.{ListOf};
ghost use Rattle.yp_xdr.specs.inside.Reading.{BeginsWith};
ghost use Rattle.yp_xdr.specs.inside.Cursor.{unread};
ghost use Rattle.yp_messages.specs.inside.MapLists.{map_item, map_item_view, MapItemIsWithin};
ghost use Rattle.yp_messages.specs.MapLists.{map_list};
ghost use Rattle.yp_messages.specs.inside.MapLists.{map_list_view, ReadsInMemory, RefusesInMemory};
ghost use Rattle.yp_messages.specs.Messages.{name};

use crate::message::{Fields, Message, ReadMessage};
use crate::protocol::NAME_MAX;
use crate::stat::YpStat;
use std::alloc::{AllocError, Global};
use std::marker::Model;
use thiserror::Error;
use yp_xdr::{Cursor, XdrFault, laws, opaque_len, set_bool, set_opaque};

/// An item of the list (`ypmaplist`). A server that has the names at hand writes the status, an item for each name and
/// one for the end.
#[derive(Clone, Copy, Debug)]
pub enum MapItem<'a> {
    /// The name of one more map.
    More(&'a [u8]),
    /// No more names follow.
    End,
}

impl Message for MapItem<'_> {
    ghost kind = { map_item };

    ghost view = { map_item_view };

    ghost is_within = { MapItemIsWithin };

    fn len(&self) -> usize {
        match self {
            MapItem::More(map) => 4 + opaque_len(map),
            MapItem::End => 4,
        }
    }

    fn set(&self, buf: &mut [u8], at: usize) -> usize {
        match self {
            MapItem::More(map) => {
                let at = set_bool(buf, at, true);
                set_opaque(buf, at, map)
            }
            MapItem::End => set_bool(buf, at, false),
        }
    }
}

impl<'a> Fields<'a> for MapItem<'a> {
    fn read_fields(cursor: &mut Cursor<'a>) -> Result<MapItem<'a>, XdrFault> {
        let mut ahead = *cursor;
        let item = if ahead.bool()? {
            MapItem::More(ahead.string(NAME_MAX)?)
        } else {
            MapItem::End
        };
        *cursor = ahead;
        Ok(item)
    }
}

/// Names, seen as a list of byte lists.
#[derive(Drop)]
pub struct Names {
    names: Vec<Vec<u8>>,
}

impl Model for Names {
    ghost use Rattle.std.specs.Prelude.{ℕ, List, map};

    ghost Value = { List (List ℕ) };

    ghost view = { λ n. map (λ name. name.items) n.names.items };
}

impl Names {
    fn new(alloc: Global) -> Names
        ensures { result ≡ [] }
    {
        Names {
            names: Vec::new(alloc),
        }
    }

    fn push(&mut self, alloc: Global, name: &[u8]) -> Result<(), AllocError>
        ensures pushed { OnOk result (self.new ≡ self.old ++ name.now ∷ []) }
    {
        let name = Vec::from_slice(alloc, name)?;
        self.names.push(name)?;
        Ok(())
    }

    /// How many names there are.
    pub fn len(&self) -> usize
        ensures { result ≡ length self.now }
    {
        self.names.len()
    }

    /// The name with this number, counted from 0.
    pub fn get(&self, i: usize) -> Option<&[u8]>
        ensures { option_map (λ name. name.now) result ≡ slice_get self.now i }
    {
        match self.names.get(i) {
            None => None,
            Some(name) => Some(name.as_slice()),
        }
    }
}

/// The result of MAPLIST (`ypresp_maplist`).
#[derive(Drop)]
pub struct MapList {
    pub stat: YpStat,
    pub maps: Names,
}

impl MapList {
    /// Reads the message, and moves the cursor past exactly its bytes. After a refusal the cursor hasn't moved.
    pub fn read(alloc: Global, cursor: &mut Cursor<'_>) -> Result<MapList, MapListFault>
        ensures read { ReadsInMemory map_list map_list_view result (unread cursor.old) (unread cursor.new) }
        ensures spelled { IfOk result
            (λ m. BeginsWith map_list (map_list_view m) (unread cursor.old) (unread cursor.new)) }
        ensures refused { RefusesInMemory map_list result (unread cursor.old) }
    {
        laws::read_is_spelled();
        laws::refused_is_not_spelled();
        read_map_list(alloc, cursor)
    }
}

fn read_map_list(alloc: Global, cursor: &mut Cursor<'_>) -> Result<MapList, MapListFault>
    ensures { ReadsInMemory map_list map_list_view result (unread cursor.old) (unread cursor.new) }
{
    let mut ahead = *cursor;
    match YpStat::read_fields(&mut ahead) {
        Err(fault) => Err(MapListFault::Xdr(fault)),
        Ok(stat) => match read_names(alloc, &mut ahead) {
            Err(fault) => Err(fault),
            Ok(maps) => {
                *cursor = ahead;
                Ok(MapList { stat, maps })
            }
        },
    }
}

/// Reads the items of a list up to its end.
fn read_names(alloc: Global, cursor: &mut Cursor<'_>) -> Result<Names, MapListFault>
    ensures { ReadsInMemory (ListOf name) (λ names. names) result (unread cursor.old) (unread cursor.new) }
{
    laws::list_is_read_in_turn();
    let mut ahead = *cursor;
    let mut names = Names::new(alloc);
    'items: loop {
        match MapItem::read(&mut ahead) {
            Err(fault) => return Err(MapListFault::Xdr(fault)),
            Ok(MapItem::End) => break,
            Ok(MapItem::More(map)) => {
                let Ok(()) = names.push(alloc, map) else {
                    return Err(MapListFault::NoMemory);
                };
            }
        }
    }
    *cursor = ahead;
    Ok(names)
}

/// Why the result of MAPLIST can't be read.
#[derive(Clone, Copy, Debug, PartialEq, Eq, Error)]
pub enum MapListFault {
    /// The bytes don't spell it.
    #[error("{0}")]
    Xdr(XdrFault),

    /// Memory ran out.
    #[error("no memory")]
    NoMemory,
}
