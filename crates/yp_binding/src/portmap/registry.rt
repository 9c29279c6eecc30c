//! The registry of the port mapper, and its replies.

ghost use Rattle.std.specs.Prelude.{◌≡◌, ◌+◌, ◌*◌, ◌≤◌, ◌++◌, [], length, map, take, slice_get, IfOk};
ghost use Rattle.std.specs.List.{find, list_any};
ghost use Rattle.std.specs.Option.{option_map};
ghost use Rattle.yp_xdr.specs.Kind.{Boolean, ListOf, U32};
ghost use Rattle.yp_xdr.specs.Spelling.{present, spelling};
ghost use Rattle.yp_rpc.specs.Reply.{reply_head};
ghost use Rattle.yp_binding.specs.portmap.Registry.{mapping_kind, mapping_view, is_here, is_of, is_same, is_set};
ghost use Rattle.yp_binding.specs.portmap.Registry.{with_set, is_unset, with_unset, port_for, Differ};
ghost use Rattle.yp_binding.specs.portmap.Replies.{success, reply, after};
ghost use Rattle.yp_binding.specs.inside.portmap.Replies.{reply_in};

use crate::portmap::mapping::Mapping;
use crate::portmap::protocol::MAPPINGS_MAX;
use crate::portmap::request::{Request, read_request};
use std::alloc::Global;
use std::marker::Model;
use yp_io::{NoMemory, OWN_HOST, Peer};
use yp_messages::Message;
use yp_rpc::{DATAGRAM_MAX, ReplyHead, write_reply};
use yp_xdr::{NoRoom, set_bool, set_u32};

/// The mappings that a port mapper knows. It is seen as their list, in the order in which they were set.
#[derive(Drop)]
pub struct Registry {
    // has room for the most mappings
    mappings: Vec<Mapping>,
}

impl Model for Registry {
    ghost use Rattle.std.specs.Prelude.{◌≤◌, List, length, vec_capacity};
    ghost use Rattle.yp_binding.specs.declared.portmap.mapping.Mapping.{Mapping};
    ghost use Rattle.yp_binding.specs.portmap.Numbers.{mappings_max};
    ghost use Rattle.yp_binding.specs.portmap.Registry.{Differ};

    ghost Value = { List Mapping };

    ghost view = { λ r. r.mappings.items };

    ghost invariant = { λ r. (length r.mappings.items ≤ mappings_max) × (mappings_max ≤ vec_capacity r.mappings)
        × Differ r.mappings.items };
}

/// Whether a caller is on the own host.
fn is_here(from: Peer) -> bool
    ensures { result ≡ is_here from }
{
    from.addr == OWN_HOST
}

/// Whether a mapping of the same version of the same program over the same protocol is among these.
fn has_same(asked: &Mapping, mappings: &[Mapping]) -> bool
    ensures { result ≡ list_any (is_same asked.now) mappings.now }
{
    mappings.iter().any(|mapping| asked.is_same(mapping))
}

/// Whether a mapping of the same version of the same program is among these.
fn has_version(asked: &Mapping, mappings: &[Mapping]) -> bool
    ensures { result ≡ list_any (is_of asked.now) mappings.now }
{
    mappings.iter().any(|mapping| asked.is_of(mapping))
}

/// The first of these that is of the same version of the same program over the same protocol.
fn found<'a>(asked: &Mapping, mappings: &'a [Mapping]) -> Option<&'a Mapping>
    ensures { option_map (λ mapping. mapping.now) result ≡ find (is_same asked.now) mappings.now }
{
    mappings.iter().find(|mapping| asked.is_same(mapping))
}

/// Whether SET adds a mapping to these, for a caller.
fn is_set(from: Peer, asked: &Mapping, mappings: &[Mapping]) -> bool
    ensures { result ≡ is_set from asked.now mappings.now }
{
    is_here(from)
        && asked.may_stand()
        && !has_same(asked, mappings)
        && mappings.len() < MAPPINGS_MAX
}

/// Puts the head of a reply at the front of the buffer, and answers its length.
fn put_head(buf: &mut [u8], xid: u32, head: &ReplyHead) -> usize
    requires { DATAGRAM_MAX ≤ length buf.old }
    ensures head { take result buf.new ≡ reply_head xid head.now }
    ensures short { result ≤ 32 }
{
    match write_reply(buf, xid, head) {
        Ok(len) => len,
        Err(NoRoom) => unreachable!(),
    }
}

/// Puts a reply with one truth value at the front of the buffer, and answers its length.
fn put_truth(buf: &mut [u8], xid: u32, truth: bool) -> usize
    requires { DATAGRAM_MAX ≤ length buf.old }
    ensures reply { take result buf.new ≡ success xid Boolean truth }
    ensures within { result ≤ length buf.new }
{
    let at = put_head(buf, xid, &ReplyHead::Success);
    set_bool(buf, at, truth)
}

/// Puts a reply with one number at the front of the buffer, and answers its length.
fn put_number(buf: &mut [u8], xid: u32, number: u32) -> usize
    requires { DATAGRAM_MAX ≤ length buf.old }
    ensures reply { take result buf.new ≡ success xid U32 number }
    ensures within { result ≤ length buf.new }
{
    let at = put_head(buf, xid, &ReplyHead::Success);
    set_u32(buf, at, number)
}

/// Puts a mapping of a list behind a place of the buffer, and answers the place behind it.
fn put_mapping(buf: &mut [u8], at: usize, mapping: &Mapping) -> usize
    requires { at + 20 ≤ length buf.old }
    ensures put { take result buf.new ≡ take at buf.old ++ present (spelling mapping_kind) (mapping_view mapping.now) }
    ensures len { result ≡ at + 20 }
{
    let at = set_bool(buf, at, true);
    mapping.set(buf, at)
}

/// Puts a list of mappings behind a place of the buffer, and answers the place behind it.
fn put_mappings(buf: &mut [u8], at: usize, mappings: &[Mapping]) -> usize
    requires { at + 20 * length mappings.now + 4 ≤ length buf.old }
    ensures put { take result buf.new ≡ take at buf.old
        ++ spelling (ListOf mapping_kind) (map mapping_view mappings.now) }
    ensures within { result ≤ length buf.new }
{
    let mut end = at;
    for mapping in mappings {
        end = put_mapping(buf, end, mapping);
    }
    set_bool(buf, end, false)
}

impl Registry {
    /// Takes all the memory that a registry needs. It has no mapping.
    pub fn new(alloc: Global) -> Result<Registry, NoMemory>
        ensures { IfOk result (λ registry. registry ≡ []) }
    {
        match Vec::with_capacity(alloc, MAPPINGS_MAX) {
            Ok(mappings) => Ok(Registry { mappings }),
            Err(_) => Err(NoMemory),
        }
    }

    /// How many mappings there are.
    pub fn len(&self) -> usize
        ensures { result ≡ length self.now }
    {
        self.mappings.len()
    }

    /// A law: no two mappings are of one version of a program over one protocol.
    pub fn mappings_differ(&self)
        ensures { Differ self.now }
    {
        let _count = self.mappings.len();
    }

    /// The mapping with this number, from 0.
    pub fn row(&self, i: usize) -> Option<Mapping>
        ensures { result ≡ slice_get self.now i }
    {
        self.mappings.get(i).copied()
    }

    /// Adds a mapping, where it is to be added, and answers whether it was.
    fn set(&mut self, from: Peer, asked: Mapping) -> bool
        ensures result { result ≡ is_set from asked self.old }
        ensures after { self.new ≡ with_set from asked self.old }
    {
        if !is_set(from, &asked, &self.mappings) {
            return false;
        }
        self.mappings.push_reserved(asked);
        true
    }

    /// Removes the mappings of a version of a program, where they are to be removed, and answers whether there was one.
    fn unset(&mut self, from: Peer, asked: Mapping) -> bool
        ensures result { result ≡ is_unset from asked self.old }
        ensures after { self.new ≡ with_unset from asked self.old }
    {
        if !is_here(from) {
            return false;
        }
        let is_unset = has_version(&asked, &self.mappings);
        self.mappings.retain(|mapping| !asked.is_of(mapping));
        is_unset
    }

    /// The port of a version of a program over a protocol, and 0 where there is none.
    fn port(&self, asked: &Mapping) -> u32
        ensures { result ≡ port_for asked.now self.now }
    {
        match found(asked, &self.mappings) {
            Some(mapping) => mapping.port,
            None => 0,
        }
    }

    /// Answers a datagram of a caller: puts the reply at the front of the buffer and gives its length, or 0 where there
    /// is none.
    pub fn on_call(&mut self, call: &[u8], from: Peer, buf: &mut [u8]) -> usize
        requires { DATAGRAM_MAX ≤ length buf.old }
        ensures reply { reply_in result buf.new ≡ reply from self.old call.now }
        ensures after { self.new ≡ after from self.old call.now }
        ensures within { result ≤ length buf.new }
    {
        match read_request(call) {
            Request::Nothing => 0,
            Request::Answer { xid, head } => put_head(buf, xid, &head),
            Request::Set { xid, asked } => put_truth(buf, xid, self.set(from, asked)),
            Request::Unset { xid, asked } => put_truth(buf, xid, self.unset(from, asked)),
            Request::GetPort { xid, asked } => put_number(buf, xid, self.port(&asked)),
            Request::Dump { xid } => {
                let at = put_head(buf, xid, &ReplyHead::Success);
                put_mappings(buf, at, &self.mappings)
            }
        }
    }
}
