//! The words behind those that a sentence lists, each read once by its form.
//!
//! Memory may run out while words are read. It is told once all of them are, since a wrong word goes before it.

ghost use Rattle.std.specs.Prelude.{◌≡◌, ◌++◌, ◌∷◌, [], drop, map};
ghost use Rattle.std.specs.List.{list_any};
ghost use Rattle.std.specs.Option.{ok_or};
ghost use Rattle.yp_board.specs.Catalogues.{name_view, is_same};
ghost use Rattle.yp_command.specs.Forms as forms;
ghost use Rattle.yp_command.specs.Words.{each, servers, stores_and_hosts, compared, row_view, host_view, texts};
ghost use Rattle.yp_command.specs.inside.Words.{Holds, AreRead};
ghost use Rattle.yp_command.specs.inside.Words.{AreServed, AreCompared};
ghost use Rattle.yp_binding.specs.Rounds.{is_same_peer};

use crate::command::{HostWord, KeyValue};
use crate::form;
use crate::sentence::Words;
use crate::words::{bytes, host_word, map_name};
use arrayvec::ArrayVec;
use std::alloc::{AllocError, Global};
use yp_binding::{SERVERS_MAX, is_same_peer};
use yp_board::{MAPS_MAX, MapName};
use yp_io::Peer;

/// A list that is made of words, where memory didn't run out for it.
pub type Made<T> = Result<Vec<T>, AllocError>;

/// The rows with one more.
fn with_row(alloc: Global, rows: Made<KeyValue>, pair: (&str, &str)) -> Made<KeyValue>
    ensures { (values : _) → Holds row_view rows values
        → Holds row_view result (values ++ (pair.entry.0.now, pair.entry.1.now) ∷ []) }
{
    let mut rows = rows?;
    let key = bytes(alloc, pair.0)?;
    let value = bytes(alloc, pair.1)?;
    rows.push(KeyValue { key, value })?;
    Ok(rows)
}

/// The hosts with one more.
fn with_host(alloc: Global, hosts: Made<HostWord>, host: (&str, Peer)) -> Made<HostWord>
    ensures { (values : _) → Holds host_view hosts values
        → Holds host_view result (values ++ (host.entry.0.now, host.entry.1) ∷ []) }
{
    let mut hosts = hosts?;
    let host = host_word(alloc, host)?;
    hosts.push(host)?;
    Ok(hosts)
}

/// The addresses with one more.
fn with_peer(peers: Made<Peer>, peer: Peer) -> Made<Peer>
    ensures { (values : _) → Holds (λ peer. peer) peers values
        → Holds (λ peer. peer) result (values ++ peer ∷ []) }
{
    let mut peers = peers?;
    peers.push(peer)?;
    Ok(peers)
}

/// The rows that the words are from this number on.
pub fn each_pair(alloc: Global, words: Words, at: usize) -> Result<Made<KeyValue>, usize>
    ensures { AreRead row_view (each forms.pair at [] (drop at (texts words.entry.words.now))) result }
{
    let mut rows = Ok(Vec::new(alloc));
    for i in at..words.words.len() {
        let pair = words.pair(i)?;
        rows = with_row(alloc, rows, pair);
    }
    Ok(rows)
}

/// The hosts that the words are from this number on.
pub fn each_host(alloc: Global, words: Words, at: usize) -> Result<Made<HostWord>, usize>
    ensures { AreRead host_view (each forms.host at [] (drop at (texts words.entry.words.now))) result }
{
    let mut hosts = Ok(Vec::new(alloc));
    for i in at..words.words.len() {
        let host = words.host(i)?;
        hosts = with_host(alloc, hosts, host);
    }
    Ok(hosts)
}

/// The address that a word says with another one behind it, which has this number and is wrong where it says none.
fn address_before(word: &str, at: usize) -> Result<Peer, usize>
    ensures { result ≡ ok_or (forms.address word.now) at }
{
    form::address(word).ok_or(at)
}

/// The servers and the domain that the words are from this number on, where `domain` is the word before them. The last
/// word is the domain, and each before it an address.
pub fn peers_and_domain<'a>(
    alloc: Global,
    words: Words<'a>,
    at: usize,
    domain: &'a str,
) -> Result<(Made<Peer>, &'a str), usize>
    ensures { AreCompared (compared at [] domain.entry.now (drop at (texts words.entry.words.now))) result }
{
    let mut last = domain;
    let mut peers = Ok(Vec::new(alloc));
    for i in at..words.words.len() {
        let peer = address_before(last, i)?;
        let next = words.text(i)?;
        peers = with_peer(peers, peer);
        last = next;
    }
    Ok((peers, last))
}

/// The names of maps.
fn map_names(alloc: Global, stores: &[(&str, &str)]) -> Made<MapName>
    ensures { Holds name_view result (map (λ store. (store.0.now, store.1.now)) stores.now) }
{
    let mut names = Vec::with_capacity(alloc, stores.len())?;
    for store in stores {
        names.push(map_name(alloc, *store)?)?;
    }
    Ok(names)
}

/// Whether one of these maps is this one.
fn is_named(stores: &[(&str, &str)], store: (&str, &str)) -> bool
    ensures { result ≡ list_any (λ other. is_same (store.entry.0.now, store.entry.1.now) (other.0.now, other.1.now))
        stores.now }
{
    stores
        .iter()
        .any(|other| store.0 == other.0 && store.1 == other.1)
}

/// The maps and hosts of a server, which the words are from this number on. No map is named twice, and there are 1 to
/// 64.
pub fn stores_and_hosts(
    alloc: Global,
    words: Words,
    at: usize,
) -> Result<(Made<MapName>, Made<HostWord>), usize>
    ensures { AreServed (stores_and_hosts at (texts words.entry.words.now)) result }
{
    let mut stores: ArrayVec<(&str, &str), MAPS_MAX> = ArrayVec::new();
    let mut hosts = Ok(Vec::new(alloc));
    for i in at..words.words.len() {
        if let Ok(store) = words.store(i) {
            if is_named(&stores, store) || stores.is_full() {
                return Err(i);
            }
            stores.push(store);
        } else {
            let host = words.host(i)?;
            hosts = with_host(alloc, hosts, host);
        }
    }
    if stores.is_empty() {
        return Err(words.words.len());
    }
    Ok((map_names(alloc, &stores), hosts))
}

/// Whether one of these is this server.
fn is_known(peers: &[Peer], peer: Peer) -> bool
    ensures { result ≡ list_any (is_same_peer peer) peers.now }
{
    peers.iter().any(|other| is_same_peer(peer, *other))
}

/// The servers of a binder: this one, and those that the words are from this number on. Each has an address of its own,
/// and there are at most 64.
pub fn servers(
    alloc: Global,
    words: Words,
    at: usize,
    first: (&str, Peer),
) -> Result<Made<HostWord>, usize>
    ensures { AreRead host_view
        (servers at ((first.entry.0.now, first.entry.1) ∷ []) (drop at (texts words.entry.words.now))) result }
{
    let mut peers = [first.1; SERVERS_MAX];
    let mut count = 1;
    let mut hosts = with_host(alloc, Ok(Vec::new(alloc)), first);
    for i in at..words.words.len() {
        let host = words.host(i)?;
        if is_known(&peers[..count], host.1) || count == SERVERS_MAX {
            return Err(i);
        }
        peers[count] = host.1;
        count += 1;
        hosts = with_host(alloc, hosts, host);
    }
    Ok(hosts)
}
