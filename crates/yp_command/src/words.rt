//! The words of the command line.

ghost use Rattle.std.specs.Prelude.{◌≡◌, ◌∷◌, [], map, option_map, Ok, IfOk, IfErr, OnErr};
ghost use Rattle.yp_board.specs.Catalogues.{name_view};
ghost use Rattle.yp_client.specs.declared.question.Question.TheVariants.{Cat, Catk, Which, Poll, Make};
ghost use Rattle.yp_command.specs.Words.{command_of, disk_names, stores_of};
ghost use Rattle.yp_command.specs.inside.Words.{connections_of, port_of};
ghost use Rattle.yp_command.specs.Words.{row_view, host_view, meaning, texts};
ghost use Rattle.yp_command.specs.inside.Words.{Answers};
ghost use Rattle.yp_command.specs.Words.{once, session, serve, check, dump, build, load, xfr, walk, revnet, sample};
ghost use Rattle.yp_command.specs.Words.{push, bind, portmap, getport, setport, unsetport, asking, match_key, maps};
ghost use Rattle.yp_command.specs.Words.{innetgr, TakesMemory};
ghost use Rattle.yp_command.specs.Words.{pull, orders, netgroup_of, ypservers_of};
ghost use Rattle.yp_command.specs.inside.Words.{IsSentenceOfWords, IsUsage, HasNames};
ghost use Rattle.yp_command.specs.Words.{is_ypservers, with_ypservers};

use crate::command::{Command, HostWord, KeyValue, PushJob, ServeJob, WalkJob, XfrJob};
use crate::further::{each_host, each_pair, peers_and_domain, servers, stores_and_hosts};
use crate::sentence::Words;
use std::alloc::{AllocError, Global};
use yp_binding::portmap::{Mapping, PortCall};
use yp_board::{MapName, copy_names};
use yp_client::Question;
use yp_io::{NoMemory, Peer};
use yp_texts::Kind;

/// The map of the servers of a domain.
const YPSERVERS: &[u8] = b"ypservers";

/// Why the words are no command.
#[derive(Clone, Copy, Debug, PartialEq, Eq)]
pub enum ParseFault {
    /// This word, counted from 0, is the first that no sentence has. It is the number of words where they end too
    /// early.
    Usage { word: usize },

    /// Memory ran out.
    NoMemory,
}

impl From<usize> for ParseFault {
    ghost use Rattle.std.specs.Prelude.{◌≡◌};
    ghost use Rattle.yp_command.specs.declared.words.ParseFault.TheVariants.{Usage};

    ghost from_gives = { λ word fault. fault ≡ Usage word };

    fn from(word: usize) -> Self {
        ParseFault::Usage { word }
    }
}

impl From<AllocError> for ParseFault {
    ghost use Rattle.std.specs.Prelude.{◌≡◌};
    ghost use Rattle.yp_command.specs.declared.words.ParseFault.TheVariants.{NoMemory};

    ghost from_gives = { λ _ fault. fault ≡ NoMemory };

    fn from(_: AllocError) -> Self {
        ParseFault::NoMemory
    }
}

/// The bytes of a word.
pub fn bytes(alloc: Global, said: &str) -> Result<Vec<u8>, AllocError>
    ensures { IfOk result (λ bytes. bytes.items ≡ said.now) }
{
    Vec::from_slice(alloc, said.as_bytes())
}

/// The name of a map, of those of its domain and of itself.
pub fn map_name(alloc: Global, store: (&str, &str)) -> Result<MapName, AllocError>
    ensures { IfOk result (λ name. name_view name ≡ (store.entry.0.now, store.entry.1.now)) }
{
    Ok(MapName {
        domain: bytes(alloc, store.0)?,
        map: bytes(alloc, store.1)?,
    })
}

/// A host, of its name and its address.
pub fn host_word(alloc: Global, host: (&str, Peer)) -> Result<HostWord, AllocError>
    ensures { IfOk result (λ word. host_view word ≡ (host.entry.0.now, host.entry.1)) }
{
    Ok(HostWord {
        name: bytes(alloc, host.0)?,
        peer: host.1,
    })
}

/// The bytes of who may be in a group.
fn member(alloc: Global, given: Option<&str>) -> Result<Option<Vec<u8>>, AllocError>
    ensures { IfOk result (λ member.
        option_map (λ bytes. bytes.items) member ≡ option_map (λ said. said.now) given.entry) }
{
    match given {
        Some(given) => Ok(Some(bytes(alloc, given)?)),
        None => Ok(None),
    }
}

#[tactic(auto, unfolding(crate::specs::Words::once))]
fn once(alloc: Global, words: Words) -> Result<Command, ParseFault>
    ensures { Answers (once (texts words.entry.words.now)) result }
{
    let store = words.store(1)?;
    let rows = each_pair(alloc, words, 2)?;
    Ok(Command::Once {
        store: map_name(alloc, store)?,
        rows: rows?,
    })
}

#[tactic(auto, unfolding(crate::specs::Words::session))]
fn session(alloc: Global, words: Words) -> Result<Command, ParseFault>
    ensures { Answers (session (texts words.entry.words.now)) result }
{
    let name = words.name(1)?;
    let addr = words.address(2)?;
    let (stores, hosts) = stores_and_hosts(alloc, words, 3)?;
    Ok(Command::Session {
        name: bytes(alloc, name)?,
        addr,
        stores: stores?,
        hosts: hosts?,
    })
}

#[tactic(auto, unfolding(crate::specs::Words::serve))]
fn serve(alloc: Global, words: Words) -> Result<Command, ParseFault>
    ensures { Answers (serve (texts words.entry.words.now)) result }
{
    let name = words.name(1)?;
    let port = words.port(2)?;
    let workers = words.workers(3)?;
    let connections = words.most(4)?;
    let turns = words.most(5)?;
    let log = words.ends_in_log();
    let (stores, hosts) = stores_and_hosts(alloc, words.but_log(), 6)?;
    Ok(Command::Serve(ServeJob {
        name: bytes(alloc, name)?,
        port,
        workers,
        connections,
        turns,
        stores: stores?,
        hosts: hosts?,
        log,
    }))
}

#[tactic(auto, unfolding(crate::specs::Words::check))]
fn check(alloc: Global, words: Words) -> Result<Command, ParseFault>
    ensures { Answers (check (texts words.entry.words.now)) result }
{
    let store = words.store(1)?;
    words.end(2)?;
    Ok(Command::Check {
        store: map_name(alloc, store)?,
    })
}

#[tactic(auto, unfolding(crate::specs::Words::dump))]
fn dump(alloc: Global, words: Words) -> Result<Command, ParseFault>
    ensures { Answers (dump (texts words.entry.words.now)) result }
{
    let store = words.store(1)?;
    words.end(2)?;
    Ok(Command::Dump {
        store: map_name(alloc, store)?,
    })
}

#[tactic(auto, unfolding(crate::specs::Words::build))]
fn build(alloc: Global, words: Words) -> Result<Command, ParseFault>
    ensures { Answers (build (texts words.entry.words.now)) result }
{
    let name = words.name(1)?;
    let store = words.kind_store(2)?;
    let flag = words.flag_if_any(3)?;
    words.end(4)?;
    Ok(Command::Build {
        name: bytes(alloc, name)?,
        store: map_name(alloc, store)?,
        flag,
    })
}

#[tactic(auto, unfolding(crate::specs::Words::load))]
fn load(alloc: Global, words: Words) -> Result<Command, ParseFault>
    ensures { Answers (load (texts words.entry.words.now)) result }
{
    let name = words.name(1)?;
    let store = words.store(2)?;
    let flag = words.flag_if_any(3)?;
    words.end(4)?;
    Ok(Command::Load {
        name: bytes(alloc, name)?,
        store: map_name(alloc, store)?,
        flag,
    })
}

#[tactic(auto, unfolding(crate::specs::Words::xfr))]
fn xfr(alloc: Global, words: Words) -> Result<Command, ParseFault>
    ensures { Answers (xfr (texts words.entry.words.now)) result }
{
    let name = words.name(1)?;
    let force = words.mode(2)?;
    let store = words.store(3)?;
    let host = words.host(4)?;
    let flag = words.flag_if_any(5)?;
    words.end(6)?;
    Ok(Command::Xfr(XfrJob {
        name: bytes(alloc, name)?,
        force,
        store: map_name(alloc, store)?,
        host: host_word(alloc, host)?,
        flag,
    }))
}

#[tactic(auto, unfolding(crate::specs::Words::walk))]
fn walk(alloc: Global, words: Words) -> Result<Command, ParseFault>
    ensures { Answers (walk (texts words.entry.words.now)) result }
{
    let name = words.name(1)?;
    let force = words.mode(2)?;
    let store = words.store(3)?;
    let host = words.host(4)?;
    let port = words.port(5)?;
    let turns = words.most(6)?;
    let flag = words.flag_if_any(7)?;
    words.end(8)?;
    Ok(Command::Walk(WalkJob {
        xfr: XfrJob {
            name: bytes(alloc, name)?,
            force,
            store: map_name(alloc, store)?,
            host: host_word(alloc, host)?,
            flag,
        },
        port,
        turns,
    }))
}

#[tactic(auto, unfolding(crate::specs::Words::revnet))]
fn revnet(alloc: Global, words: Words) -> Result<Command, ParseFault>
    ensures { Answers (revnet (texts words.entry.words.now)) result }
{
    let name = words.name(1)?;
    let store = words.reverse_store(2)?;
    words.end(3)?;
    Ok(Command::Revnet {
        name: bytes(alloc, name)?,
        store: map_name(alloc, store)?,
    })
}

#[tactic(auto, unfolding(crate::specs::Words::sample))]
fn sample(words: Words) -> Result<Command, ParseFault>
    ensures { Answers (sample (texts words.entry.words.now)) result }
{
    let start = words.number(1)?;
    let count = words.number(2)?;
    words.end(3)?;
    Ok(Command::Sample { start, count })
}

#[tactic(auto, unfolding(crate::specs::Words::push))]
fn push(alloc: Global, words: Words) -> Result<Command, ParseFault>
    ensures { Answers (push (texts words.entry.words.now)) result }
{
    let name = words.name(1)?;
    let port = words.port(2)?;
    let window = words.window(3)?;
    let turns = words.most(4)?;
    let store = words.store(5)?;
    let hosts = each_host(alloc, words, 6)?;
    Ok(Command::Push(PushJob {
        name: bytes(alloc, name)?,
        port,
        window,
        turns,
        store: map_name(alloc, store)?,
        hosts: hosts?,
    }))
}

#[tactic(auto, unfolding(crate::specs::Words::bind))]
fn bind(alloc: Global, words: Words) -> Result<Command, ParseFault>
    ensures { Answers (bind (texts words.entry.words.now)) result }
{
    let port = words.port(1)?;
    let policy = words.policy(2)?;
    let turns = words.most(3)?;
    let domain = words.name(4)?;
    let first = words.host(5)?;
    let hosts = servers(alloc, words, 6, first)?;
    Ok(Command::Bind {
        port,
        policy,
        turns,
        domain: bytes(alloc, domain)?,
        hosts: hosts?,
    })
}

#[tactic(auto, unfolding(crate::specs::Words::portmap))]
fn portmap(words: Words) -> Result<Command, ParseFault>
    ensures { Answers (portmap (texts words.entry.words.now)) result }
{
    let port = words.port(1)?;
    let turns = words.most(2)?;
    words.end(3)?;
    Ok(Command::Portmap { port, turns })
}

#[tactic(auto, unfolding(crate::specs::Words::getport))]
fn getport(words: Words) -> Result<Command, ParseFault>
    ensures { Answers (getport (texts words.entry.words.now)) result }
{
    let port = words.port(1)?;
    let turns = words.most(2)?;
    let addr = words.address(3)?;
    let prog = words.number(4)?;
    let vers = words.number(5)?;
    let prot = words.number(6)?;
    words.end(7)?;
    Ok(Command::CallMapper {
        port,
        turns,
        addr,
        call: PortCall::GetPort { prog, vers, prot },
    })
}

#[tactic(auto, unfolding(crate::specs::Words::setport))]
fn setport(words: Words) -> Result<Command, ParseFault>
    ensures { Answers (setport (texts words.entry.words.now)) result }
{
    let port = words.port(1)?;
    let turns = words.most(2)?;
    let addr = words.address(3)?;
    let prog = words.number(4)?;
    let vers = words.number(5)?;
    let prot = words.number(6)?;
    let number = words.port(7)?;
    words.end(8)?;
    let mapping = Mapping {
        prog,
        vers,
        prot,
        port: u32::from(number),
    };
    Ok(Command::CallMapper {
        port,
        turns,
        addr,
        call: PortCall::Set { mapping },
    })
}

#[tactic(auto, unfolding(crate::specs::Words::unsetport))]
fn unsetport(words: Words) -> Result<Command, ParseFault>
    ensures { Answers (unsetport (texts words.entry.words.now)) result }
{
    let port = words.port(1)?;
    let turns = words.most(2)?;
    let addr = words.address(3)?;
    let prog = words.number(4)?;
    let vers = words.number(5)?;
    words.end(6)?;
    Ok(Command::CallMapper {
        port,
        turns,
        addr,
        call: PortCall::Unset { prog, vers },
    })
}

fn cat(alloc: Global, words: Words) -> Result<Command, ParseFault>
    ensures { Answers (asking Cat (texts words.entry.words.now)) result }
{
    let addr = words.address(1)?;
    let domain = words.text(2)?;
    let map = words.text(3)?;
    words.end(4)?;
    let question = Question::Cat {
        domain: bytes(alloc, domain)?,
        map: bytes(alloc, map)?,
    };
    Ok(Command::Ask { addr, question })
}

fn catk(alloc: Global, words: Words) -> Result<Command, ParseFault>
    ensures { Answers (asking Catk (texts words.entry.words.now)) result }
{
    let addr = words.address(1)?;
    let domain = words.text(2)?;
    let map = words.text(3)?;
    words.end(4)?;
    let question = Question::Catk {
        domain: bytes(alloc, domain)?,
        map: bytes(alloc, map)?,
    };
    Ok(Command::Ask { addr, question })
}

fn which(alloc: Global, words: Words) -> Result<Command, ParseFault>
    ensures { Answers (asking Which (texts words.entry.words.now)) result }
{
    let addr = words.address(1)?;
    let domain = words.text(2)?;
    let map = words.text(3)?;
    words.end(4)?;
    let question = Question::Which {
        domain: bytes(alloc, domain)?,
        map: bytes(alloc, map)?,
    };
    Ok(Command::Ask { addr, question })
}

fn poll(alloc: Global, words: Words) -> Result<Command, ParseFault>
    ensures { Answers (asking Poll (texts words.entry.words.now)) result }
{
    let addr = words.address(1)?;
    let domain = words.text(2)?;
    let map = words.text(3)?;
    words.end(4)?;
    let question = Question::Poll {
        domain: bytes(alloc, domain)?,
        map: bytes(alloc, map)?,
    };
    Ok(Command::Ask { addr, question })
}

#[tactic(auto, unfolding(crate::specs::Words::match_key))]
fn match_key(alloc: Global, words: Words) -> Result<Command, ParseFault>
    ensures { Answers (match_key (texts words.entry.words.now)) result }
{
    let addr = words.address(1)?;
    let domain = words.text(2)?;
    let map = words.text(3)?;
    let key = words.key(4)?;
    words.end(5)?;
    let question = Question::Match {
        domain: bytes(alloc, domain)?,
        map: bytes(alloc, map)?,
        key: bytes(alloc, key)?,
    };
    Ok(Command::Ask { addr, question })
}

#[tactic(auto, unfolding(crate::specs::Words::maps))]
fn maps(alloc: Global, words: Words) -> Result<Command, ParseFault>
    ensures { Answers (maps (texts words.entry.words.now)) result }
{
    let addr = words.address(1)?;
    let domain = words.text(2)?;
    words.end(3)?;
    let question = Question::Maps {
        domain: bytes(alloc, domain)?,
    };
    Ok(Command::Ask { addr, question })
}

#[tactic(auto, unfolding(crate::specs::Words::pull))]
fn pull(alloc: Global, words: Words) -> Result<Command, ParseFault>
    ensures { Answers (pull (texts words.entry.words.now)) result }
{
    let addr = words.address(1)?;
    let domain = words.text(2)?;
    let map = words.text(3)?;
    let source = words.text(4)?;
    words.end(5)?;
    let question = Question::Pull {
        domain: bytes(alloc, domain)?,
        map: bytes(alloc, map)?,
        source: bytes(alloc, source)?,
    };
    Ok(Command::Ask { addr, question })
}

fn make(alloc: Global, words: Words) -> Result<Command, ParseFault>
    ensures { Answers (asking Make (texts words.entry.words.now)) result }
{
    let addr = words.address(1)?;
    let domain = words.text(2)?;
    let map = words.text(3)?;
    words.end(4)?;
    let question = Question::Make {
        domain: bytes(alloc, domain)?,
        map: bytes(alloc, map)?,
    };
    Ok(Command::Ask { addr, question })
}

#[tactic(auto, unfolding(crate::specs::Words::innetgr))]
fn innetgr(alloc: Global, words: Words) -> Result<Command, ParseFault>
    ensures { Answers (innetgr (texts words.entry.words.now)) result }
{
    let addr = words.address(1)?;
    let domain = words.text(2)?;
    let group = words.key(3)?;
    let host = words.member(4)?;
    let user = words.member(5)?;
    let user_domain = words.member(6)?;
    words.end(7)?;
    let question = Question::Innetgr {
        domain: bytes(alloc, domain)?,
        group: bytes(alloc, group)?,
        host: member(alloc, host)?,
        user: member(alloc, user)?,
        user_domain: member(alloc, user_domain)?,
    };
    Ok(Command::Ask { addr, question })
}

#[tactic(auto, unfolding(crate::specs::Words::orders))]
fn orders(alloc: Global, words: Words) -> Result<Command, ParseFault>
    ensures { Answers (orders (texts words.entry.words.now)) result }
{
    let first = words.address(1)?;
    let second = words.text(2)?;
    let (others, domain) = peers_and_domain(alloc, words, 3, second)?;
    Ok(Command::Orders {
        first,
        others: others?,
        domain: bytes(alloc, domain)?,
    })
}

/// The command that the words are.
#[tactic(auto, using(crate::proofs::Named::names_read))]
pub fn parse(alloc: Global, words: &[String]) -> Result<Command, ParseFault>
    ensures sentence { IfOk result (λ command. command_of (texts words.now) ≡ Ok (meaning command)) }
    ensures usage { IfErr result (IsUsage (command_of (texts words.now))) }
    ensures names { IfOk result (λ command. HasNames (meaning command)) }
{
    read(alloc, Words { words })
}

/// The command of the sentence that begins with the first word.
#[tactic(auto, unfolding(crate::specs::Words::command_of))]
fn read(alloc: Global, words: Words) -> Result<Command, ParseFault>
    ensures { Answers (command_of (texts words.entry.words.now)) result }
{
    match words.word(0)? {
        "once" => once(alloc, words),
        "session" => session(alloc, words),
        "serve" => serve(alloc, words),
        "check" => check(alloc, words),
        "dump" => dump(alloc, words),
        "build" => build(alloc, words),
        "load" => load(alloc, words),
        "xfr" => xfr(alloc, words),
        "walk" => walk(alloc, words),
        "revnet" => revnet(alloc, words),
        "sample" => sample(words),
        "push" => push(alloc, words),
        "bind" => bind(alloc, words),
        "portmap" => portmap(words),
        "getport" => getport(words),
        "setport" => setport(words),
        "unsetport" => unsetport(words),
        "cat" => cat(alloc, words),
        "catk" => catk(alloc, words),
        "which" => which(alloc, words),
        "poll" => poll(alloc, words),
        "match" => match_key(alloc, words),
        "maps" => maps(alloc, words),
        "pull" => pull(alloc, words),
        "make" => make(alloc, words),
        "innetgr" => innetgr(alloc, words),
        "orders" => orders(alloc, words),
        _ => Err(ParseFault::Usage { word: 0 }),
    }
}

/// The maps whose files a command reads or writes, in the order of its words.
pub fn stores_of(alloc: Global, command: &Command) -> Result<Vec<MapName>, NoMemory>
    ensures names { IfOk result (λ names. map name_view names.items ≡ stores_of (meaning command.now)) }
    ensures memory { OnErr result (TakesMemory (meaning command.now)) }
{
    let names = match command {
        Command::Check { store } => only_name(alloc, store),
        Command::Dump { store } => only_name(alloc, store),
        Command::Build { store, .. } => only_name(alloc, store),
        Command::Load { store, .. } => only_name(alloc, store),
        Command::Xfr(job) => only_name(alloc, &job.store),
        Command::Walk(job) => only_name(alloc, &job.xfr.store),
        Command::Revnet { store, .. } => with_netgroup(alloc, store),
        Command::Push(job) => with_ypservers(alloc, &job.store),
        Command::Session { stores, .. } => copy_names(alloc, stores),
        Command::Serve(job) => copy_names(alloc, &job.stores),
        Command::Once { .. } => return Ok(Vec::new(alloc)),
        Command::Sample { .. } => return Ok(Vec::new(alloc)),
        Command::Bind { .. } => return Ok(Vec::new(alloc)),
        Command::Portmap { .. } => return Ok(Vec::new(alloc)),
        Command::CallMapper { .. } => return Ok(Vec::new(alloc)),
        Command::Ask { .. } => return Ok(Vec::new(alloc)),
        Command::Orders { .. } => return Ok(Vec::new(alloc)),
    };
    match names {
        Ok(names) => Ok(names),
        Err(AllocError) => Err(NoMemory),
    }
}

/// The port at which a command receives datagrams, where it does. `serve` accepts connections there, too.
pub fn port_of(command: &Command) -> Option<u16>
    ensures { result ≡ port_of (meaning command.now) }
{
    match command {
        Command::Once { .. } => None,
        Command::Session { .. } => None,
        Command::Serve(job) => Some(job.port),
        Command::Check { .. } => None,
        Command::Dump { .. } => None,
        Command::Build { .. } => None,
        Command::Load { .. } => None,
        Command::Xfr(_) => None,
        Command::Walk(job) => Some(job.port),
        Command::Revnet { .. } => None,
        Command::Sample { .. } => None,
        Command::Push(job) => Some(job.port),
        Command::Bind { port, .. } => Some(*port),
        Command::Portmap { port, .. } => Some(*port),
        Command::CallMapper { port, .. } => Some(*port),
        Command::Ask { .. } => None,
        Command::Orders { .. } => None,
    }
}

/// How many connections a command accepts.
pub fn connections_of(command: &Command) -> u64
    ensures { result ≡ connections_of (meaning command.now) }
{
    match command {
        Command::Serve(job) => job.connections,
        Command::Once { .. } => 0,
        Command::Session { .. } => 0,
        Command::Check { .. } => 0,
        Command::Dump { .. } => 0,
        Command::Build { .. } => 0,
        Command::Load { .. } => 0,
        Command::Xfr(_) => 0,
        Command::Walk(_) => 0,
        Command::Revnet { .. } => 0,
        Command::Sample { .. } => 0,
        Command::Push(_) => 0,
        Command::Bind { .. } => 0,
        Command::Portmap { .. } => 0,
        Command::CallMapper { .. } => 0,
        Command::Ask { .. } => 0,
        Command::Orders { .. } => 0,
    }
}

/// A list of one name.
fn only_name(alloc: Global, store: &MapName) -> Result<Vec<MapName>, AllocError>
    ensures { IfOk result (λ names. map name_view names.items ≡ name_view store.now ∷ []) }
{
    let store = store.copy(alloc)?;
    Ok(vec![in alloc; store]?)
}

/// The map of netgroups in the domain of a map.
pub fn netgroup_of(alloc: Global, store: &MapName) -> Result<MapName, AllocError>
    ensures { IfOk result (λ netgroup. name_view netgroup ≡ netgroup_of (name_view store.now)) }
{
    Ok(MapName {
        domain: Vec::from_slice(alloc, &store.domain)?,
        map: Vec::from_slice(alloc, Kind::Netgroup.name())?,
    })
}

/// A list of a name, and of that of its domain's netgroups.
fn with_netgroup(alloc: Global, store: &MapName) -> Result<Vec<MapName>, AllocError>
    ensures { IfOk result (λ names.
        map name_view names.items ≡ name_view store.now ∷ netgroup_of (name_view store.now) ∷ []) }
{
    let netgroup = netgroup_of(alloc, store)?;
    let store = store.copy(alloc)?;
    Ok(vec![in alloc; store, netgroup]?)
}

/// The map of servers in the domain of a map.
pub fn ypservers_of(alloc: Global, store: &MapName) -> Result<MapName, AllocError>
    ensures { IfOk result (λ servers. name_view servers ≡ ypservers_of (name_view store.now)) }
{
    Ok(MapName {
        domain: Vec::from_slice(alloc, &store.domain)?,
        map: Vec::from_slice(alloc, YPSERVERS)?,
    })
}

/// Whether a map is that of the servers in its domain.
pub fn is_ypservers(store: &MapName) -> bool
    ensures { result ≡ is_ypservers (name_view store.now) }
{
    store.map.as_slice() == YPSERVERS
}

/// A list of a name, and of that of the servers in its domain, unless it is that one itself.
fn with_ypservers(alloc: Global, store: &MapName) -> Result<Vec<MapName>, AllocError>
    ensures { IfOk result (λ names. map name_view names.items ≡ with_ypservers (name_view store.now)) }
{
    if is_ypservers(store) {
        return only_name(alloc, store);
    }
    let servers = ypservers_of(alloc, store)?;
    let store = store.copy(alloc)?;
    Ok(vec![in alloc; store, servers]?)
}

/// The maps whose files the command of these words reads or writes, in the order of the words. There are none where
/// the words are no sentence.
pub fn disk_names(alloc: Global, words: &[String]) -> Result<Vec<MapName>, NoMemory>
    ensures names { IfOk result (λ names. map name_view names.items ≡ disk_names (texts words.now)) }
    ensures memory { OnErr result (IsSentenceOfWords (command_of (texts words.now))) }
{
    let command = match parse(alloc, words) {
        Ok(command) => command,
        Err(ParseFault::Usage { .. }) => return Ok(Vec::new(alloc)),
        Err(ParseFault::NoMemory) => return Err(NoMemory),
    };
    stores_of(alloc, &command)
}
