//! What the program can be asked to do.

use yp_binding::Policy;
use yp_binding::portmap::PortCall;
use yp_board::MapName;
use yp_client::Question;
use yp_io::Peer;

/// A row that the words give.
#[derive(Drop)]
pub struct KeyValue {
    pub key: Vec<u8>,
    pub value: Vec<u8>,
}

/// A host that the words name, and its address.
#[derive(Drop)]
pub struct HostWord {
    pub name: Vec<u8>,
    pub peer: Peer,
}

/// A map that is to be fetched and stored.
#[derive(Drop)]
pub struct XfrJob {
    /// The name of the host that stores the map.
    pub name: Vec<u8>,
    /// Whether the version goes in whatever its order is.
    pub force: bool,
    /// The map.
    pub store: MapName,
    /// The host that has it.
    pub host: HostWord,
    /// Whether the version is secure, where that is said.
    pub flag: Option<bool>,
}

/// A map that is to be fetched in datagrams and stored.
#[derive(Drop)]
pub struct WalkJob {
    /// What is fetched of which host, and how it is stored.
    pub xfr: XfrJob,
    /// The port at which datagrams are received.
    pub port: u16,
    /// The most turns.
    pub turns: u64,
}

/// Maps that are served to many callers.
#[derive(Drop)]
pub struct ServeJob {
    /// The name of the host that answers.
    pub name: Vec<u8>,
    /// The port of connections and of datagrams.
    pub port: u16,
    /// How many workers serve connections, from 1 to 8.
    pub workers: u32,
    /// How many connections are accepted.
    pub connections: u64,
    /// The most turns at the datagrams.
    pub turns: u64,
    /// The maps.
    pub stores: Vec<MapName>,
    /// The hosts that it knows.
    pub hosts: Vec<HostWord>,
    /// Whether it tells what it does.
    pub log: bool,
}

/// A map that slaves are to fetch.
#[derive(Drop)]
pub struct PushJob {
    /// The own name, which is no slave's, and from which the slaves fetch.
    pub name: Vec<u8>,
    /// The port at which the slaves tell how it went.
    pub port: u16,
    /// How many slaves may be outstanding.
    pub window: u32,
    /// How many turns are taken at most.
    pub turns: u64,
    /// The map.
    pub store: MapName,
    /// The addresses of slaves.
    pub hosts: Vec<HostWord>,
}

/// What the words of the command line ask for.
#[derive(Drop)]
pub enum Command {
    /// Answers the calls of the input on one map of these rows.
    Once {
        store: MapName,
        rows: Vec<KeyValue>,
    },
    /// Answers the calls of the input over the stored versions of these maps. `name` is the host that answers, `addr`
    /// its caller, and `hosts` the hosts that it knows.
    Session {
        name: Vec<u8>,
        addr: Peer,
        stores: Vec<MapName>,
        hosts: Vec<HostWord>,
    },
    /// Answers the calls of connections and of datagrams at a port over the stored versions of maps.
    Serve(ServeJob),
    /// Says what the file of this map stands for.
    Check {
        store: MapName,
    },
    /// Tells the rows of this map.
    Dump {
        store: MapName,
    },
    /// Builds a version of this map from the input, and installs it. `name` is its master, and `flag` is true where the
    /// version is to be secure; without one it is as the version that is shown.
    Build {
        name: Vec<u8>,
        store: MapName,
        flag: Option<bool>,
    },
    /// Makes a version of this map of the rows on the input, and installs it, as `Build` does.
    Load {
        name: Vec<u8>,
        store: MapName,
        flag: Option<bool>,
    },
    /// Fetches a map, and installs it where its order is over the one that is shown, or in any case.
    Xfr(XfrJob),
    /// Fetches a map row by row in datagrams, and installs it as `Xfr` does.
    Walk(WalkJob),
    /// Makes this map, of netgroups by users or by hosts, of the domain's netgroups, and installs it. `name` is its
    /// master.
    Revnet {
        name: Vec<u8>,
        store: MapName,
    },
    /// Asks for each row of a map of `count` sample rows, made of the numbers after `start`, and for all of them.
    Sample {
        start: u32,
        count: u32,
    },
    /// Asks the slaves of a map's domain to fetch it.
    Push(PushJob),
    /// Asks these hosts for a domain from `port`, and answers there which one it is bound to, in so many turns.
    /// `policy` says who may bind it by a call.
    Bind {
        port: u16,
        policy: Policy,
        turns: u64,
        domain: Vec<u8>,
        hosts: Vec<HostWord>,
    },
    /// Answers the calls of the port mapper at `port`, in so many turns.
    Portmap {
        port: u16,
        turns: u64,
    },
    /// Calls the port mapper at `addr`, from `port` and in at most so many turns: for a port, to add a mapping, or to
    /// remove those of a program.
    CallMapper {
        port: u16,
        turns: u64,
        addr: Peer,
        call: PortCall,
    },
    /// Asks the server at `addr` a question.
    Ask {
        addr: Peer,
        question: Question<Vec<u8>>,
    },
    /// Compares the orders that these servers have of the maps of a domain, which the first one names.
    Orders {
        first: Peer,
        others: Vec<Peer>,
        domain: Vec<u8>,
    },
}
