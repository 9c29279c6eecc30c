//! The real outside of the program: standard streams, files, the clock, connections over TCP, dialed and accepted,
//! also many of them that are never waited for, datagrams at a port, and texts in a folder.
//!
//! Each is proved to keep the trait of `yp_io` that it stands for. Which bytes the system gives them no
//! contract says, so they are done with care: a failed sync is never trusted again, a file has one writer, and each
//! wire that is dialed or accepted has a limit of time. Nor does one say that a watch tells of every connection that
//! may go on: that is tested.
#![tactic(auto)]

mod addresses;
mod caller;
mod calls;
mod chain;
mod clock;
mod datagrams;
mod dial;
mod disk;
mod epoll;
mod hall;
mod inbox;
mod locked;
mod patient;
mod places;
mod post;
mod reserved;
mod socket;
mod streams;
mod texts;
mod watch;
mod words;

pub use caller::CALL_MAX;
pub use calls::CALLERS_MAX;
pub use clock::SystemClock;
pub use dial::{LocalPorts, TcpDial, TcpWire};
pub use disk::{FileDisk, Locking};
pub use hall::{PAYMENT_SECONDS, RECORD_SECONDS, REST_SECONDS, SocketCall, TcpCloser, TcpHall};
pub use inbox::UdpInbox;
pub use locked::MapFile;
pub use patient::Patient;
pub use places::Limits;
pub use post::TURN_SECONDS;
pub use socket::{SocketSink, SocketSource};
pub use streams::{BlockReader, DirectWriter, StandardStream};
pub use texts::TextFolder;
pub use watch::TcpWatch;
pub use words::{WORD_MAX, read_words};
