//! The hosts that words name.

ghost use Rattle.std.specs.Prelude.{◌≡◌, map, IfOk};
ghost use Rattle.yp_command.specs.Words.{host_view};

use crate::HostWord;
use std::alloc::Global;
use yp_io::NoMemory;
use yp_transfer::Hosts;

/// A table of the hosts that words name.
pub fn table_of(alloc: Global, words: Vec<HostWord>) -> Result<Hosts, NoMemory>
    ensures { IfOk result (λ hosts. hosts ≡ map host_view words.items) }
{
    let mut hosts = Hosts::new(alloc);
    for word in words {
        hosts.add(word.name, word.peer)?;
    }
    Ok(hosts)
}
