//! What is offered to a publisher, and why it isn't installed.

ghost use Rattle.std.specs.Prelude.{◌≡◌, ◌⊎◌, ◌≤◌, ℕ, OnOk, IfErr, Some, None};
ghost use Rattle.yp_version.specs.inside.Bodies.{IsBody};

use std::alloc::AllocError;
use yp_io::{Failed, NoMemory};
use yp_version::Order;

/// Where an offered version comes from.
#[derive(Clone, Copy, Debug, PartialEq, Eq)]
pub enum Origin {
    /// It was built on this host.
    Built,
    /// It was fetched from another server.
    Fetched,
}

/// What was installed.
#[derive(Clone, Copy, Debug, PartialEq, Eq)]
pub struct Installed {
    /// The order of the version.
    pub order: Order,
    /// The generation of its file.
    pub generation: u64,
}

/// Why a version wasn't installed. All but the last two come before the disk is called, the first that applies.
#[derive(Debug, PartialEq, Eq, Drop)]
pub enum InstallFault {
    /// An install of this map failed, and the map wasn't opened again since.
    Behind,

    /// A version with this master is shown. A map whose master is the own name is built and never fetched, and any
    /// other one is fetched and never built.
    Refused { master: Vec<u8> },

    /// The order isn't over the one that is shown.
    Age { shown: u32, offered: u32 },

    /// The file has the last generation.
    GenerationsSpent,

    /// The disk failed.
    DiskFault,

    /// Memory ran out.
    NoMemory,
}

impl From<NoMemory> for InstallFault {
    ghost use Rattle.std.specs.Prelude.{◌≡◌};
    ghost use Rattle.yp_publisher.specs.declared.install.InstallFault.TheVariants.{NoMemory};

    ghost from_gives = { λ _ fault. fault ≡ NoMemory };

    fn from(_: yp_io::NoMemory) -> Self {
        InstallFault::NoMemory
    }
}
