//! A writer and a reader of a board, in two threads.

ghost use Rattle.std.specs.Prelude.{◌≡◌};
ghost use Rattle.yp_board.specs.Views.{Refreshes};

use crate::readers::Naming;
use crate::readers::reader::Reader;
use crate::readers::writer::Writer;
use crate::{Show, View};
use std::sync::{Arc, Mutex, Wait};
use std::thread::{Threads, join};
use yp_version::Version;

/// Shows a version in one thread, and makes a read step in another. It says whether the version was shown.
pub fn show_beside<J, R, T: Threads + Wait + Sync>(
    rt: &T,
    writer: &Mutex<Writer<J, R>>,
    map: u32,
    version: Arc<Version>,
    reader: Reader<J>,
) -> (bool, Reader<J>)
where
    J: Naming + Send + Sync,
    R: Wait + Drop + Send,
    ensures read { Refreshes reader result.1 }
{
    join(
        rt,
        || shown(rt, writer, map, version),
        || -> Reader<J>
            ensures { Refreshes reader result }
        { refreshed(reader) },
    )
}

/// Shows a version, where there is such a map, and says whether it did.
fn shown<J: Naming, R: Wait + Drop>(
    rt: &impl Wait,
    writer: &Mutex<Writer<J, R>>,
    map: u32,
    version: Arc<Version>,
) -> bool {
    let mut writer = writer.lock(rt);
    (map as usize) < writer.maps() && writer.show(map, version).is_ok()
}

/// Makes a read step.
fn refreshed<J: Naming>(mut reader: Reader<J>) -> Reader<J>
    ensures { Refreshes reader result }
{
    reader.refresh();
    reader
}
