//! The texts that maps are built of, as files of the system.

ghost use Rattle.std.specs.Prelude.{◌≡◌, ◌≤◌, [], length, None, OnOk};
ghost use Rattle.yp_io.specs.Texts.{text_max};

use std::alloc::Global;
use std::fs::File;
use std::io::{ErrorKind, Read};
use std::rt::Files;
use std::{fs, io};
use yp_io::{TEXT_MAX, TextFault, Texts, count_fault};

/// The folder of all texts, in the folder that the program was started in.
const ROOT: &str = "ypsrc";

/// The most bytes of a text's name, which may be that of a map.
const TEXT_NAME_MAX: usize = 64;

/// The files of the folder `ypsrc`, in the folder that the program was started in, as texts, by their names. They tell
/// nothing of their bytes. What isn't a file, as a folder, is no text, and neither is a file over [`TEXT_MAX`] bytes,
/// nor one whose name isn't plain: that is empty or over 64 bytes, begins with a dot, or has a slash or a byte of zero.
#[derive(Drop)]
pub struct TextFolder<R: Files + Drop> {
    alloc: Global,
    files: R,
    faults: u64,
}

impl<R: Files + Drop> TextFolder<R> {
    /// The texts of a system. The names of their files are made in memory of `alloc`.
    pub fn new(alloc: Global, files: R) -> TextFolder<R>
        ensures { ⟦<TextFolder<R> as Texts>⟧.faults result ≡ 0 }
    {
        TextFolder {
            alloc,
            files,
            faults: 0,
        }
    }

    /// How often it has failed.
    pub fn faults(&self) -> u64
        ensures { result ≡ ⟦<TextFolder<R> as Texts>⟧.faults self.now }
    {
        self.faults
    }
}

// Whether a name leads to no other place than a file of the folder. Others would lead out of it, or to hidden files.
fn is_plain(name: &[u8]) -> bool {
    !name.is_empty()
        && name.len() <= TEXT_NAME_MAX
        && name[0] != b'.'
        && !name.iter().any(|byte| *byte == b'/' || *byte == 0)
}

// Puts the bytes of a file into `into`, read in place. After an error some of them may stand there.
fn read_file<R: Files>(files: &R, path: &str, into: &mut Vec<u8>) -> io::Result<()>
    requires { into.old.items ≡ [] }
    ensures { OnOk result (length into.new.items ≤ text_max) }
{
    let found = fs::metadata(files, path)?;
    let most = TEXT_MAX as u64;
    // A pipe isn't opened, since that would wait for its writer.
    if !found.is_file() || found.len() > most {
        return Err(ErrorKind::InvalidInput.into());
    }
    let file = File::open(files, path)?;
    // One byte more, so that the read which finds the end needs no further room.
    into.reserve_exact(found.len() as usize + 1)?;
    file.take(most + 1).read_to_end(into)?;
    if into.len() > TEXT_MAX {
        return Err(ErrorKind::InvalidInput.into());
    }
    Ok(())
}

// The same of the file with this name in the folder.
fn read_named<R: Files>(alloc: Global, files: &R, name: &[u8], into: &mut Vec<u8>) -> io::Result<()>
    requires { into.old.items ≡ [] }
    ensures { OnOk result (length into.new.items ≤ text_max) }
{
    match str::from_utf8(name) {
        Ok(text) if is_plain(name) => {
            let path = format!(in alloc; "{ROOT}/{text}")?;
            read_file(files, &path, into)
        }
        _ => Err(ErrorKind::InvalidInput.into()),
    }
}

impl<R: Files + Drop> Texts for TextFolder<R> {
    ghost text = { λ _ _. None };

    ghost faults = { λ t. t.faults };

    fn read(&mut self, name: &[u8], into: &mut Vec<u8>) -> Result<(), TextFault> {
        match read_named(self.alloc, &self.files, name, into) {
            Ok(()) => Ok(()),
            Err(error) => {
                into.clear();
                match error.kind() {
                    ErrorKind::OutOfMemory => Err(TextFault::NoMemory),
                    _ => Err(count_fault(&mut self.faults).into()),
                }
            }
        }
    }
}
