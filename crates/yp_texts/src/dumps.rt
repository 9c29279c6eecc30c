//! A version's rows as a text from which they are read again.

ghost use Rattle.std.specs.Prelude.{◌≡◌, ◌⊎◌, ◌++◌, [], ◌∷◌, true, false, None, Some, IfOk, IfErr, OnOk};
ghost use Rattle.yp_texts.specs.Dumps.{dump_line, dump_text, is_fit_key, is_fit_value, first_unfit};

use std::alloc::{AllocError, Global};
use yp_version::{Version, is_blank};

/// Why rows make no text from which they are read again: the first of them that doesn't fit a line, counted from 1.
#[derive(Clone, Copy, Debug, PartialEq, Eq)]
pub enum DumpFault {
    /// The key of this row has a blank or a line feed.
    KeyUnfit { row: u32 },

    /// The value of this row has a line feed.
    ValueUnfit { row: u32 },

    /// Memory ran out.
    NoMemory,
}

impl From<AllocError> for DumpFault {
    ghost use Rattle.std.specs.Prelude.{◌≡◌};
    ghost use Rattle.yp_texts.specs.declared.dumps.DumpFault.TheVariants.{NoMemory as WithoutMemory};

    ghost from_gives = { λ _ fault. fault ≡ WithoutMemory };

    fn from(_: AllocError) -> Self {
        DumpFault::NoMemory
    }
}

/// Whether a key has no blank and no line feed.
fn is_fit_key(key: &[u8]) -> bool
    ensures { result ≡ is_fit_key key.now }
{
    !key.iter().any(|byte| is_blank(*byte)) && !key.iter().any(|byte| *byte == b'\n')
}

/// Whether a value has no line feed.
fn is_fit_value(value: &[u8]) -> bool
    ensures { result ≡ is_fit_value value.now }
{
    !value.iter().any(|byte| *byte == b'\n')
}

/// Adds the line of a row.
fn put_line(text: &mut Vec<u8>, key: &[u8], value: &[u8]) -> Result<(), AllocError>
    ensures { OnOk result (text.new.items ≡ text.old.items ++ dump_line (key.now, value.now)) }
{
    text.extend_from_slice(key)?;
    text.push(b'\t')?;
    text.extend_from_slice(value)?;
    text.push(b'\n')?;
    Ok(())
}

/// The text of a version's rows, a line each: the key, a tab and the value.
pub fn dump(alloc: Global, version: &Version) -> Result<Vec<u8>, DumpFault>
    // All rows fit, and are told in their order.
    ensures fits { IfOk result (λ _. first_unfit 1 version.now.rows ≡ None) }
    ensures text { IfOk result (λ text. text.items ≡ dump_text version.now.rows) }

    // The first row that doesn't fit, or memory ran out.
    ensures cause { IfErr result (λ fault.
        (fault ≡ DumpFault.NoMemory) ⊎ (first_unfit 1 version.now.rows ≡ Some fault)) }
{
    let mut text = Vec::new(alloc);
    for i in 0..version.len() {
        let Some((key, value)) = version.row(i) else {
            unreachable!()
        };
        let row = i as u32 + 1;
        if !is_fit_key(key) {
            return Err(DumpFault::KeyUnfit { row });
        }
        if !is_fit_value(value) {
            return Err(DumpFault::ValueUnfit { row });
        }
        put_line(&mut text, key, value)?;
    }
    Ok(text)
}
