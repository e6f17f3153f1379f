//! What a file looks like that is no sound property list, in words.

ghost use Rattle.std.specs.Prelude.{◌⊎◌, ℕ, Err, List, Ok};
ghost use Rattle.bplist_c.specs.Prelude.{Memory, PutsItems};

use crate::status::{Status, put_all};
use bplist_hints::hint_of;
use bplist_octets::SliceSource;
use std::alloc::{AllocError, Global};

fn words_for(alloc: Global, file: &[u8]) -> Result<String, AllocError> {
    // No read of a slice fails.
    match hint_of(&mut SliceSource::new(file)) {
        Ok(Some(hint)) => hint.words(alloc),
        _ => Ok(String::new(alloc)),
    }
}

/// Writes what a file looks like that is no sound property list, in words. If that is not known, there are none.
#[unsafe(no_mangle)]
pub extern "C" fn bplist_looks_like(
    alloc: Global,
    file: &[u8],
    words: &mut [u8],
    count: &mut u64,
) -> u32
    ensures { (found : List ℕ) × (PutsItems (Ok found) words.old words.new count.old count.new result
        ⊎ PutsItems (Err Memory) words.old words.new count.old count.new result) }
{
    match words_for(alloc, file) {
        Ok(text) => put_all(text.as_bytes(), words, count),
        Err(_) => Status::Memory.number(),
    }
}
