//! The JSON lines of `lint` and of a listing. The crate `serde_json` writes each. Tests show that the lines say what
//! the files hold; no proof does.

mod finding_lines;
pub(crate) mod rows;

use bplint_lines::is_unshown;
use serde::Serialize;
use std::alloc::{AllocError, Global};

/// A character that a line may not show is `\u` and four digits. The only error is refused memory, since each key is a
/// text.
fn json_of<T: Serialize>(alloc: Global, value: &T) -> Result<Vec<u8>, AllocError> {
    let json = serde_json::to_vec(alloc, value).map_err(|_| AllocError)?;
    if json.iter().all(|octet| *octet < 0x7F) {
        return Ok(json);
    }
    match std::str::from_utf8(&json) {
        Ok(text) => escaped(alloc, text),
        Err(_) => Err(AllocError),
    }
}

/// Characters that a line may not show stand between quotes.
fn escaped(alloc: Global, json: &str) -> Result<Vec<u8>, AllocError> {
    let mut text = String::new(alloc);
    for c in json.chars() {
        match u16::try_from(c as u32) {
            Ok(unit) if is_unshown(unit) => write!(text, "\\u{unit:04x}")?,
            _ => text.push(c)?,
        }
    }
    Ok(text.into_bytes())
}
