//! How a file was damaged that begins with `bplist00` and breaks a rule of the frame.

ghost use Rattle.std.specs.Prelude.{◌+◌, ◌≤◌, length};

use crate::ending::{Ending, TRAILER, trailer_in};
use crate::hint::Damage;
use bplist_octets::first_high;

/// The beginning and the end of a file, and what is known of all of it.
#[derive(Clone, Copy, Drop)]
pub(crate) struct Sample<'a> {
    /// The length of the file.
    pub(crate) total: u64,
    /// The number of zeros at the end.
    pub(crate) zeros: u64,
    /// The first bytes.
    pub(crate) front: &'a [u8],
    /// The last bytes. If the file ends with 32 zeros or more, the bytes up to the eighth of these.
    pub(crate) tail: &'a [u8],
    /// The place of the tail.
    pub(crate) start: u64,
    ghost long: { 32 ≤ length tail.now },
    ghost inside: { start + length tail.now ≤ total },
}

pub(crate) fn damage_of(sample: &Sample) -> Option<Damage> {
    if let Some(trailer) = trailer_in(sample.tail, sample.start) {
        return behind_trailer(sample, trailer);
    }
    if sample.zeros >= TRAILER as u64 {
        return Some(Damage::ZerosInstead {
            zeros: sample.zeros,
        });
    }
    if is_utf8(sample) {
        return Some(Damage::Utf8);
    }
    if has_new_line_ends(sample) {
        return Some(Damage::LineEnds);
    }
    let last = &sample.tail[sample.tail.len() - TRAILER..];
    damage_by(&Ending::of(last), sample.total)
}

/// If nothing stands behind the trailer, the damage is not known.
fn behind_trailer(sample: &Sample, trailer: u64) -> Option<Damage>
    requires { trailer + 32 ≤ sample.now.total }
{
    let extra = sample.total - trailer - TRAILER as u64;
    if extra == 0 {
        return None;
    }
    Some(if extra <= sample.zeros {
        Damage::ZerosBehind {
            zeros: extra,
            trailer,
        }
    } else {
        Damage::TooMany { extra, trailer }
    })
}

/// True if in front and tail each line feed stands behind a carriage return, and the trailer without these carriage
/// returns is that of a shorter file, which has at least half the length.
fn has_new_line_ends(sample: &Sample) -> bool {
    let (front, tail) = (sample.front, sample.tail);
    if has_bare_feed(front) || has_bare_feed(tail) || !(has_pair(front) || has_pair(tail)) {
        return false;
    }
    let ending = Ending::of(&trailer_before(tail));
    let length = ending.table_end() + TRAILER as u128;
    ending.has_numbers()
        && length < u128::from(sample.total)
        && u128::from(sample.total) <= 2 * length
}

fn has_bare_feed(octets: &[u8]) -> bool {
    octets
        .windows(2)
        .any(|pair| pair[0] != b'\r' && pair[1] == b'\n')
}

fn has_pair(octets: &[u8]) -> bool {
    octets.windows(2).any(|pair| pair == b"\r\n".as_slice())
}

/// Returns the last 32 bytes as they were before each line feed got a carriage return.
fn trailer_before(tail: &[u8]) -> [u8; TRAILER] {
    let mut octets = [0u8; TRAILER];
    let mut left = TRAILER;
    let mut behind = 0;
    for octet in tail.iter().rev() {
        if left > 0 && !(*octet == b'\r' && behind == b'\n') {
            left -= 1;
            octets[left] = *octet;
        }
        behind = *octet;
    }
    octets
}

/// True if beginning and end of the file are UTF-8, and have characters of more than one byte.
fn is_utf8(sample: &Sample) -> bool {
    let front_is_text = match str::from_utf8(sample.front) {
        Ok(_) => true,
        // A character that the front cuts has no error length.
        Err(error) => error.error_len().is_none(),
    };
    front_is_text
        && str::from_utf8(behind_cut(sample.tail)).is_ok()
        && (first_high(sample.front).is_some() || first_high(sample.tail).is_some())
}

/// Returns the bytes without the rest of a character at their beginning.
fn behind_cut(tail: &[u8]) -> &[u8] {
    match tail
        .iter()
        .position(|octet| *octet < 0x80 || *octet >= 0xc0)
    {
        Some(at) if at < 4 => &tail[at..],
        _ => tail,
    }
}

/// If the last 32 bytes are a trailer whose offset table ends where the trailer begins, the damage is not known.
fn damage_by(ending: &Ending, length: u64) -> Option<Damage> {
    let (table, room) = (ending.table_bytes(), ending.room(length));
    if !ending.has_form() {
        return Some(Damage::CutShort);
    }
    if u128::from(room) < table {
        return Some(Damage::TableCut { table, room });
    }
    if ending.has_numbers() && table < u128::from(room) {
        let extra = u128::from(room) - table;
        return Some(Damage::TableShort { extra });
    }
    None
}
