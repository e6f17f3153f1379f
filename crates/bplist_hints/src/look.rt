//! Reads the beginning and the end of a file, and finds what it looks like.

ghost use Rattle.std.specs.Prelude.{◌+◌, ◌≤◌, IfOk, length};
ghost use Rattle.std.specs.Result.{result_err};
ghost use Rattle.bplist_octets.specs.Meaning.{OnlyReads};

use crate::damage::{Sample, damage_of};
use crate::ending::TRAILER;
use crate::form::form_of;
use crate::hint::{Damage, Form, Hint};
use bplist_objects::{ObjectFault, trailer_of};
use bplist_octets::{ReadFault, Source};

/// The number of bytes that are read at the beginning and at the end.
pub(crate) const SAMPLE: usize = 4096;

/// The largest file that is looked at: rule 1 refuses a larger one.
const LARGEST: u64 = 4_294_967_295;

/// The number of zeros at the end of a file that are looked at.
const MOST_ZEROS: u64 = 1 << 20;

/// The shortest file that has a header and a trailer.
const SHORTEST: u64 = 40;

/// Returns what a file looks like that is not a sound binary property list. Returns `None` if that is not known, and
/// for each file whose header, trailer and offset table keep rules 1 to 12.
///
/// The call reads the first 4,096 bytes and the last 4,096. Where the last ones are zeros alone, it reads back to the
/// next byte that is not zero, but at most 1 MiB. Of a file that rule 1 refuses it reads nothing.
pub fn hint_of<S: Source>(src: &mut S) -> Result<Option<Hint>, ReadFault>
    ensures reads { OnlyReads (result_err result) (S.means src.old) (S.means src.new) }
{
    if src.len() > LARGEST {
        return Ok(None);
    }
    let mut octets = [0u8; SAMPLE];
    let front = &mut octets[..src.len().min(SAMPLE as u64) as usize];
    src.read_at(0, front)?;
    if front.starts_with(b"bplist00") {
        return damage_in(src, front);
    }
    if front.iter().all(|octet| *octet == 0) {
        return zeros_in(src);
    }
    Ok(form_of(front, src.len() <= SAMPLE as u64))
}

/// The file begins with zeros, or is empty.
fn zeros_in<S: Source>(src: &mut S) -> Result<Option<Hint>, ReadFault>
    ensures reads { OnlyReads (result_err result) (S.means src.old) (S.means src.new) }
{
    if src.len() == 0 {
        return Ok(Some(Hint::Form(Form::Empty)));
    }
    let zeros = zeros_at_end(src)?;
    Ok(if zeros == src.len() {
        Some(Hint::Form(Form::Zeros))
    } else if zeros == MOST_ZEROS {
        Some(Hint::Form(Form::ZeroEnds))
    } else {
        None
    })
}

/// The file begins with `bplist00`.
fn damage_in<S: Source>(src: &mut S, front: &[u8]) -> Result<Option<Hint>, ReadFault>
    ensures reads { OnlyReads (result_err result) (S.means src.old) (S.means src.new) }
{
    match trailer_of(src) {
        Ok(_) => return Ok(None),
        Err(ObjectFault::Read(fault)) => return Err(fault),
        Err(ObjectFault::Fault(_)) => {}
    }
    if src.len() < SHORTEST {
        return Ok(Some(Hint::Damage(Damage::CutShort)));
    }
    sampled(src, front)
}

fn sampled<S: Source>(src: &mut S, front: &[u8]) -> Result<Option<Hint>, ReadFault>
    requires { 40 ≤ length (S.means src.old).octets }
    ensures reads { OnlyReads (result_err result) (S.means src.old) (S.means src.new) }
{
    let length = src.len();
    let zeros = zeros_at_end(src)?;
    if zeros == MOST_ZEROS {
        return Ok(Some(Hint::Damage(Damage::ManyZeros)));
    }
    let end = tail_end(length, zeros);
    let mut octets = [0u8; SAMPLE];
    let tail = &mut octets[..end.min(SAMPLE as u64) as usize];
    let start = end - tail.len() as u64;
    src.read_at(start, tail)?;
    let damage = damage_of(&Sample {
        total: length,
        zeros,
        front,
        tail,
        start,
    });
    Ok(damage.map(Hint::Damage))
}

/// The last `zeros` bytes of the file are zero.
fn tail_end(length: u64, zeros: u64) -> u64
    requires long { 40 ≤ length }
    requires within { zeros ≤ length }
    ensures long { 32 ≤ result }
    ensures within { result ≤ length }
{
    if zeros < TRAILER as u64 {
        return length;
    }
    // A trailer ends with the place of the offset table, of which seven bytes may be zero.
    (length - zeros + 8).max(TRAILER as u64)
}

/// Returns at most [`MOST_ZEROS`].
fn zeros_at_end<S: Source>(src: &mut S) -> Result<u64, ReadFault>
    ensures reads { OnlyReads (result_err result) (S.means src.old) (S.means src.new) }
    ensures within { IfOk result (λ zeros. zeros ≤ length (S.means src.old).octets) }
{
    let length = src.len();
    let stop = length - length.min(MOST_ZEROS);
    let mut end = length;
    let mut octets = [0u8; SAMPLE];
    while end > stop {
        let block = &mut octets[..(end - stop).min(SAMPLE as u64) as usize];
        let start = end - block.len() as u64;
        src.read_at(start, block)?;
        if let Some(last) = block.iter().rposition(|octet| *octet != 0) {
            return Ok(length - start - last as u64 - 1);
        }
        end = start;
    }
    Ok(length - stop)
}
