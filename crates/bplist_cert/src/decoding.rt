//! Reads a certificate from bytes, block by block.

ghost use Rattle.std.specs.Prelude.{◌≡◌, ◌≢◌, ◌+◌, ◌*◌, ◌≤◌, Bool, length, take, IfOk, MatchOption, MatchResult, ◌↔◌};
ghost use Rattle.std.specs.Prelude.{IsTrue, ⊤, ◌++◌, drop, min, true, OnOk, []};
ghost use Rattle.bplist_cert.specs.Prelude.{part, OnlyReads, Honestly, Gives, Never, read_failed, failed_to_read};
ghost use Rattle.bplist_cert.specs.Prelude.{Lists, IsCertificate, AreWords, octets_of, magic, bytes_high_first, words};
ghost use Rattle.bplist_cert.specs.Prelude.{Fits, IsOctetsFault, IsCertRefusal, CertMemory as Memory, Judges};
ghost use Rattle.bplist_cert.specs.Prelude.{refused_read, is_keyed, header_octets};

use crate::certificate::{CertRefusal, Certificate, KEYED_MAGIC, KeyLists, PLAIN_MAGIC, are_words};
use crate::refusal::Refusal;
use bplist_objects::{Failure, Fault, ObjectFault, Rule};
use bplist_octets::{SliceSource, Source, sized};
use std::alloc::Global;

/// The most bytes that are read at once.
const BLOCK_BYTES: usize = 16_384;

/// The most numbers that are read at once.
const BLOCK: usize = BLOCK_BYTES / 4;

/// The version of a certificate.
#[derive(Clone, Copy, Drop)]
pub(crate) enum Version {
    /// Version 1: heights only.
    Plain,
    /// Version 2: heights and key lists.
    Keyed,
}

/// The first 16 bytes of a certificate.
#[derive(Clone, Copy, Drop)]
pub(crate) struct Header {
    /// From the magic, bytes 0 to 7.
    pub version: Version,
    /// The number of heights, from bytes 8 to 15.
    pub count: usize,
}

impl Certificate {
    /// Reads the certificate whose bytes the source gives. Each byte is read once, forward, in blocks of at most 16,384
    /// bytes.
    ///
    /// Errors: `Fault` of rule 24 at place 0 if the bytes do not begin with a magic; `Fault` of rule 25 if their number
    /// does not fit the number of heights, with that number of bytes as its place; `Memory` if an allocation was
    /// refused; `Read` if a read failed.
    pub fn from_source<S: Source>(alloc: Global, src: &mut S) -> Result<Certificate, Refusal>
        ensures reads { OnlyReads (refused_read result) (S.means src.old) (S.means src.new) }
        ensures asks { S.asked src.new ≤ S.asked src.old + length (S.means src.old).octets }
        ensures yes { Honestly (S.means src.old)
            (λ f. IfOk result (λ certificate. IsCertificate certificate × (f ≡ octets_of certificate))) }
        ensures exact { Honestly (S.means src.old) (λ f. (certificate : Lists) → IsCertificate certificate
            → f ≡ octets_of certificate → Judges (λ other. other ≡ certificate) Never result) }
        ensures refused { Honestly (S.means src.old) (λ f. Judges (λ _. ⊤) (IsOctetsFault f) result) }
    {
        let header = header_of(src)?;
        let heights = read_words(alloc, src, 16, header.count)?;
        match header.version {
            Version::Plain => Ok(Certificate {
                heights,
                keys: None,
            }),
            Version::Keyed => {
                let keys = read_key_lists(alloc, src, header.count)?;
                Ok(Certificate {
                    heights,
                    keys: Some(keys),
                })
            }
        }
    }

    /// Returns the certificate that these bytes spell. Errors are those of `from_source`, without `Read`.
    pub fn from_octets(alloc: Global, octets: &[u8]) -> Result<Certificate, CertRefusal>
        ensures yes { IfOk result (λ certificate. IsCertificate certificate × (octets.now ≡ octets_of certificate)) }
        ensures exact { (certificate : Lists) → IsCertificate certificate → octets.now ≡ octets_of certificate
            → MatchResult result (λ other. other ≡ certificate) (λ refusal. refusal ≡ Memory) }
        ensures refused { MatchResult result (λ _. ⊤) (IsCertRefusal octets.now) }
    {
        match Certificate::from_source(alloc, &mut SliceSource::new(octets)) {
            Ok(certificate) => Ok(certificate),
            Err(Refusal::Fault(fault)) => Err(CertRefusal::Fault(fault)),
            // No read of a slice fails, so what is left is refused memory.
            Err(Refusal::Read(_) | Refusal::Memory) => Err(CertRefusal::Memory),
        }
    }
}

/// Checks rules 24 and 25.
fn header_of<S: Source>(src: &mut S) -> Result<Header, ObjectFault>
    ensures reads { OnlyReads (read_failed result) (S.means src.old) (S.means src.new) }
    ensures asks { S.asked src.new ≤ S.asked src.old + min 16 (length (S.means src.old).octets) }
    ensures fits { IfOk result (λ header. Fits (is_keyed header.version) header.count (length (S.means src.old).octets)) }
    ensures exact { Honestly (S.means src.old) (λ f. Gives (λ header. take 16 f ≡ header_octets header) (IsOctetsFault f) result) }
{
    let len = src.len();
    let mut octets = [0u8; 16];
    let front = &mut octets[..len.min(16) as usize];
    src.read_at(0, front)?;
    let Some(version) = version_of(front) else {
        return Err(ObjectFault::Fault(Fault {
            rule: Rule::CertMagic,
            object: None,
            place: 0,
        }));
    };
    if front.len() >= 16 {
        let count = count_in(front);
        if fits(version, count, len) {
            return Ok(Header {
                version,
                count: count as usize,
            });
        }
    }
    Err(ObjectFault::Fault(Fault {
        rule: Rule::CertLength,
        object: None,
        place: len,
    }))
}

fn count_in(header: &[u8]) -> u64
    requires { 16 ≤ length header.now }
    ensures { part header.now 8 8 ≡ bytes_high_first 8 result }
{
    sized(&header[8..16])
}

fn version_of(octets: &[u8]) -> Option<Version>
    ensures { MatchOption result ((keyed : Bool) → take 8 octets.now ≢ magic keyed)
        (λ version. take 8 octets.now ≡ magic (is_keyed version)) }
{
    if octets.starts_with(&PLAIN_MAGIC) {
        return Some(Version::Plain);
    }
    if octets.starts_with(&KEYED_MAGIC) {
        return Some(Version::Keyed);
    }
    None
}

fn fits(version: Version, count: u64, len: u64) -> bool
    ensures { IsTrue result ↔ Fits (is_keyed version) count len }
{
    match version {
        Version::Plain => len as u128 == 16 + 4 * count as u128,
        Version::Keyed => len as u128 >= 16 + 8 * count as u128 && len % 4 == 0,
    }
}

fn read_key_lists<S: Source>(alloc: Global, src: &mut S, count: usize) -> Result<KeyLists, Failure>
    requires { Fits true count (length (S.means src.old).octets) }
    ensures reads { OnlyReads (failed_to_read result) (S.means src.old) (S.means src.new) }
    ensures asks { S.asked src.new + (16 + 4 * count) ≤ S.asked src.old + length (S.means src.old).octets }
    ensures count { IfOk result (λ keys. length keys.starts ≡ count) }
    ensures words { IfOk result (λ keys. AreWords keys.starts × AreWords keys.positions) }
    ensures spelled { Honestly (S.means src.old) (λ f. IfOk result (λ keys.
        drop (16 + 4 * count) f ≡ words keys.starts ++ words keys.positions)) }
{
    let len = src.len();
    let starts_at = 16 + 4 * count as u64;
    let positions_at = starts_at + 4 * count as u64;
    let positions = ((len - positions_at) / 4) as usize;
    let starts = read_words(alloc, src, starts_at, count)?;
    let positions = read_words(alloc, src, positions_at, positions)?;
    Ok(KeyLists { starts, positions })
}

fn read_words<S: Source>(
    alloc: Global,
    src: &mut S,
    place: u64,
    count: usize,
) -> Result<Vec<u32>, Failure>
    requires { place + 4 * count ≤ length (S.means src.old).octets }
    ensures reads { OnlyReads (failed_to_read result) (S.means src.old) (S.means src.new) }
    ensures asks { S.asked src.new ≤ S.asked src.old + 4 * count }
    ensures count { IfOk result (λ numbers. length numbers.items ≡ count) }
    ensures words { IfOk result (λ numbers. AreWords numbers.items) }
    ensures spelled { Honestly (S.means src.old) (λ f. IfOk result (λ numbers. part f place (4 * count) ≡ words numbers.items)) }
{
    let mut numbers = Vec::with_capacity(alloc, count)?;
    fill_words(src, place, count, &mut numbers)?;
    are_words(&numbers);
    Ok(numbers)
}

fn fill_words<S: Source>(
    src: &mut S,
    place: u64,
    count: usize,
    numbers: &mut Vec<u32>,
) -> Result<(), Failure>
    requires within { place + 4 * count ≤ length (S.means src.old).octets }
    requires empty { numbers.old.items ≡ [] }
    ensures reads { OnlyReads (failed_to_read result) (S.means src.old) (S.means src.new) }
    ensures asks { S.asked src.new ≤ S.asked src.old + 4 * count }
    ensures count { OnOk result (length numbers.new.items ≡ count) }
    ensures spelled { Honestly (S.means src.old) (λ f. OnOk result (part f place (4 * count) ≡ words numbers.new.items)) }
{
    let _len = src.len();
    let mut octets = [0u8; BLOCK_BYTES];
    let mut block = [0u32; BLOCK];
    while numbers.len() < count {
        let now = (count - numbers.len()).min(BLOCK);
        let at = place + 4 * numbers.len() as u64;
        let read = &mut octets[..4 * now];
        let spelled = &mut block[..now];
        src.read_at(at, read)?;
        spell_words(read, spelled);
        numbers.extend_from_slice(spelled)?;
    }
    Ok(())
}

/// The loop does nothing else than decode, so that the compiler can vectorize it.
fn spell_words(octets: &[u8], into: &mut [u32])
    requires { length octets.now ≡ 4 * length into.old }
    ensures { octets.now ≡ words into.new }
{
    for k in 0..into.len() {
        into[k] = sized(&octets[4 * k..4 * k + 4]) as u32;
    }
}
