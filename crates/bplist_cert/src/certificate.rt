//! The certificate and its bytes. A certificate gives a height to each object. In version 2 it also has the sorted key
//! lists of dictionaries. Here are its parts, why bytes are not accepted as a certificate, and the writing of the
//! bytes; `decoding` reads them.

ghost use Rattle.bplist_cert.specs.declared.certificate.CertRefusal.TheVariants.{Memory, Fault as is_fault};
ghost use Rattle.std.specs.Prelude.{◌≡◌, IfErr, IfOk, MatchResult, OnOk, Some, is_some};
ghost use Rattle.std.specs.Io.KnownBytes.{Appends};
ghost use Rattle.bplist_objects.specs.FaultLines.{fault_line, memory_line};
ghost use Rattle.bplist_cert.specs.Prelude.{IsCertificate, AreWords, octets_of, key_words, words, magic};
ghost use Rattle.bplist_cert.specs.Prelude.{SendsPart, Takes, TakesPart};

use bplist_objects::Fault;
use bplist_octets::{Sink, WriteFault};
use byteorder::{BigEndian, ByteOrder};
use std::alloc::{AllocError, Global};
use std::error::Error;
use std::fmt;
use std::io::Write;
use std::marker::Model;

/// The first 8 bytes of a version 1 certificate.
pub(crate) const PLAIN_MAGIC: [u8; 8] = *b"bplcert1";

/// The first 8 bytes of a version 2 certificate.
pub(crate) const KEYED_MAGIC: [u8; 8] = *b"bplcert2";

/// The most numbers that are encoded at once.
const BLOCK: usize = 4096;

/// The sorted keys of dictionaries. The key list of dictionary `n`, with `c` pairs, is
/// `positions[starts[n] .. starts[n] + c]`.
#[derive(Drop)]
pub struct KeyLists {
    /// For each object, the index in `positions` at which its key list starts. Ignored for an object that is not
    /// vouched for or is not a dictionary.
    pub starts: Vec<u32>,
    /// The key lists. A position is the number of a key in its dictionary, counted from 0 in written order. A list
    /// names the keys in the order of their units.
    pub positions: Vec<u32>,
}

impl Model for KeyLists {
    ghost use Rattle.bplist_cert.specs.Lists.{Keyed};

    ghost Value = { Keyed };

    ghost view = { λ k. record { starts = k.starts.items; positions = k.positions.items } };
}

/// A certificate of a file. Version 1 has heights only. Version 2 also has key lists, with one start for each height.
#[derive(Drop)]
pub struct Certificate {
    /// The height of each object, or 0 for an object that is not vouched for.
    pub heights: Vec<u32>,
    /// The key lists: `Some` in version 2, `None` in version 1.
    pub keys: Option<KeyLists>,
}

impl Model for Certificate {
    ghost use Rattle.bplist_cert.specs.Lists.{Lists, HasStarts};

    ghost Value = { Lists };

    ghost view = { λ c. record { heights = c.heights.items; keys = c.keys } };

    ghost invariant = { λ c. HasStarts c.heights.items c.keys };
}

impl Certificate {
    /// Returns the bytes of the certificate: the magic of its version, the number of heights in 8 bytes, the heights,
    /// and in version 2 the starts and the positions. Heights, starts and positions take 4 bytes each. All numbers are
    /// big-endian. Returns `AllocError` if an allocation was refused, and no other error.
    pub fn to_octets(&self, alloc: Global) -> Result<Vec<u8>, AllocError>
        ensures { IfOk result (λ octets. IsCertificate self.now × (octets.items ≡ octets_of self.now)) }
    {
        let mut octets = Vec::with_capacity(alloc, self.octet_count())?;
        self.write_to(&mut octets).map_err(|_| AllocError)?;
        Ok(octets)
    }

    /// Writes the bytes of [`Certificate::to_octets`], a block at a time, so that nothing is allocated. The error says
    /// how many of them were written.
    pub fn write_to<W: Write>(&self, out: &mut W) -> Result<(), WriteFault>
        ensures words { IsCertificate self.now }
        ensures sent { MatchResult result
            (λ _. Appends (W.contents out.old) (W.contents out.new) (octets_of self.now))
            (λ fault. SendsPart (W.contents out.old) (W.contents out.new) 0 (octets_of self.now) fault.sent) }
    {
        self.has_words();
        let count = self.heights.len() as u64;
        let mut sink = Sink::new();
        sink.put(out, &magic_of(&self.keys))?;
        sink.put(out, &count.to_be_bytes())?;
        put_words(&mut sink, out, &self.heights)?;
        put_keys(&mut sink, out, &self.keys)?;
        sink.flush(out)
    }

    /// Carries to the contract that the numbers of the certificate have 32 bits each.
    fn has_words(&self)
        ensures { IsCertificate self.now }
    {
        are_words(&self.heights);
        if let Some(keys) = &self.keys {
            are_words(&keys.starts);
            are_words(&keys.positions);
        }
    }

    /// The number is only for reserving memory. Nothing depends on it.
    fn octet_count(&self) -> usize {
        let words = match &self.keys {
            None => self.heights.len(),
            Some(keys) => {
                let starts = self.heights.len().saturating_add(keys.starts.len());
                starts.saturating_add(keys.positions.len())
            }
        };
        words.saturating_mul(4).saturating_add(16)
    }
}

/// Why bytes are not accepted as a certificate.
#[derive(Clone, Copy, Debug, PartialEq, Eq, Drop)]
pub enum CertRefusal {
    /// Rule 24 or 25 is broken. The place counts from the certificate's first byte.
    Fault(Fault),
    /// An allocation was refused. The bytes may still be a certificate.
    Memory,
}

impl fmt::Display for CertRefusal {
    ghost output = { λ refusal.
        Some (elim refusal [ is_fault fault ↦ fault_line fault | Memory ↦ memory_line ]) };

    fn fmt<W: fmt::Write>(&self, f: &mut fmt::Formatter<W>) -> fmt::Result {
        match self {
            CertRefusal::Fault(fault) => write!(f, "{fault}"),
            CertRefusal::Memory => f.write_str("memory"),
        }
    }
}

impl Error for CertRefusal {}

impl From<Fault> for CertRefusal {
    ghost from_gives = { λ fault e. e ≡ is_fault fault };

    fn from(fault: Fault) -> CertRefusal {
        CertRefusal::Fault(fault)
    }
}

impl From<AllocError> for CertRefusal {
    ghost from_gives = { λ _ e. e ≡ Memory };

    fn from(_error: AllocError) -> CertRefusal {
        CertRefusal::Memory
    }
}

fn magic_of(keys: &Option<KeyLists>) -> [u8; 8]
    ensures { result ≡ magic (is_some keys.now) }
{
    match keys {
        None => PLAIN_MAGIC,
        Some(_) => KEYED_MAGIC,
    }
}

/// Carries to the contract that these numbers have 32 bits each.
pub(crate) fn are_words(numbers: &[u32])
    ensures { AreWords numbers.now }
{
    let _count = numbers.len();
}

fn put_keys<W: Write>(
    sink: &mut Sink,
    out: &mut W,
    keys: &Option<KeyLists>,
) -> Result<(), WriteFault>
    ensures taken { OnOk result (Takes (W.contents out.old) (W.contents out.new) sink.old sink.new (key_words keys.now)) }
    ensures part { IfErr result (λ fault.
        TakesPart (W.contents out.old) (W.contents out.new) sink.old (key_words keys.now) fault.sent) }
{
    if let Some(keys) = keys {
        put_words(sink, out, &keys.starts)?;
        put_words(sink, out, &keys.positions)?;
    }
    Ok(())
}

fn put_words<W: Write>(sink: &mut Sink, out: &mut W, numbers: &[u32]) -> Result<(), WriteFault>
    ensures taken { OnOk result (Takes (W.contents out.old) (W.contents out.new) sink.old sink.new (words numbers.now)) }
    ensures part { IfErr result (λ fault.
        TakesPart (W.contents out.old) (W.contents out.new) sink.old (words numbers.now) fault.sent) }
{
    let mut octets = [0; 4 * BLOCK];
    for block in numbers.chunks(BLOCK) {
        let spelled = &mut octets[..4 * block.len()];
        BigEndian::write_u32_into(block, spelled);
        sink.put(out, spelled)?;
    }
    Ok(())
}
