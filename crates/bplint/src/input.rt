//! The inputs FILE and CERT. Each is opened once, and then read by place or as a whole.

ghost use Rattle.std.specs.Prelude.{◌≡◌, ◌⊎◌, ◌≤◌, ◌<◌, [], IfErr, IfOk, IfSome, MatchResult, None, Ok};
ghost use Rattle.std.specs.Prelude.{codes, length, true, vec_len};
ghost use Rattle.std.specs.Result.{result_err};
ghost use Rattle.std.specs.Str.{bytes_eq};
ghost use Rattle.bplist_octets.specs.Meaning.{Honestly, OnlyReads};
ghost use Rattle.bplint.specs.Inputs.{IsInputFault, IsNothing, IsReadFault, IsReadWhole, IsShort};
ghost use Rattle.bplint.specs.Inputs.{IsWholeFault, OfWhole, in_memory, starts_with_bplist};
ghost use Rattle.bplint.specs.declared.input.Operand.TheVariants.{Disk, Memory};
ghost use Rattle.bplint_engine.specs.Check.{IsDecoded};
ghost use Rattle.bplint_engine.specs.Hexadecimal.{spelled};

use crate::args::Run;
use crate::input_fault::InputFault;
use crate::unread::Unread;
use bplint_engine::undo_hex;
use bplint_lines::RunFault;
use bplist_cert::{CertRefusal, Certificate, Refusal};
use bplist_octets::{FileSource, Pages, ReadFault, SeekSource, SliceSource, Source};
use std::alloc::Global;
use std::fs::{File, Files};
use std::io::{ErrorKind, Read};

/// How a binary property list of any version begins.
pub const HEADER: &[u8; 6] = b"bplist";

/// The largest input that is read as a whole, in bytes.
pub const WHOLE_LIMIT: usize = 67_108_864;

/// How many reads beyond `WHOLE_LIMIT` it may take to read an input as a whole.
pub const SPARE_READS: usize = 64;

/// Reads the input to its end. Repeats an interrupted read.
///
/// The clauses `bytes` and `too_long` apply to a reader whose `remaining` is known to the kit. It is `None` for a
/// `File` and for standard input.
pub fn read_whole<R: Read>(alloc: Global, reader: &mut R) -> Result<Vec<u8>, InputFault>
    ensures bounded { IfOk result (λ v. vec_len v ≤ WHOLE_LIMIT) }
    ensures bytes { IfOk result (λ v. IfSome (R.remaining reader.old) (λ xs. v.items ≡ xs)) }
    ensures too_long { IfErr result (λ fault. fault ≡ InputFault.TooLong
        → IfSome (R.remaining reader.old) (λ xs. WHOLE_LIMIT < length xs)) }
    ensures faults { IfErr result IsWholeFault }
{
    let mut all = Vec::new(alloc);
    let mut chunk = [0; 16_384];
    for _ in 0..WHOLE_LIMIT + SPARE_READS {
        match reader.read(&mut chunk) {
            Ok(0) => return Ok(all),
            Ok(n) => {
                if n > WHOLE_LIMIT - all.len() {
                    return Err(InputFault::TooLong);
                }
                if all.extend_from_slice(&chunk[..n]).is_err() {
                    return Err(InputFault::Memory);
                }
            }
            Err(e) => {
                if e.kind() != ErrorKind::Interrupted {
                    return Err(InputFault::Read(ReadFault::Device));
                }
            }
        }
    }
    Err(InputFault::Read(ReadFault::TooManyTurns))
}

/// An input after it was opened.
#[derive(Drop)]
pub enum Operand {
    /// All of its bytes.
    Memory(Vec<u8>),
    /// It is read by place.
    Disk(Pages<FileSource>),
}

/// The inputs of a command.
#[derive(Drop)]
pub struct Inputs {
    /// FILE.
    pub file: Operand,
    /// CERT, empty if there is none.
    pub cert: Operand,
}

impl Source for Operand {
    ghost means = { λ operand. elim operand [
      | Memory bytes ↦ in_memory bytes.items
      | Disk file ↦ ⟦<Pages<FileSource> as Source>⟧.means file
    ] };

    ghost asked = { λ operand. elim operand [
      | Memory _ ↦ 0
      | Disk file ↦ ⟦<Pages<FileSource> as Source>⟧.asked file
    ] };

    fn len(&self) -> u64 {
        match self {
            Operand::Memory(bytes) => bytes.len() as u64,
            Operand::Disk(file) => file.len(),
        }
    }

    fn read_at(&mut self, at: u64, into: &mut [u8]) -> Result<(), ReadFault> {
        match self {
            Operand::Memory(bytes) => SliceSource::new(bytes).read_at(at, into),
            Operand::Disk(file) => file.read_at(at, into),
        }
    }
}

impl Operand {
    fn undo_hex(self, alloc: Global) -> Result<Operand, InputFault>
        ensures { OfWhole (λ text. IfOk result (OfWhole (λ bytes. spelled text ≡ Ok bytes))) self }
    {
        let text = self.into_bytes(alloc)?;
        match undo_hex(alloc, &text) {
            Ok(bytes) => Ok(Operand::Memory(bytes)),
            Err(RunFault::Hex) => Err(hex_fault(&text)),
            Err(_) => Err(InputFault::Memory),
        }
    }

    fn into_bytes(self, alloc: Global) -> Result<Vec<u8>, InputFault>
        ensures whole { OfWhole (λ text. MatchResult result (λ bytes. bytes.items ≡ text) (λ _. ⊥)) self }
        ensures faults { IfErr result (λ fault. (fault ≡ InputFault.Memory) ⊎ IsReadFault fault) }
    {
        match self {
            Operand::Memory(bytes) => Ok(bytes),
            Operand::Disk(file) => {
                let mut file = file;
                bytes_in(alloc, &mut file)
            }
        }
    }
}

/// Returns all bytes of a source, with one read.
pub fn bytes_in<S: Source>(alloc: Global, src: &mut S) -> Result<Vec<u8>, InputFault>
    ensures exact { Honestly (S.means src.old) (λ f. IfOk result (λ bytes. bytes.items ≡ f)) }
    ensures faults { IfErr result (λ fault. (fault ≡ InputFault.Memory) ⊎ IsReadFault fault) }
{
    let mut bytes = vec![in alloc; 0u8; src.len() as usize]?;
    src.read_at(0, &mut bytes)?;
    Ok(bytes)
}

/// Returns true if a source begins like a binary property list of any version.
pub fn is_bplist<S: Source>(src: &mut S) -> Result<bool, ReadFault>
    ensures reads { OnlyReads (result_err result) (S.means src.old) (S.means src.new) }
    ensures exact { Honestly (S.means src.old) (λ f. IfOk result (λ yes. yes ≡ starts_with_bplist f)) }
{
    let mut front = [0; 6];
    if src.len() < 6 {
        return Ok(false);
    }
    src.read_at(0, &mut front)?;
    Ok(front == *HEADER)
}

/// Decodes a source as a certificate. The outer error is a failed read.
pub fn decode<S: Source>(
    alloc: Global,
    src: &mut S,
) -> Result<Result<Certificate, CertRefusal>, ReadFault>
    ensures reads { OnlyReads (result_err result) (S.means src.old) (S.means src.new) }
    ensures exact { Honestly (S.means src.old) (λ f. IfOk result (IsDecoded f)) }
{
    match Certificate::from_source(alloc, src) {
        Ok(certificate) => Ok(Ok(certificate)),
        Err(Refusal::Fault(fault)) => Ok(Err(CertRefusal::Fault(fault))),
        Err(Refusal::Memory) => Ok(Err(CertRefusal::Memory)),
        Err(Refusal::Read(fault)) => Err(fault),
    }
}

fn hex_fault(text: &[u8]) -> InputFault {
    let digits = match text {
        [digits @ .., b'\n'] => digits,
        _ => text,
    };
    for place in 0..digits.len() {
        let octet = digits[place];
        if !octet.is_ascii_hexdigit() {
            return InputFault::NoDigit { place, octet };
        }
    }
    InputFault::OddDigits(digits.len())
}

/// Opens FILE, and decodes hexadecimal text.
pub fn open_input<R: Files<File = File> + Input>(
    rt: &R,
    alloc: Global,
    name: &str,
    hex: bool,
) -> Result<Operand, InputFault> {
    let file = open_operand(rt, alloc, name, hex)?;
    if hex { file.undo_hex(alloc) } else { Ok(file) }
}

/// Opens FILE and CERT, and decodes hexadecimal text.
///
/// Opens FILE before CERT, and both before it decodes a text.
pub fn open_inputs<'a, R: Files<File = File> + Input>(
    rt: &R,
    alloc: Global,
    line: &Run<'a>,
) -> Result<Inputs, Unread<'a>> {
    let (name, cert_name) = (line.file, line.cert.unwrap_or(""));
    let file = open_operand(rt, alloc, name, line.hex).map_err(|fault| Unread::new(name, fault))?;
    let cert = open_certificate(rt, alloc, line.cert, line.hex).map_err(|fault| Unread::of_cert(
        cert_name, fault,
    ))?;
    if !line.hex {
        return Ok(Inputs { file, cert });
    }
    Ok(Inputs {
        file: file
            .undo_hex(alloc)
            .map_err(|fault| Unread::new(name, fault))?,
        cert: cert
            .undo_hex(alloc)
            .map_err(|fault| Unread::of_cert(cert_name, fault))?,
    })
}

/// `-` is standard input, which is read as a whole.
fn open_operand<R: Files<File = File> + Input>(
    rt: &R,
    alloc: Global,
    name: &str,
    whole: bool,
) -> Result<Operand, InputFault>
    ensures whole { whole ≡ true → IfOk result IsReadWhole }
    ensures input { bytes_eq name.now (codes "-") ≡ true → IfOk result IsReadWhole }
    ensures faults { IfErr result IsInputFault }
{
    if name == "-" {
        return Ok(Operand::Memory(read_whole(alloc, &mut rt.reader())?));
    }
    open_file(rt, alloc, name, whole)
}

/// The file is read as a whole if that is wanted, or if it has no reliable length: pipes and devices have none, and
/// files of /proc claim to be empty.
fn open_file<R: Files<File = File>>(
    rt: &R,
    alloc: Global,
    name: &str,
    whole: bool,
) -> Result<Operand, InputFault>
    ensures whole { whole ≡ true → IfOk result IsReadWhole }
    ensures faults { IfErr result IsInputFault }
{
    let mut file = File::open(rt, name).map_err(|error| InputFault::Open(error.kind()))?;
    let metadata = file
        .metadata()
        .map_err(|error| InputFault::Open(error.kind()))?;
    if metadata.is_dir() {
        return Err(InputFault::Folder);
    }
    if whole || !metadata.is_file() || metadata.len() == 0 {
        return Ok(Operand::Memory(read_whole(alloc, &mut file)?));
    }
    let source = SeekSource::new(file).map_err(|error| InputFault::Open(error.kind()))?;
    Ok(Operand::Disk(Pages::new(alloc, source)?))
}

/// Reads an input as a whole. `-` is standard input.
pub fn read_input<R: Files<File = File> + Input>(
    rt: &R,
    alloc: Global,
    name: &str,
) -> Result<Vec<u8>, InputFault>
    ensures faults { IfErr result (λ fault. (fault ≡ InputFault.Memory) ⊎ IsInputFault fault) }
{
    open_operand(rt, alloc, name, true)?.into_bytes(alloc)
}

/// Opens CERT, if there is one, as [`open_operand`] opens FILE, except that `-` is a file of that name. Its length is
/// limited like that of an input that is read as a whole.
fn open_certificate<R: Files<File = File>>(
    rt: &R,
    alloc: Global,
    name: Option<&str>,
    hex: bool,
) -> Result<Operand, InputFault>
    ensures none { name.entry ≡ None → MatchResult result IsNothing (λ _. ⊥) }
    ensures hex { hex ≡ true → IfOk result IsReadWhole }
    ensures short { IfOk result IsShort }
    ensures faults { IfErr result IsInputFault }
{
    let Some(name) = name else {
        return Ok(Operand::Memory(Vec::new(alloc)));
    };
    let cert = open_file(rt, alloc, name, hex)?;
    if cert.len() > WHOLE_LIMIT as u64 {
        return Err(InputFault::TooLong);
    }
    Ok(cert)
}
