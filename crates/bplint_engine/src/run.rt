//! Runs one command over a file and a certificate, which are a source, bytes or hexadecimal text: the commands with
//! their options, and the calls that run them.

ghost use Rattle.std.specs.Prelude.{◌≡◌, ℕ, List, [], None, IsTrue, if◌then◌else◌, ◌⊎◌, ◌-◌, ◌==◌, IfOk, IfErr, IsErr};
ghost use Rattle.std.specs.Prelude.{◌∷◌, Ok, length, map, slice_index, string_bytes, take};
ghost use Rattle.bplint_engine.specs.Prelude.{OnlyReads, IsDecoded, PrintsOnePath, Leaves, read_failed, Says, SaysOver};
ghost use Rattle.bplint_engine.specs.Prelude.{most, takes_cert, spelled};

use crate::certify::certify_on;
use crate::check::check_on;
use crate::get::get_on;
use crate::lint::lint_on;
use crate::print::print_on;
use bplint_lines::{RunFault, Said};
use bplist_cert::{CertRefusal, Certificate};
use bplist_octets::{SliceSource, Source};
use hex::FromHexError;
use std::alloc::Global;
use std::io::Write;
use std::marker::Model;

/// The five commands of [`crate::run_on`].
#[derive(Clone, Copy, Drop)]
pub enum Verb {
    /// Decide whether a file holds a value.
    Lint,
    /// Check a certificate against a file.
    Check,
    /// Print one line for the value under each path.
    Get,
    /// Write a certificate of a file.
    Certify,
    /// Print the value under one path as old-style text.
    Print,
}

/// A command with its options.
#[derive(Drop)]
pub struct Command {
    /// Which command to run.
    pub verb: Verb,
    /// The path texts. Only `Get` and `Print` use them. `Print` needs exactly one.
    pub paths: Vec<String>,
    /// The largest text that `Print` may write, in bytes, not counting the final line feed.
    pub limit: u64,
    /// If true, `Certify` writes hexadecimal text, and [`crate::run_over`] takes the file and the certificate as
    /// hexadecimal text. [`crate::run_on`] takes bytes all the same.
    pub hex: bool,
    /// If true, `Certify` also writes key lists.
    pub sorted: bool,
}

impl Model for Command {
    ghost use Rattle.std.specs.Prelude.{map, string_bytes};
    ghost use Rattle.bplint_engine.specs.Commands.{Asked};

    ghost Value = { Asked };

    ghost view = { λ c. record {
      verb = c.verb;
      paths = map (λ text. string_bytes text) c.paths.items;
      limit = c.limit;
      hex = c.hex;
      sorted = c.sorted;
    } };
}

/// `Lint` and `Certify` ignore the certificate.
fn run_certified<S: Source, W: Write>(
    alloc: Global,
    command: &Command,
    src: S,
    decoded: Result<Certificate, CertRefusal>,
    out: &mut W,
) -> (Result<Said, RunFault>, S)
    requires { PrintsOnePath command.now }
    ensures source { OnlyReads (read_failed result.0) (S.means src) (S.means result.1) }
    ensures exact { IsTrue (S.means src).honest → (cert : List ℕ) → IsDecoded cert decoded
        → Leaves (Says command.now (S.means src).octets cert) (most command.now)
        (W.contents out.old) (W.contents out.new) result.0 }
{
    match command.verb {
        Verb::Lint => lint_on(alloc, src, out),
        Verb::Check => check_on(alloc, src, decoded, out),
        Verb::Get => get_on(alloc, src, decoded, &command.paths, out),
        Verb::Certify => certify_on(alloc, src, command.sorted, command.hex, out),
        Verb::Print => {
            let path = only_text(&command.paths);
            print_on(alloc, src, decoded, path, command.limit, out)
        }
    }
}

fn only_text(texts: &[String]) -> &str
    requires { length texts.now ≡ 1 }
    ensures { map (λ text. string_bytes text) texts.now ≡ result.now ∷ [] }
{
    texts[0].as_str()
}

/// Decodes a certificate, and runs a command over a source. Returns the source too.
///
/// The answer goes to `out`: lines, each with a line feed, or the bytes of a certificate. `Lint` and `Certify` ignore
/// `cert`. `Print` requires exactly one path.
///
/// These errors come before anything is written, in this order:
///
/// - `Path` for the first wrong path text,
/// - `Fault` with rule 24 or 25 if `cert` is no certificate,
/// - `Fault` or `Circle` for the file or its certificate,
/// - with `Print`, `NoAsciiForm` and then `TooLong`.
///
/// `Write` means that a write failed: the first `sent` bytes of the answer were written, and some were not.
///
/// `Read` means that a read of the source failed, and `Memory` that memory was refused. Nothing was written then,
/// except that `Print` may have written a first part of the answer. `Changed` means that the source now gives other
/// bytes than before. An honest source never causes it.
pub fn run_on<S: Source, W: Write>(
    alloc: Global,
    command: &Command,
    src: S,
    cert: &[u8],
    out: &mut W,
) -> (Result<Said, RunFault>, S)
    requires { PrintsOnePath command.now }
    ensures source { OnlyReads (read_failed result.0) (S.means src) (S.means result.1) }
    ensures exact { IsTrue (S.means src).honest → Leaves (Says command.now (S.means src).octets cert.now) (most command.now)
        (W.contents out.old) (W.contents out.new) result.0 }
{
    let decoded = Certificate::from_octets(alloc, cert_for(command.verb, cert));
    run_certified(alloc, command, src, decoded, out)
}

/// Runs a command over the bytes of a file and a certificate. With `hex` both are hexadecimal text; that of the
/// certificate is only decoded if the verb uses the certificate.
///
/// `Hex` comes before all errors of [`run_on`]: the text of the file is wrong, or else that of the certificate.
/// Nothing was written then. `Read` and `Changed` do not occur.
pub fn run_over<W: Write>(
    alloc: Global,
    command: &Command,
    file: &[u8],
    cert: &[u8],
    out: &mut W,
) -> Result<Said, RunFault>
    requires { PrintsOnePath command.now }
    ensures exact { Leaves (SaysOver command.now.hex command.now file.now cert.now) (most command.now)
        (W.contents out.old) (W.contents out.new) result }
    ensures whole { read_failed result ≡ None }
{
    if !command.hex {
        return run_over_bytes(alloc, command, file, cert, out);
    }
    let file = undo_hex(alloc, file)?;
    let cert = undo_hex(alloc, cert_for(command.verb, cert))?;
    run_over_bytes(alloc, command, &file, &cert, out)
}

fn cert_for(verb: Verb, cert: &[u8]) -> &[u8]
    ensures { result.now ≡ (if takes_cert verb then cert.now else []) }
{
    match verb {
        Verb::Lint | Verb::Certify => &[],
        Verb::Check | Verb::Get | Verb::Print => cert,
    }
}

fn run_over_bytes<W: Write>(
    alloc: Global,
    command: &Command,
    file: &[u8],
    cert: &[u8],
    out: &mut W,
) -> Result<Said, RunFault>
    requires { PrintsOnePath command.now }
    ensures exact { Leaves (Says command.now file.now cert.now) (most command.now) (W.contents out.old) (W.contents out.new) result }
    ensures whole { read_failed result ≡ None }
{
    run_on(alloc, command, SliceSource::new(file), cert, out).0
}

/// Decodes hexadecimal text with digits of either case. Drops one line feed at the end of the text. Returns `Hex` if
/// the text is anything else, and `Memory` if memory is refused.
pub fn undo_hex(alloc: Global, text: &[u8]) -> Result<Vec<u8>, RunFault>
    ensures bytes { IfOk result (λ bytes. spelled text.now ≡ Ok bytes.items) }
    ensures refused { IfErr result (λ fault.
        (fault ≡ RunFault.Memory) ⊎ ((fault ≡ RunFault.Hex) × IsErr (spelled text.now))) }
{
    match hex::decode(alloc, without_line_feed(text)) {
        Ok(bytes) => Ok(bytes),
        Err(FromHexError::OutOfMemory) => Err(RunFault::Memory),
        Err(_) => Err(RunFault::Hex),
    }
}

fn without_line_feed(text: &[u8]) -> &[u8]
    ensures { let last = length text.now - 1 in
        result.now ≡ (if slice_index text.now last == 10 then take last text.now else text.now) }
{
    match text {
        [digits @ .., b'\n'] => digits,
        _ => text,
    }
}
