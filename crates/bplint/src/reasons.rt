//! What is below the line of a fault: the name of the file, the path text that is wrong, the value that has not the
//! form that was asked for, and why the system failed.

ghost use Rattle.std.specs.Prelude.{IfOk};
ghost use Rattle.bplint.specs.ExitStatuses.{Fails, IsStillEnd};

use crate::args::{Ask, Run};
use crate::ending::Ending;
use crate::folders::{shown_name, shown_octets};
use crate::output::OutFault;
use bplint_engine::{Branch, Depth, Listed, describe};
use bplint_lines::{RawFault, RunFault, is_about_certificates};
use bplist_cursor::Path;
use bplist_octets::Source;
use std::alloc::{AllocError, Global};
use std::io::ErrorKind;

/// What prints a value without old-style text.
const NO_ASCII_FORM: &str =
    "  tip: only data, text, array and dict have old-style text; use --raw for one value, ls --recursive for all\n";

/// What prints a value without raw bytes.
const NO_RAW_FORM: &str =
    "  tip: only data, text, int, uid and booleans have raw bytes; use show without --raw\n";

/// Returns what begins the lines of a file, which is nothing if they are not to name it.
pub fn prefix_of(alloc: Global, name: &str, named: bool) -> Result<String, AllocError> {
    if !named {
        return Ok(String::new(alloc));
    }
    let shown = shown_name(alloc, name)?;
    format!(in alloc; "{shown}: ")
}

/// Returns what begins the lines of a file whose name is not UTF-8, and how its run ends, since it cannot be opened.
pub fn unnamed_ending(
    alloc: Global,
    name: &[u8],
    explain: bool,
) -> Result<(String, Ending), AllocError>
    ensures { IfOk result (λ made. Fails made.1.answer) }
{
    let shown = shown_octets(alloc, name)?;
    let prefix = format!(in alloc; "{shown}: ")?;
    let mut ending = Ending::with(alloc, RunFault::Open);
    if explain {
        ending.under.push_str("  file: its name is not UTF-8\n")?;
    }
    Ok((prefix, ending))
}

/// Completes the end of a run whose answer went to OUT: a fault gets the name of its file, or why OUT could not be
/// written. Nothing is said if nobody reads standard output any more.
pub fn completed(alloc: Global, line: &Run<'_>, ending: Ending, out: Option<OutFault>) -> Ending
    ensures { IsStillEnd ending.answer result.answer }
{
    let is_write = match &ending.answer {
        Ok(_) => return ending,
        Err(RawFault::Run(RunFault::Write { .. })) => true,
        Err(_) => false,
    };
    match out {
        Some(OutFault::Closed) if is_write => Ending {
            silent: true,
            ..ending
        },
        _ if !line.explain => ending,
        Some(OutFault::Failed(kind)) if is_write => {
            below(alloc, ending, out_line(alloc, line.out, kind))
        }
        _ if !line.prefix.is_empty() => ending,
        _ => {
            let name = name_line(alloc, faulty_name(line, &ending));
            below(alloc, ending, name)
        }
    }
}

/// If memory was refused for the line, that is the fault.
fn below(alloc: Global, ending: Ending, line: Result<String, AllocError>) -> Ending
    ensures { IsStillEnd ending.answer result.answer }
{
    let Ending { answer, under, .. } = ending;
    match joined(line, &under) {
        Ok(under) => Ending::over(answer, under),
        Err(_) => Ending::with(alloc, RunFault::Memory),
    }
}

fn joined(line: Result<String, AllocError>, under: &str) -> Result<String, AllocError> {
    let mut lines = line?;
    lines.push_str(under)?;
    Ok(lines)
}

/// It is CERT if a rule about certificates is broken.
fn faulty_name<'a>(line: &Run<'a>, ending: &Ending) -> &'a str {
    match &ending.answer {
        Err(RawFault::Run(RunFault::Fault(fault))) if is_about_certificates(fault.rule) => line
            .cert
            .unwrap_or(""),
        _ => line.file,
    }
}

/// Returns the line that says that OUT is left as it is, because it is no certificate, or with `--hex` no text of one.
pub fn keeps_line(alloc: Global, out: &str, hex: bool) -> Result<String, AllocError> {
    let shown = shown_name(alloc, out)?;
    let front = if hex { "62706c63657274" } else { "bplcert" };
    format!(in alloc;
        "error: {shown} does not begin with {front}, so it is left as it is; with --force the certificate replaces it"
    )
}

/// Returns the warning that the certificate in OUT is too long for every command that reads one.
pub fn too_long_line(alloc: Global, out: &str) -> Result<String, AllocError> {
    let shown = shown_name(alloc, out)?;
    format!(in alloc;
        "warning: {shown} has more than 67,108,864 bytes; check, get and print refuse it as too long\n"
    )
}

/// Returns the line with the name of a file.
pub fn name_line(alloc: Global, name: &str) -> Result<String, AllocError> {
    let shown = shown_name(alloc, name)?;
    format!(in alloc; "  name: {shown}\n")
}

/// Returns the line with the name of an input, and why it could not be read.
pub fn file_line(alloc: Global, name: &str, why: &str) -> Result<String, AllocError> {
    let shown = shown_name(alloc, name)?;
    format!(in alloc; "  file: {shown}: {why}\n")
}

/// Returns the line with the name of OUT, and why it could not be written.
pub fn out_line(alloc: Global, name: &str, kind: ErrorKind) -> Result<String, AllocError> {
    let why = match kind {
        ErrorKind::NotFound => "no such folder",
        ErrorKind::PermissionDenied => "no permission",
        ErrorKind::IsADirectory => "a folder",
        ErrorKind::StorageFull | ErrorKind::QuotaExceeded => "no space left",
        _ => "it cannot be written",
    };
    if name == "-" {
        return format!(in alloc; "  out: standard output: {why}\n");
    }
    let shown = shown_name(alloc, name)?;
    format!(in alloc; "  out: {shown}: {why}\n")
}

/// Returns the lines about the first wrong path text of a question: the text, and a mark below the byte at this
/// place, with what is wrong there.
pub fn path_lines(alloc: Global, ask: &Ask<'_>, place: usize) -> Result<String, AllocError> {
    let Some(text) = wrong_path(alloc, ask) else {
        return Ok(String::new(alloc));
    };
    let shown = shown_name(alloc, text)?;
    let mut lines = format!(in alloc; "  path: {shown}\n        ")?;
    let before = shown_name(alloc, text.get(..place).unwrap_or(""))?;
    for _ in before.chars() {
        lines.push(' ')?;
    }
    lines.push_str(if place == 0 {
        "^ a path begins with /\n"
    } else {
        "^ after ~ comes 0, for ~, or 1, for /\n"
    })?;
    Ok(lines)
}

/// Returns the lines about a value without the form that was asked for: its first object that has none, and what prints
/// such a value.
pub fn form_lines<S: Source>(
    alloc: Global,
    src: &mut S,
    ask: &Ask<'_>,
    fault: &RawFault,
) -> Result<String, RunFault> {
    let (object, tip) = match fault {
        RawFault::Run(RunFault::NoAsciiForm(object)) => (object, NO_ASCII_FORM),
        RawFault::NoRawForm(object) => (object, NO_RAW_FORM),
        RawFault::Run(RunFault::TooLong) => return Ok(limit_line(alloc, ask)?),
        RawFault::Run(_) => return Ok(String::new(alloc)),
    };
    let mut lines = describe(alloc, src, *object)?;
    lines.push_str(tip)?;
    Ok(lines)
}

fn limit_line(alloc: Global, ask: &Ask<'_>) -> Result<String, AllocError> {
    match ask {
        Ask::Print { limit, .. } => {
            format!(in alloc; "  tip: the text has more than {limit} bytes; give a greater LIMIT\n")
        }
        Ask::Text { limit, .. } => {
            format!(in alloc; "  tip: the text has more than {limit} bytes; use --limit N\n")
        }
        Ask::Tree(Branch { limit, .. })
        | Ask::Rows(
            Listed {
                depth: Depth::All(limit),
                ..
            },
        ) => format!(in alloc; "  tip: there are more than {limit} nodes; use --limit N\n"),
        _ => Ok(String::new(alloc)),
    }
}

/// Returns the line with the largest number of bytes that `ls` writes, and how to have another.
pub fn most_line(alloc: Global, most: u64) -> Result<String, AllocError> {
    format!(in alloc; "  tip: there are more than {most} bytes; use --limit-bytes N\n")
}

fn wrong_path<'a>(alloc: Global, ask: &'a Ask<'a>) -> Option<&'a str> {
    match ask {
        Ask::Get { paths } | Ask::Show { paths, .. } | Ask::Readable { paths } => {
            first_wrong(alloc, paths)
        }
        Ask::Print { path, .. }
        | Ask::Text { path, .. }
        | Ask::Raw { path }
        | Ask::List { path, .. }
        | Ask::Tree(Branch { path, .. })
        | Ask::Rows(Listed { path, .. }) => Some(path),
        Ask::Lint | Ask::Certify { .. } | Ask::Check | Ask::Map { .. } | Ask::Textconv => None,
    }
}

fn first_wrong(alloc: Global, paths: &[String]) -> Option<&str> {
    let mut texts = paths.iter().map(|path| path.as_str());
    texts.find(|text| Path::parse(alloc, text).is_err())
}
