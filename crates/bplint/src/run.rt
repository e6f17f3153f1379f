//! Answers what is asked about one FILE.

ghost use Rattle.std.specs.Prelude.{◌≡◌, ◌⊎◌, ◌≤◌, IsTrue, None};
ghost use Rattle.bplint.specs.ExitStatuses.{IsStillEnd};
ghost use Rattle.bplint.specs.Questions.{EndsAsked, LeavesAsked, StatusAsked, answer_of};

use crate::args::{Ask, Run};
use crate::ending::{Ending, end, refuse_line};
use crate::first_lines::FirstLines;
use crate::input::{Inputs, Operand, WHOLE_LIMIT, bytes_in, decode, open_inputs};
use crate::labels::Labelled;
use crate::lists::with_listed_paths;
use crate::output::{OutFault, OutFile};
use crate::reasons::{completed, form_lines, keeps_line, most_line, path_lines, too_long_line};
use crate::textconv::show_any;
use bplint_engine::{
    certify_on, check_on, explain, get_on, lint_on, list_all_on, list_on, list_rows_on, map_on,
    print_on, show_on, show_raw_on, show_readable_on, show_text_on,
};
use bplint_lines::{RawFault, RunFault, Said};
use bplist_octets::{SliceSource, Source};
use std::alloc::{AllocError, Global};
use std::fs::{File, Files};
use std::io::Write;

/// How the run for one FILE ended.
#[derive(Clone, Copy, Drop)]
pub struct Ended {
    /// The exit status.
    pub status: u8,
    /// True if nobody reads standard output any more.
    pub is_closed: bool,
}

impl Ended {
    /// The end with this status, after which there may be another run.
    pub fn with(status: u8) -> Ended
        ensures { result.status ≡ status }
    {
        Ended {
            status,
            is_closed: false,
        }
    }
}

/// Opens FILE and CERT, and answers what is asked. Returns the exit status.
pub fn run<R: Files<File = File> + Input + Print + Eprint>(
    rt: &R,
    alloc: Global,
    line: Run<'_>,
) -> u8
    ensures { result ≤ 4 }
{
    let inputs = match open_inputs(rt, alloc, &line) {
        Ok(inputs) => inputs,
        Err(unread) => {
            return end(rt, alloc, &line.prefix, unread.ending(alloc, line.explain));
        }
    };
    match with_listed_paths(rt, alloc, line) {
        Ok(line) => run_opened(rt, alloc, &line, inputs).status,
        Err(status) => status,
    }
}

/// Answers what is asked about inputs that are open.
// The two kinds of FILE are told apart once. If each read did so, `check` of standard input would take a tenth more.
pub fn run_opened<R: Files<File = File> + Print + Eprint>(
    rt: &R,
    alloc: Global,
    line: &Run<'_>,
    inputs: Inputs,
) -> Ended
    ensures { result.status ≤ 4 }
{
    let Inputs { file, cert } = inputs;
    match file {
        Operand::Memory(bytes) => run_sources(rt, alloc, line, SliceSource::new(&bytes), cert),
        Operand::Disk(file) => run_sources(rt, alloc, line, file, cert),
    }
}

/// Answers what is asked about FILE and CERT, which may be any sources.
pub fn run_sources<R: Files<File = File> + Print + Eprint, S: Source + Drop, C: Source + Drop>(
    rt: &R,
    alloc: Global,
    line: &Run<'_>,
    file: S,
    cert: C,
) -> Ended
    ensures exact { IsTrue (S.means file).honest → IsTrue (C.means cert).honest → line.now.most ≡ None
        → StatusAsked line.now.ask line.now.hex (S.means file).octets (C.means cert).octets result.status }
    ensures few { result.status ≤ 4 }
{
    let mut out = OutFile::new(rt, line.out).replacing(line.replaces);
    let ending = answer_within(alloc, line, file, cert, &mut out);
    if let (Ask::Certify { .. }, Some(OutFault::Kept)) = (&line.ask, out.fault()) {
        return Ended::with(keep_out(rt, alloc, line));
    }
    let ending = completed(alloc, line, ending, out.fault());
    let ending = warned(alloc, line, ending, out.written());
    Ended {
        is_closed: ending.silent,
        status: end(rt, alloc, &line.prefix, ending),
    }
}

/// Writes no more bytes than the line allows.
fn answer_within<S: Source + Drop, C: Source + Drop, W: Write>(
    alloc: Global,
    line: &Run<'_>,
    file: S,
    cert: C,
    out: &mut W,
) -> Ending
    ensures { IsTrue (S.means file).honest → IsTrue (C.means cert).honest → line.now.most ≡ None
        → EndsAsked line.now.ask line.now.hex (S.means file).octets (C.means cert).octets result.answer }
{
    let Some(most) = line.most else {
        return answer(alloc, line, file, cert, out);
    };
    let mut first = FirstLines::new(out, u64::MAX, most);
    let ending = answer(alloc, line, file, cert, &mut first);
    match first.full() {
        None => ending,
        Some(_) => cut_off(alloc, line, most),
    }
}

/// The answer has more bytes than may be written. If memory for the tip is refused, it is left out.
fn cut_off(alloc: Global, line: &Run<'_>, most: u64) -> Ending {
    if line.explain {
        if let Ok(tip) = most_line(alloc, most) {
            return Ending::over(Err(RawFault::Run(RunFault::TooLong)), tip);
        }
    }
    Ending::with(alloc, RunFault::TooLong)
}

/// OUT is no certificate.
fn keep_out<R: Eprint>(rt: &R, alloc: Global, line: &Run<'_>) -> u8
    ensures { (result ≡ 2) ⊎ (result ≡ 4) }
{
    match keeps_line(alloc, line.out, line.hex) {
        Ok(line) => refuse_line(rt, &line),
        Err(_) => end(rt, alloc, "", Ending::with(alloc, RunFault::Memory)),
    }
}

/// Adds a warning if `certify` wrote more bytes than any other command reads.
fn warned(alloc: Global, line: &Run<'_>, ending: Ending, written: u64) -> Ending
    ensures { IsStillEnd ending.answer result.answer }
{
    match &line.ask {
        Ask::Certify { .. } if ending.answer.is_ok() && written > WHOLE_LIMIT as u64 => {
            match too_long_line(alloc, line.out) {
                Ok(warning) => Ending::over(ending.answer, warning),
                Err(_) => Ending::with(alloc, RunFault::Memory),
            }
        }
        _ => ending,
    }
}

/// Answers what is asked about a FILE and a CERT.
pub fn answer<S: Source + Drop, C: Source + Drop, W: Write>(
    alloc: Global,
    line: &Run<'_>,
    file: S,
    cert: C,
    out: &mut W,
) -> Ending
    ensures { IsTrue (S.means file).honest → IsTrue (C.means cert).honest
        → EndsAsked line.now.ask line.now.hex (S.means file).octets (C.means cert).octets result.answer }
{
    let mut cert = cert;
    let mut out = Labelled::new(alloc, out, line.labels());
    let (ending, mut file) = answer_on(alloc, line, file, &mut cert, &mut out);
    if out.is_refused() {
        return Ending::with(alloc, RunFault::Memory);
    }
    let Ending { answer, under, .. } = ending;
    let under = match &answer {
        Err(fault) if line.explain => under_fault(alloc, line, &mut file, &mut cert, fault),
        _ => under,
    };
    Ending::over(answer, under)
}

/// Returns FILE too. CERT is empty if there is none.
fn answer_on<S: Source + Drop, C: Source, W: Write>(
    alloc: Global,
    line: &Run<'_>,
    file: S,
    cert: &mut C,
    out: &mut W,
) -> (Ending, S)
    ensures { IsTrue (S.means file).honest → IsTrue (C.means cert.old).honest
        → ∥ LeavesAsked line.now.ask line.now.hex (S.means file).octets (C.means cert.old).octets
        (W.contents out.old) (W.contents out.new) result.0.answer ∥₁ }
{
    let decoded = match decode(alloc, cert) {
        Ok(decoded) => decoded,
        Err(fault) => return (Ending::with(alloc, RunFault::Read(fault)), file),
    };
    match &line.ask {
        Ask::Lint => of(alloc, lint_on(alloc, file, out)),
        Ask::Certify { sorted } => of(alloc, certify_on(alloc, file, *sorted, line.hex, out)),
        Ask::Check => of(alloc, check_on(alloc, file, decoded, out)),
        Ask::Get { paths } => of(alloc, get_on(alloc, file, decoded, paths, out)),
        Ask::Print { path, limit } => {
            of(alloc, print_on(alloc, file, decoded, path, *limit, out))
        }
        Ask::Show { paths, style } => of(alloc, show_on(alloc, file, paths, *style, out)),
        Ask::Readable { paths } => of(alloc, show_readable_on(alloc, file, paths, out)),
        Ask::Text { path, limit } => {
            let (led, file) = show_text_on(alloc, file, path, *limit, out);
            (Ending::of_text(alloc, led), file)
        }
        Ask::Raw { path } => {
            let (led, file) = show_raw_on(alloc, file, path, out);
            (Ending::of_led(alloc, led), file)
        }
        Ask::List { path, style } => of(alloc, list_on(alloc, file, path, *style, out)),
        Ask::Tree(branch) => of(alloc, list_all_on(alloc, file, branch, out)),
        Ask::Rows(listed) => { of(alloc, list_rows_on(alloc, file, listed, line.named(), out)) }
        Ask::Map { paths } => {
            let mut file = file;
            let answer = map_on(alloc, &mut file, *paths, out);
            of(alloc, (answer, file))
        }
        Ask::Textconv => of(alloc, show_any(alloc, file, &line.prefix, out)),
    }
}

fn of<S: Source>(alloc: Global, answered: (Result<Said, RunFault>, S)) -> (Ending, S)
    ensures { result.0.answer ≡ answer_of answered.0 }
{
    let (answer, file) = answered;
    (Ending::of(alloc, answer), file)
}

/// If a read fails or memory is refused, there are no lines.
fn under_fault<S: Source, C: Source>(
    alloc: Global,
    line: &Run<'_>,
    file: &mut S,
    cert: &mut C,
    fault: &RawFault,
) -> String {
    match try_under(alloc, line, file, cert, fault) {
        Ok(text) => text,
        Err(_) => String::new(alloc),
    }
}

/// CERT is read as a whole here.
fn try_under<S: Source, C: Source>(
    alloc: Global,
    line: &Run<'_>,
    file: &mut S,
    cert: &mut C,
    fault: &RawFault,
) -> Result<String, RunFault> {
    let mut text = form_lines(alloc, file, &line.ask, fault)?;
    if let RawFault::Run(fault) = fault {
        let cert = bytes_in(alloc, cert)?;
        text.push_str(&explain(alloc, file, &cert, fault)?)?;
        if let RunFault::Path { place } = fault {
            text.push_str(&path_lines(alloc, &line.ask, *place)?)?;
        }
    }
    Ok(text)
}
