//! Calls of the library, and their answers as text.

use arrayvec::ArrayVec;
use bplist_ascii::{print, text_of_bytes, text_of_units};
use bplist_cert::{Certificate, Checked};
use bplist_cursor::{
    Node, Path, PathFault, Query, answer, answer_all, face, locate, locate_counted, measure, member,
};
use bplist_lint::{Lint, LintRefusal, UpgradeFault, lint, upgrade};
use bplist_objects::ObjectNo;
use bplist_octets::Source;
use std::alloc::{AllocError, Global};
use std::fmt::Debug;

/// A call on a checked file, or one that needs no file.
#[derive(Drop)]
pub enum Call {
    /// The linter, which reads the checked file as a source.
    Lint,
    Upgrade,
    Octets,
    Locate(Path),
    LocateCounted(Path),
    Face(Node),
    Member(Node, u64),
    Answer(Query),
    AnswerAll(Vec<Query>),
    Measure,
    /// Prints an object with this limit, after measuring it, to a writer that takes no memory.
    Print(Node, u64),
    /// Parses a path text.
    Parse(&'static str),
    TextOfUnits(&'static [u16]),
    TextOfBytes(&'static [u8]),
}

impl Call {
    /// Returns the name of the variant.
    pub fn name(&self) -> &'static str {
        match self {
            Call::Lint => "Lint",
            Call::Upgrade => "Upgrade",
            Call::Octets => "Octets",
            Call::Locate(_) => "Locate",
            Call::LocateCounted(_) => "LocateCounted",
            Call::Face(_) => "Face",
            Call::Member(..) => "Member",
            Call::Answer(_) => "Answer",
            Call::AnswerAll(_) => "AnswerAll",
            Call::Measure => "Measure",
            Call::Print(..) => "Print",
            Call::Parse(_) => "Parse",
            Call::TextOfUnits(_) => "TextOfUnits",
            Call::TextOfBytes(_) => "TextOfBytes",
        }
    }

    /// Makes the call. Returns its answer as text, `Err(..)` for an error.
    pub fn answer_text<S: Source>(
        &self,
        alloc: Global,
        checked: &mut Checked<S>,
    ) -> Result<String, AllocError> {
        match self {
            Call::Lint => lint_text(alloc, lint(alloc, checked)),
            Call::Upgrade => upgrade_text(alloc, upgrade(alloc, checked)),
            Call::Octets => octets_text(alloc, checked.certificate().to_octets(alloc)),
            Call::Locate(path) => text_of(alloc, locate(checked, path)),
            Call::LocateCounted(path) => text_of(alloc, locate_counted(checked, path)),
            Call::Face(node) => text_of(alloc, face(alloc, checked, *node)),
            Call::Member(node, i) => text_of(alloc, member(checked, *node, *i)),
            Call::Answer(query) => text_of(alloc, answer(alloc, checked, query)),
            Call::AnswerAll(queries) => text_of(alloc, answer_all(alloc, checked, queries)),
            Call::Measure => text_of(alloc, measure(alloc, checked)),
            Call::Print(node, limit) => print_text(alloc, checked, *node, *limit),
            Call::Parse(text) => text_of(alloc, Path::parse(alloc, text)),
            Call::TextOfUnits(units) => octets_text(alloc, text_of_units(alloc, units)),
            Call::TextOfBytes(bytes) => octets_text(alloc, text_of_bytes(alloc, bytes)),
        }
    }
}

/// The function takes the answer, so that the caller has none to drop.
fn text_of<T: Debug + Drop>(alloc: Global, answer: T) -> Result<String, AllocError> {
    format!(in alloc; "{answer:?}")
}

fn certificate_text(alloc: Global, certificate: &Certificate) -> Result<String, AllocError> {
    let heights = &certificate.heights;
    match &certificate.keys {
        None => format!(in alloc; "{heights:?}"),
        Some(keys) => {
            let (starts, positions) = (&keys.starts, &keys.positions);
            format!(in alloc; "{heights:?} {starts:?} {positions:?}")
        }
    }
}

fn lint_text(alloc: Global, linted: Result<Lint, LintRefusal>) -> Result<String, AllocError> {
    match linted {
        Ok(lint) => {
            let certificate = certificate_text(alloc, &lint.certificate)?;
            let (reached, height, references) = (lint.reached, lint.height, lint.references);
            format!(in alloc; "{certificate} {reached} {height} {references}")
        }
        Err(refusal) => format!(in alloc; "Err({refusal:?})"),
    }
}

fn upgrade_text(
    alloc: Global,
    upgraded: Result<Certificate, UpgradeFault>,
) -> Result<String, AllocError> {
    match upgraded {
        Ok(certificate) => certificate_text(alloc, &certificate),
        Err(fault) => format!(in alloc; "Err({fault:?})"),
    }
}

fn octets_text(alloc: Global, octets: Result<Vec<u8>, AllocError>) -> Result<String, AllocError> {
    match octets {
        Ok(octets) => text_of(alloc, octets),
        Err(_) => String::from_str(alloc, "Err(Memory)"),
    }
}

/// Prints after measuring, to a writer that takes no memory.
fn print_text<S: Source>(
    alloc: Global,
    checked: &mut Checked<S>,
    node: Node,
    limit: u64,
) -> Result<String, AllocError> {
    match measure(alloc, checked) {
        Ok(measures) => {
            let mut out: ArrayVec<u8, 64> = ArrayVec::new();
            let printed = print(alloc, checked, &measures, node, limit, &mut out);
            text_of(alloc, printed.map(|_| out))
        }
        Err(fault) => format!(in alloc; "Err({fault:?})"),
    }
}

/// Returns a checked file as text: its frame and its certificate.
pub fn checked_text<S: Source>(alloc: Global, checked: &Checked<S>) -> Result<String, AllocError> {
    let frame = checked.frame();
    let certificate = certificate_text(alloc, checked.certificate())?;
    format!(in alloc; "{frame:?} {certificate}")
}

/// Paths that lead somewhere in some of the tested files.
const PATHS: &[&str] = &["", "/0/1/0", "/a", "/a~1b/0", "/s/0", "/x", "/"];

fn queries(alloc: Global) -> Result<Vec<Query>, PathFault> {
    let mut queries = Vec::new(alloc);
    for text in PATHS {
        queries.push(Query::Get(Path::parse(alloc, text)?))?;
        queries.push(Query::Keys(Path::parse(alloc, text)?))?;
        queries.push(Query::Size(Path::parse(alloc, text)?))?;
    }
    Ok(queries)
}

fn node(n: u32) -> Node {
    Node {
        object: ObjectNo(n),
    }
}

/// The calls that need no node and no path of their own, and one call with many queries.
fn calls_at_large(alloc: Global) -> Result<Vec<Call>, PathFault> {
    let queries = queries(alloc)?;
    let calls = vec![in alloc;
        Call::Lint,
        Call::Upgrade,
        Call::Octets,
        Call::Measure,
        Call::Print(node(0), u64::MAX),
        Call::Print(node(62), 13),
        Call::AnswerAll(queries),
        Call::Parse("/a~1b/0"),
        Call::TextOfUnits(&[0xd83d, 0x22]),
        Call::TextOfBytes(&[0, 0xff]),
    ]?;
    Ok(calls)
}

fn add_nodes(calls: &mut Vec<Call>) -> Result<(), AllocError> {
    for n in 0..9 {
        calls.push(Call::Face(node(n)))?;
        for i in 0..7 {
            calls.push(Call::Member(node(n), i))?;
        }
    }
    Ok(())
}

fn add_paths(alloc: Global, calls: &mut Vec<Call>) -> Result<(), PathFault> {
    for text in PATHS {
        calls.push(Call::Locate(Path::parse(alloc, text)?))?;
        calls.push(Call::LocateCounted(Path::parse(alloc, text)?))?;
    }
    for query in queries(alloc)? {
        calls.push(Call::Answer(query))?;
    }
    Ok(())
}

/// Calls of each kind, with paths, nodes and limits that fit some of the tested files.
pub fn all_calls(alloc: Global) -> Result<Vec<Call>, PathFault> {
    let mut calls = calls_at_large(alloc)?;
    add_nodes(&mut calls)?;
    add_paths(alloc, &mut calls)?;
    Ok(calls)
}
