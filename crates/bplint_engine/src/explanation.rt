//! Explains a fault: below its line there are the rule, the numbers of the file, the path to the object, and the bytes
//! around the place. What is read for these lines is read here; bplint_lines words them.

ghost use Rattle.std.specs.Prelude.{◌≡◌, ℕ, List, [], ◌<◌, ◌++◌, IfOk, IfSome, MatchOption, length, string_bytes};
ghost use Rattle.bplist_octets.specs.Meaning.{OnlyReads};
ghost use Rattle.bplist_objects.specs.Failures.{failed_to_read};
ghost use Rattle.bplist_objects.specs.Safe.{IsSafeFrame};
ghost use Rattle.bplint_lines.specs.Answers.{read_failed};
ghost use Rattle.bplint_lines.specs.Explanation.{rule_line, rule_of_fault};

use crate::file_lines::file_lines;
use crate::object_path::{frame_in, head_in, key_front, path_to};
use bplint_lines::{
    Naming, RunFault, bytes_line_of, is_about_certificates, key_line_of, object_line_of,
    path_line_of, rule_line_of,
};
use bplist_objects::{Failure, Fault, Frame, Kind, ObjectNo, Rule, offset_of};
use bplist_octets::{SliceSource, Source};
use std::alloc::{AllocError, Global};

/// The number of bytes that are shown before a place, and from it on.
const CONTEXT: u64 = 8;

/// Returns the lines that explain a fault. Each is indented by two blanks and ends with a line feed. If the fault is
/// not about a rule, there are none.
///
/// The first line gives the number of the rule and what the rule requires. The others describe this file:
///
/// - its length and trailer, or what a file without the header looks like;
/// - number, kind, count and place of the object;
/// - number and text of a wrong key;
/// - the path that leads to the object, or to the first object of a circle: at most 256 steps of it, and how many more
///   there are;
/// - the bytes around the place, with the place in brackets. These are bytes of the certificate `cert` if the rule
///   counts places there.
pub fn explain<S: Source>(
    alloc: Global,
    src: &mut S,
    cert: &[u8],
    fault: &RunFault,
) -> Result<String, RunFault>
    ensures reads { OnlyReads (read_failed result) (S.means src.old) (S.means src.new) }
    ensures rule { IfOk result (λ text. MatchOption (rule_of_fault fault.now) (string_bytes text ≡ [])
        (λ rule. (rest : List ℕ) × (string_bytes text ≡ rule_line rule ++ rest))) }
{
    match fault {
        RunFault::Fault(fault) => {
            let lines = fault_lines(alloc, src, cert, fault)?;
            Ok(behind_rule(alloc, fault.rule, &lines)?)
        }
        RunFault::Circle(objects) => {
            let lines = match objects.as_slice() {
                [first, ..] => circle_lines(alloc, src, *first)?,
                [] => String::new(alloc),
            };
            Ok(behind_rule(alloc, Rule::Circle, &lines)?)
        }
        RunFault::Path { .. } => Ok(rule_line_of(alloc, Rule::PathText)?),
        _ => Ok(String::new(alloc)),
    }
}

fn behind_rule(alloc: Global, rule: Rule, lines: &str) -> Result<String, AllocError>
    ensures { IfOk result (λ text. string_bytes text ≡ rule_line rule ++ lines.now) }
{
    let mut text = rule_line_of(alloc, rule)?;
    text.push_str(lines)?;
    Ok(text)
}

fn fault_lines<S: Source>(
    alloc: Global,
    src: &mut S,
    cert: &[u8],
    fault: &Fault,
) -> Result<String, Failure>
    ensures reads { OnlyReads (failed_to_read result) (S.means src.old) (S.means src.new) }
{
    let mut text = file_lines(alloc, src)?;
    if let Some(object) = fault.object {
        if let Some(frame) = frame_in(src)? {
            let key = match fault.rule {
                Rule::KeyKind | Rule::KeyTwice => Some(fault.place),
                _ => None,
            };
            text.push_str(&object_lines(alloc, src, &frame, object, key)?)?;
        }
    }
    text.push_str(&place_line(alloc, src, cert, fault)?)?;
    Ok(text)
}

/// For some rules the place is in the certificate.
fn place_line<S: Source>(
    alloc: Global,
    src: &mut S,
    cert: &[u8],
    fault: &Fault,
) -> Result<String, Failure>
    ensures reads { OnlyReads (failed_to_read result) (S.means src.old) (S.means src.new) }
{
    if is_about_certificates(fault.rule) {
        bytes_line(alloc, &mut SliceSource::new(cert), fault.place)
    } else {
        bytes_line(alloc, src, fault.place)
    }
}

fn circle_lines<S: Source>(alloc: Global, src: &mut S, first: ObjectNo) -> Result<String, Failure>
    ensures reads { OnlyReads (failed_to_read result) (S.means src.old) (S.means src.new) }
{
    match frame_in(src)? {
        Some(frame) => path_line(alloc, src, &frame, first),
        None => Ok(String::new(alloc)),
    }
}

/// Returns the lines about an object: what it is, and the path to it. There are none if the file has no such object.
pub fn describe<S: Source>(alloc: Global, src: &mut S, object: ObjectNo) -> Result<String, Failure>
    ensures reads { OnlyReads (failed_to_read result) (S.means src.old) (S.means src.new) }
{
    match frame_in(src)? {
        Some(frame) => object_lines(alloc, src, &frame, object, None),
        None => Ok(String::new(alloc)),
    }
}

/// The lines say what the object is, which key is wrong, and the path to it. There are none if the file has no such
/// object. `key` is the place of the reference to the wrong key.
fn object_lines<S: Source>(
    alloc: Global,
    src: &mut S,
    frame: &Frame,
    object: ObjectNo,
    key: Option<u64>,
) -> Result<String, Failure>
    requires { IsSafeFrame (length (S.means src.old).octets) frame.now }
    ensures reads { OnlyReads (failed_to_read result) (S.means src.old) (S.means src.new) }
{
    if object.0 >= frame.objects {
        return Ok(String::new(alloc));
    }
    let place = offset_of(src, frame, object)?;
    let head = head_in(src, frame, object)?;
    let mut text = object_line_of(alloc, object, place, head)?;
    if let Some(place) = key {
        text.push_str(&key_line(alloc, src, frame, object, place)?)?;
    }
    text.push_str(&path_line(alloc, src, frame, object)?)?;
    Ok(text)
}

/// `place` is that of the reference to the key.
fn key_line<S: Source>(
    alloc: Global,
    src: &mut S,
    frame: &Frame,
    object: ObjectNo,
    place: u64,
) -> Result<String, Failure>
    requires safe { IsSafeFrame (length (S.means src.old).octets) frame.now }
    requires within { object.0 < frame.now.objects }
    ensures reads { OnlyReads (failed_to_read result) (S.means src.old) (S.means src.new) }
{
    let Some(head) = head_in(src, frame, object)? else {
        return Ok(String::new(alloc));
    };
    let index = place.saturating_sub(head.body) / frame.ref_size as u64;
    if head.kind != Kind::Dict || index >= head.count {
        return Ok(String::new(alloc));
    }
    let key = key_front(alloc, src, frame, &head, index)?;
    Ok(key_line_of(alloc, index, key.as_ref())?)
}

/// Finding the path takes more memory than `lint`: if memory is refused, the line says so.
fn path_line<S: Source>(
    alloc: Global,
    src: &mut S,
    frame: &Frame,
    object: ObjectNo,
) -> Result<String, Failure>
    requires { IsSafeFrame (length (S.means src.old).octets) frame.now }
    ensures reads { OnlyReads (failed_to_read result) (S.means src.old) (S.means src.new) }
{
    match path_to(alloc, src, frame, object, Naming::Shown) {
        Ok(path) => Ok(path_line_of(alloc, Some(&path))?),
        Err(Failure::Memory) => Ok(path_line_of(alloc, None)?),
        Err(fault) => Err(fault),
    }
}

/// The byte at the place is in brackets; at the end of the file the brackets are empty.
fn bytes_line<S: Source>(alloc: Global, src: &mut S, place: u64) -> Result<String, Failure>
    ensures reads { OnlyReads (failed_to_read result) (S.means src.old) (S.means src.new) }
{
    let length = src.len();
    let place = place.min(length);
    let start = place - place.min(CONTEXT);
    let stop = length.min(place.saturating_add(CONTEXT));
    let mut octets = [0u8; 16];
    let count = (stop - start) as usize;
    let shown = &mut octets[..count];
    src.read_at(start, shown)?;
    Ok(bytes_line_of(alloc, start, shown, (place - start) as usize)?)
}
