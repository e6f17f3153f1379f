//! The rules in plain words, and the lines under the line of a fault: the rule, the file, the object and its path, and
//! the bytes around a place. Each of these lines is indented by two blanks and ends with a line feed.

ghost use Rattle.std.specs.Prelude.{◌≡◌, ◌++◌, IfOk, codes, string_bytes};
ghost use Rattle.bplint_lines.specs.Explanation.{basis_words, is_about_certificates, is_profile, rule_line};
ghost use Rattle.std.specs.Fmt.{decimal};
ghost use Rattle.bplist_objects.specs.Words.{number_of, word_of};
ghost use Rattle.bplist_objects.specs.RuleTexts.{text_of};

use crate::written_path::{KeyFront, ObjectPath, WrittenPath};
use bplist_ascii::text_of_units;
use bplist_hints::Hint;
use bplist_objects::{Head, ObjectNo, Rule, rule_name, rule_number, texts_of};
use bplist_octets::sized;
use std::alloc::{AllocError, Global};

/// Returns the line with the number of a rule and what the rule requires.
pub fn rule_line_of(alloc: Global, rule: Rule) -> Result<String, AllocError>
    ensures { IfOk result (λ text. string_bytes text ≡ rule_line rule) }
{
    let (number, (demand, _)) = (rule_number(rule), texts_of(rule));
    format!(in alloc; "  rule {number}: {demand}\n")
}

/// Returns the line with the length of a file, and with the numbers of its trailer if there is one.
pub fn file_line_of(
    alloc: Global,
    length: u64,
    trailer: Option<&[u8; 32]>,
) -> Result<String, AllocError> {
    let Some(trailer) = trailer else {
        let ending = if length == 1 { "" } else { "s" };
        return format!(in alloc; "  file: {length} byte{ending}\n");
    };
    let (offset_size, ref_size) = (trailer[6], trailer[7]);
    let objects = sized(&trailer[8..16]);
    let top = sized(&trailer[16..24]);
    let table = sized(&trailer[24..32]);
    format!(in alloc;
        "  file: {length} bytes, offset size {offset_size}, reference size {ref_size}, objects {objects}, top {top}, table at {table}\n"
    )
}

/// Returns the line that says what a file looks like.
pub fn hint_line_of(alloc: Global, hint: Hint) -> Result<String, AllocError> {
    let words = hint.words(alloc)?;
    format!(in alloc; "  looks like: {words}\n")
}

/// Returns the line with number, kind, count and place of an object, as far as they are known.
pub fn object_line_of(
    alloc: Global,
    object: ObjectNo,
    place: u64,
    head: Option<Head>,
) -> Result<String, AllocError> {
    let number = object.0;
    match head {
        Some(head) => {
            let (kind, count) = (head.kind, head.count);
            format!(in alloc; "  object {number}: {kind}, count {count}, place {place}\n")
        }
        None => format!(in alloc; "  object {number}: place {place}\n"),
    }
}

/// Returns the line with the number and the text of a wrong key. ` ..` marks a text that is cut. No whole text ends so,
/// because a text with a blank is in quotes.
pub fn key_line_of(
    alloc: Global,
    index: u64,
    key: Option<&KeyFront>,
) -> Result<String, AllocError> {
    let Some(key) = key else {
        return format!(in alloc; "  key {index}: no text\n");
    };
    let mut line = format!(in alloc; "  key {index}: ")?;
    for octet in text_of_units(alloc, &key.units)? {
        line.push(octet as char)?;
    }
    line.push_str(if key.is_cut { " ..\n" } else { "\n" })?;
    Ok(line)
}

/// Returns the line with the path to an object. `None` says that memory for the search was refused.
pub fn path_line_of(alloc: Global, path: Option<&ObjectPath>) -> Result<String, AllocError> {
    match path {
        Some(ObjectPath::Path(path)) if path.text.is_empty() => {
            String::from_str(alloc, "  path: the top\n")
        }
        Some(ObjectPath::Path(path)) => written_path(alloc, path),
        Some(ObjectPath::None) => String::from_str(alloc, "  path: none\n"),
        Some(ObjectPath::Unknown) => {
            String::from_str(alloc, "  path: not found, objects overlap\n")
        }
        None => String::from_str(alloc, "  path: not found, memory was refused\n"),
    }
}

fn written_path(alloc: Global, path: &WrittenPath) -> Result<String, AllocError> {
    let text = String::from_utf8_lossy(alloc, &path.text)?;
    match path.more {
        0 => format!(in alloc; "  path: {text}\n"),
        1 => format!(in alloc; "  path: {text} .. and 1 more step\n"),
        more => format!(in alloc; "  path: {text} .. and {more} more steps\n"),
    }
}

/// Returns the line with the bytes from the place `start` on. The byte with the index `marked` is in brackets; if there
/// is none, the brackets are empty.
pub fn bytes_line_of(
    alloc: Global,
    start: u64,
    octets: &[u8],
    marked: usize,
) -> Result<String, AllocError> {
    let mut line = format!(in alloc; "  bytes at {start}:")?;
    for (k, octet) in octets.iter().enumerate() {
        add_octet(*octet, k == marked, &mut line)?;
    }
    line.push_str(if marked < octets.len() { "\n" } else { " []\n" })?;
    Ok(line)
}

fn add_octet(octet: u8, is_marked: bool, line: &mut String) -> Result<(), AllocError> {
    if is_marked {
        write!(line, " [{octet:02x}]")
    } else {
        write!(line, " {octet:02x}")
    }
}

/// Returns three lines: number, word and requirement of a rule; an example that breaks it; and whether the format asks
/// for it or this project.
pub fn rule_text(alloc: Global, rule: Rule) -> Result<String, AllocError>
    ensures { IfOk result (λ text. string_bytes text ≡ codes "rule " ++ decimal (number_of rule) ++ codes " " ++ word_of rule
        ++ codes ": " ++ (text_of rule).0 ++ codes "\nbroken by: " ++ (text_of rule).1
        ++ codes "\nbasis: " ++ basis_words rule ++ codes "\n") }
{
    let (number, word, basis) = (rule_number(rule), rule_name(rule), basis_words(rule));
    let (demand, breach) = texts_of(rule);
    format!(in alloc; "rule {number} {word}: {demand}\nbroken by: {breach}\nbasis: {basis}\n")
}

fn basis_words(rule: Rule) -> &'static str
    ensures { result.now ≡ basis_words rule }
{
    if is_profile(rule) {
        "profile. This project asks for it, and the format does not."
    } else {
        "format. The published format asks for it."
    }
}

/// Returns true if this project asks for what the rule requires, and false if the published format does. The format's
/// rules have limits of this project: 8 bytes for sizes, and 16 bytes for integers and counts.
///
/// The source of the rules of the format is the comment of Apple's CFBinaryPList.c.
pub fn is_profile(rule: Rule) -> bool
    ensures { result ≡ is_profile rule }
{
    match rule {
        Rule::TooLarge
        | Rule::NotAscii
        | Rule::KeyKind
        | Rule::KeyTwice
        | Rule::Overfull
        | Rule::PathText
        | Rule::ChildNotVouched
        | Rule::HeightNotLess => true,
        _ => is_about_certificates(rule),
    }
}

/// Returns true if the place of this rule is in the certificate, and false if it is in the file or in a path text.
pub fn is_about_certificates(rule: Rule) -> bool
    ensures { result ≡ is_about_certificates rule }
{
    match rule {
        Rule::CertMagic
        | Rule::CertLength
        | Rule::CertCount
        | Rule::TopNotVouched
        | Rule::KeyOrder => true,
        _ => false,
    }
}
