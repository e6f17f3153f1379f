//! The form of a file that does not begin with `bplist00`.

use crate::hint::{Damage, Form, Hint};
use crate::look::SAMPLE;

/// The number of characters that decide which text it is.
const TEXT: usize = 1024;

/// The first bytes of a binary property list in base64. They hold the header but for its last four bits.
const BASE64: &[u8] = b"YnBsaXN0MD";

/// Stands for each character that is not ASCII.
const NOT_ASCII: u8 = 0xff;

/// The front does not begin with `bplist00`. `is_whole` says that it is the whole file.
pub(crate) fn form_of(front: &[u8], is_whole: bool) -> Option<Hint> {
    if b"bplist00".starts_with(front) {
        return Some(Hint::Damage(Damage::CutShort));
    }
    if let Some(form) = form_of_bytes(front) {
        return Some(Hint::Form(form));
    }
    let mut characters = [0u8; SAMPLE];
    let text = narrowed(front, &mut characters);
    if text.starts_with(b"bplist00") {
        return Some(Hint::Damage(recoded(front)));
    }
    if !text
        .iter()
        .all(|octet| is_blank(*octet) || !octet.is_ascii_control())
    {
        return None;
    }
    if is_whole && text.iter().all(|octet| is_blank(*octet)) {
        return Some(Hint::Form(Form::Blank));
    }
    form_of_text(text[..text.len().min(TEXT)].trim_ascii_start()).map(Hint::Form)
}

fn form_of_bytes(front: &[u8]) -> Option<Form> {
    if front.starts_with(b"bplist15") {
        return Some(Form::Bplist15);
    }
    if front.starts_with(b"bplist16") {
        return Some(Form::Bplist16);
    }
    if front.starts_with(b"bplist17") {
        return Some(Form::Bplist17);
    }
    if front.starts_with(&[0x1f, 0x8b]) {
        return Some(Form::Gzip);
    }
    if front.starts_with(b"NIBArchive") {
        return Some(Form::NibArchive);
    }
    // The version and the length of the word, which says the byte order.
    match front {
        [3 | 4, 11, word @ ..]
            if word.starts_with(b"streamtyped") || word.starts_with(b"typedstream") => Some(
            Form::TypedStream,
        ),
        _ => None,
    }
}

/// Returns how a binary property list was changed that is one again as a text.
fn recoded(front: &[u8]) -> Damage {
    if front.starts_with(&[0xef, 0xbb, 0xbf]) {
        Damage::ByteOrderMark
    } else {
        Damage::Utf16
    }
}

/// Returns the characters of a text without its byte order mark, one byte each, whether the text is in UTF-8 or UTF-16.
/// What is not ASCII is a byte of 0x80 or more.
fn narrowed<'a>(front: &[u8], into: &'a mut [u8; SAMPLE]) -> &'a [u8] {
    let (text, is_wide, is_little) = match front {
        [0xef, 0xbb, 0xbf, text @ ..] => (text, false, false),
        [0xfe, 0xff, text @ ..] => (text, true, false),
        [0xff, 0xfe, text @ ..] => (text, true, true),
        [0, _, 0, _, ..] => (front, true, false),
        [_, 0, _, 0, ..] => (front, true, true),
        _ => (front, false, false),
    };
    let size = if is_wide { 2 } else { 1 };
    let count = text.len().div_ceil(size).min(SAMPLE);
    for (place, octets) in into.iter_mut().zip(text.chunks(size)) {
        *place = match octets {
            [octet] if !is_wide => *octet,
            [0, low] if !is_little => *low,
            [low, 0] if is_little => *low,
            _ => NOT_ASCII,
        };
    }
    &into[..count]
}

fn is_blank(octet: u8) -> bool {
    matches!(octet, 9..=13 | b' ')
}

fn form_of_text(text: &[u8]) -> Option<Form> {
    if text.starts_with(BASE64) {
        return Some(Form::Base64);
    }
    match text {
        [b'<', ..] => form_of_markup(text),
        [b'{', rest @ ..] => Some(form_of_braces(rest)),
        [b'[', rest @ ..] => form_of_brackets(rest),
        [b'(' | b'"', ..] | [b'/', b'/' | b'*', ..] => Some(Form::OldStyle),
        _ if is_assignment(text) => Some(Form::OldStyle),
        _ => None,
    }
}

/// The text begins with `<`. The word `plist` tells a property list from other XML, but an HTML page may have it too.
fn form_of_markup(text: &[u8]) -> Option<Form> {
    if begins_with(text, b"<!doctype html") || begins_with(text, b"<html") {
        return Some(Form::Html);
    }
    let has_plist = text.windows(5).any(|word| word == b"plist".as_slice());
    match text {
        [b'<', b'?' | b'!' | b'p', ..] if has_plist => Some(Form::Xml),
        [b'<', b'?', b'x', b'm', b'l', ..] => Some(Form::OtherXml),
        _ => None,
    }
}

/// The word is in lower case. The text may be in any case.
fn begins_with(text: &[u8], word: &[u8]) -> bool {
    text.len() >= word.len()
        && text
            .iter()
            .zip(word)
            .all(|(a, b)| a.to_ascii_lowercase() == *b)
}

/// In JSON a text in quotes and a colon follow the brace. All else may be old-style too.
fn form_of_braces(rest: &[u8]) -> Form {
    if let [b'"', key @ ..] = rest.trim_ascii_start() {
        if let [b':', ..] = behind_quote(key).trim_ascii_start() {
            return Form::Json;
        }
    }
    Form::OldStyleOrJson
}

/// An array of JSON. A line of other texts may begin with a bracket and a word.
fn form_of_brackets(rest: &[u8]) -> Option<Form> {
    match rest.trim_ascii_start() {
        [b'{' | b'[' | b']' | b'"' | b'-' | b'0'..=b'9', ..] => Some(Form::Json),
        _ => None,
    }
}

fn behind_quote(text: &[u8]) -> &[u8] {
    match text.iter().position(|octet| *octet == b'"') {
        Some(at) => &text[at + 1..],
        None => &[],
    }
}

/// True if a text begins as many files of strings do: a word, an equals sign and a text in quotes, with a semicolon
/// behind.
fn is_assignment(text: &[u8]) -> bool {
    let word = text.iter().take_while(|octet| is_word(**octet)).count();
    let [b'=', value @ ..] = text[word..].trim_ascii_start() else {
        return false;
    };
    let [b'"', value @ ..] = value.trim_ascii_start() else {
        return false;
    };
    word > 0 && matches!(behind_quote(value).trim_ascii_start(), [b';', ..])
}

fn is_word(octet: u8) -> bool {
    octet.is_ascii_alphanumeric() || matches!(octet, b'_' | b'.' | b'-' | b'$')
}
