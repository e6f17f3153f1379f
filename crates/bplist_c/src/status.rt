//! What a call returns, and how it writes its outputs; the version, and the names and sentences of rules and statuses.
//!
//! A call returns 0, or the number of a status. A list goes to a buffer of the caller. The number of its items is told
//! even if the buffer is too short, so that the caller can try again with a longer one.

ghost use Rattle.std.specs.Prelude.{◌≡◌, ◌<◌, ◌⊎◌, MatchOption, Ok, ◌≢◌, ◌+◌, ◌*◌, ◌^◌, Option, codes, ok_or};
ghost use Rattle.std.specs.Prelude.{option_map};
ghost use Rattle.bplist_c.specs.Prelude.{status_number, PutsItems, Tells, items_of, sentence_of, NoRule, NoStatus};
ghost use Rattle.bplist_c.specs.Prelude.{Rule as rule_type, Status as status_type, number_of_rule, text_of, word_of};

use bplist_objects::{rule_name, rule_of_number, texts_of};
use std::alloc::AllocError;

/// The version, which is also that of the header.
const MAJOR: u32 = 0;

const MINOR: u32 = 5;

const PATCH: u32 = 0;

/// Why a call has no answer. The header numbers the statuses in this order.
#[derive(Clone, Copy, Drop)]
pub(crate) enum Status {
    /// A rule is broken.
    Fault,
    /// Memory was refused.
    Memory,
    /// The handle is closed.
    Closed,
    /// The handle to open is already open.
    Opened,
    /// The file has changed, or is not the one that was opened.
    OtherFile,
    /// The certificate does not vouch for the object: the number does not exist, or the certificate gives it no height.
    NoObject,
    /// The object is not of the kind that the call needs.
    OtherKind,
    /// The object has no such member.
    NoMember,
    /// The dictionary has no such key.
    NoKey,
    /// The step is not an index of the array.
    NoIndex,
    /// The value is neither a dictionary nor an array.
    NotSteppable,
    /// The path is not a JSON Pointer.
    PathText,
    /// The path is not UTF-8.
    NotUtf8,
    /// The buffer is too short.
    Short,
    /// The value has no old-style text.
    NoText,
    /// There is no rule with that number.
    NoRule,
    /// There is no status with that number.
    NoStatus,
    /// The text has no UTF-8, because a half of a surrogate pair stands alone.
    Unpaired,
}

impl Status {
    pub(crate) fn number(self) -> u32
        ensures { result ≡ status_number self }
    {
        self as u32 + 1
    }

    pub(crate) fn of_number(number: u32) -> Option<Status>
        ensures { MatchOption result ((number ≡ 0) ⊎ (18 < number)) (λ status. status_number status ≡ number) }
    {
        match number {
            1 => Some(Status::Fault),
            2 => Some(Status::Memory),
            3 => Some(Status::Closed),
            4 => Some(Status::Opened),
            5 => Some(Status::OtherFile),
            6 => Some(Status::NoObject),
            7 => Some(Status::OtherKind),
            8 => Some(Status::NoMember),
            9 => Some(Status::NoKey),
            10 => Some(Status::NoIndex),
            11 => Some(Status::NotSteppable),
            12 => Some(Status::PathText),
            13 => Some(Status::NotUtf8),
            14 => Some(Status::Short),
            15 => Some(Status::NoText),
            16 => Some(Status::NoRule),
            17 => Some(Status::NoStatus),
            18 => Some(Status::Unpaired),
            _ => None,
        }
    }

    pub(crate) fn sentence(self) -> &'static str
        ensures { result.now ≡ sentence_of self }
    {
        match self {
            Status::Fault => "The file or the certificate breaks a rule.",
            Status::Memory => "A growth of memory was refused.",
            Status::Closed => "The handle is closed.",
            Status::Opened => "The handle is open already.",
            Status::OtherFile => "The file has changed, or is not the one that was opened.",
            Status::NoObject => "The file has no checked object with that number.",
            Status::OtherKind => "The object is of another kind than the call asks for.",
            Status::NoMember => "The object has no such member.",
            Status::NoKey => "The dictionary has no such key.",
            Status::NoIndex => "The step of the path is not an index of the array.",
            Status::NotSteppable => "The value is neither a dictionary nor an array.",
            Status::PathText => "The path is not a JSON Pointer.",
            Status::NotUtf8 => "The path is not UTF-8.",
            Status::Short => "The buffer is too short.",
            Status::NoText => "The value has no old-style text.",
            Status::NoRule => "There is no rule with that number.",
            Status::NoStatus => "There is no status with that number.",
            Status::Unpaired =>
                "A half of a surrogate pair stands alone in the text, which has no UTF-8.",
        }
    }
}

impl From<AllocError> for Status {
    ghost use Rattle.bplist_c.specs.declared.status.Status.TheVariants.{Memory};

    ghost from_gives = { λ _ e. e ≡ Memory };

    fn from(_error: AllocError) -> Status {
        Status::Memory
    }
}

/// Returns 0, or why there is no answer: then `out` is unchanged.
pub(crate) fn tell<T: Drop>(answer: Result<T, Status>, out: &mut T) -> u32
    ensures { Tells answer out.old out.new result }
{
    match answer {
        Ok(found) => {
            *out = found;
            0
        }
        Err(status) => status.number(),
    }
}

/// Writes their number to `count` even if the items do not fit.
pub(crate) fn put_all<T: Copy>(items: &[T], buffer: &mut [T], count: &mut u64) -> u32
    ensures { PutsItems (Ok items.now) buffer.old buffer.new count.old count.new result }
{
    *count = items.len() as u64;
    if items.len() > buffer.len() {
        return Status::Short.number();
    }
    buffer[..items.len()].copy_from_slice(items);
    0
}

/// An answer without a list leaves everything unchanged.
pub(crate) fn put_answer<T: Copy>(
    answer: &Result<Vec<T>, Status>,
    buffer: &mut [T],
    count: &mut u64,
) -> u32
    ensures { PutsItems (items_of answer.now) buffer.old buffer.new count.old count.new result }
{
    match answer {
        Ok(items) => put_all(items, buffer, count),
        Err(status) => status.number(),
    }
}

/// Returns the version as one number.
#[unsafe(no_mangle)]
pub extern "C" fn bplist_version() -> u32
    ensures { result ≡ 0 * 2 ^ 16 + 5 * 2 ^ 8 + 0 }
{
    MAJOR << 16 | MINOR << 8 | PATCH
}

/// Writes the name of the rule with this number.
#[unsafe(no_mangle)]
pub extern "C" fn bplist_rule_name(rule: u32, name: &mut [u8], count: &mut u64) -> u32
    ensures { (found : Option rule_type) × MatchOption found ((rule ≡ 0) ⊎ (32 < rule)) (λ r. number_of_rule r ≡ rule)
        × PutsItems (ok_or (option_map word_of found) NoRule) name.old name.new count.old count.new result }
{
    match rule_of_number(rule) {
        Some(rule) => put_all(rule_name(rule).as_bytes(), name, count),
        None => Status::NoRule.number(),
    }
}

/// Writes what the rule with this number requires, as one sentence.
#[unsafe(no_mangle)]
pub extern "C" fn bplist_rule_text(rule: u32, text: &mut [u8], count: &mut u64) -> u32
    ensures { (found : Option rule_type) × MatchOption found ((rule ≡ 0) ⊎ (32 < rule)) (λ r. number_of_rule r ≡ rule)
        × PutsItems (ok_or (option_map (λ r. (text_of r).0) found) NoRule)
        text.old text.new count.old count.new result }
{
    match rule_of_number(rule) {
        Some(rule) => {
            let (demand, _) = texts_of(rule);
            put_all(demand.as_bytes(), text, count)
        }
        None => Status::NoRule.number(),
    }
}

/// Writes what the status with this number means, as one sentence.
#[unsafe(no_mangle)]
pub extern "C" fn bplist_status_text(status: u32, text: &mut [u8], count: &mut u64) -> u32
    ensures answered { status ≡ 0
        → PutsItems (Ok (codes "The answer is in the outputs.")) text.old text.new count.old count.new result }
    ensures other { status ≢ 0 → (found : Option status_type)
        × MatchOption found ((status ≡ 0) ⊎ (18 < status)) (λ s. status_number s ≡ status)
        × PutsItems (ok_or (option_map sentence_of found) NoStatus) text.old text.new count.old count.new result }
{
    if status == 0 {
        return put_all("The answer is in the outputs.".as_bytes(), text, count);
    }
    match Status::of_number(status) {
        Some(status) => put_all(status.sentence().as_bytes(), text, count),
        None => Status::NoStatus.number(),
    }
}
