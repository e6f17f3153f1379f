//! The rules in plain words, as `bplint explain` prints them.

ghost use Rattle.std.specs.Prelude.{◌≡◌, ◌<◌, ℕ, List, [], get_or, length, map};
ghost use Rattle.bplist_objects.specs.RuleTexts.{text_of};

use crate::rule::{Rule, rule_number};

/// For each rule, in the order of their numbers: a sentence that says what it requires, and an example that breaks it.
static TEXTS: [(&str, &str); 32] = [
    (
        "A file has at most 4294967295 bytes.",
        "a file of 4294967296 bytes, place 4294967296",
    ),
    (
        "A file has at least 41 bytes: a header of 8, an object and a trailer of 32.",
        "a file of 40 bytes, place 40",
    ),
    (
        "A file begins with the eight bytes bplist00.",
        "a file that begins with bplist15, place 6",
    ),
    (
        "The trailer gives one object or more.",
        "bytes 8 to 15 of the trailer are 0",
    ),
    (
        "The number of the top object is below the number of objects.",
        "one object and the top 1",
    ),
    (
        "The offset table begins at place 9 or later, behind the header and an object.",
        "a trailer that puts the table at place 8",
    ),
    (
        "The offset table begins before the trailer, the last 32 bytes.",
        "a file of 42 bytes with the table at place 10",
    ),
    (
        "An entry of the offset table has 1 to 8 bytes.",
        "byte 6 of the trailer is 0 or 9",
    ),
    (
        "A reference has 1 to 8 bytes.",
        "byte 7 of the trailer is 0 or 9",
    ),
    (
        "The offset table and the trailer end exactly at the end of the file.",
        "two entries of one byte each in a table of three bytes",
    ),
    (
        "References are wide enough for the number of objects.",
        "256 objects and references of one byte",
    ),
    (
        "Entries of the offset table are wide enough for the place of the table.",
        "a table at place 256 and entries of one byte",
    ),
    (
        "Each entry of the offset table leads to a place before the table.",
        "a table at place 9 and an entry 9",
    ),
    (
        "An object begins at place 8 or later, behind the header.",
        "an entry 7",
    ),
    (
        "An object begins with a byte that marks a kind.",
        "an object that begins with 0f or 70",
    ),
    (
        "If the marker of data, a text or a container ends in f, its count follows as an integer of 1, 2, 4, 8 or 16 bytes.",
        "data that begins with 4f 15",
    ),
    (
        "An object ends before the offset table.",
        "data of five bytes, two bytes before the table",
    ),
    (
        "Every byte of an ASCII text is below 0x80.",
        "the text 51 e9",
    ),
    ("A UID is at most 4294967295.", "the UID 84 01 00 00 00 00"),
    (
        "A reference is the number of an object, below the number of objects.",
        "an array a1 05 in a file of two objects",
    ),
    (
        "The keys of a dictionary are texts.",
        "a dictionary whose key is the integer 5",
    ),
    (
        "The keys of a dictionary differ.",
        "a dictionary with the key a twice",
    ),
    (
        "No chain of references that begins at the top comes back to an object of the chain.",
        "an array that is its own member",
    ),
    (
        "A certificate begins with the eight bytes bplcert1 or bplcert2.",
        "a certificate that begins with bplcert3",
    ),
    (
        "A certificate has as many bytes as its version and its number of heights ask for.",
        "bplcert1, the number 2 and one height",
    ),
    (
        "A certificate has one height for each object of the file.",
        "one height for a file of two objects",
    ),
    (
        "The height of the top object is 1 or more.",
        "the heights 0 1 for a file with the top 0",
    ),
    (
        "What an object of height 1 or more refers to has a height of 1 or more.",
        "the heights 2 0 for an array of object 1",
    ),
    (
        "What an object of height 1 or more refers to has a smaller height.",
        "the heights 1 1 for an array of object 1",
    ),
    (
        "A path is empty or begins with /. Each ~ in it is followed by 0 or 1.",
        "the path text a/b, or /a~2",
    ),
    (
        "Together the objects fit between the header and the offset table. lint adds up the reachable objects, check those of height 1 or more.",
        "two objects that lie over one another and fill the file",
    ),
    (
        "The key list of a dictionary is wholly there, and names the dictionary's keys in ascending order.",
        "the key list 1 0 for the keys a and b",
    ),
];

/// Returns a sentence that says what the rule requires, and an example that breaks it.
pub fn texts_of(rule: Rule) -> (&'static str, &'static str)
    ensures asked { result.0.now ≡ (text_of rule).0 }
    ensures broken { result.1.now ≡ (text_of rule).1 }
{
    row_at(&TEXTS, rule_number(rule) as usize - 1)
}

/// The table is a parameter, because a constant would be copied into the function that indexes it.
fn row_at(
    rows: &'static [(&'static str, &'static str)],
    index: usize,
) -> (&'static str, &'static str)
    requires { index < length rows.now }
    ensures asked { result.0.now ≡ (get_or {A = List ℕ × List ℕ} (map (λ row. (row.0.now, row.1.now)) rows.now) index ([], [])).0 }
    ensures broken { result.1.now ≡ (get_or {A = List ℕ × List ℕ} (map (λ row. (row.0.now, row.1.now)) rows.now) index ([], [])).1 }
{
    rows[index]
}
