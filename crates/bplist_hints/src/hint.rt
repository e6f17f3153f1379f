//! The hints, and their words.

use std::alloc::{AllocError, Global};

/// What a file looks like that is not a sound binary property list.
#[derive(Clone, Copy, Debug, PartialEq, Eq, Drop)]
pub enum Hint {
    /// Something else.
    Form(Form),
    /// A binary property list that was damaged.
    Damage(Damage),
}

/// What a file is in place of a binary property list.
#[derive(Clone, Copy, Debug, PartialEq, Eq, Drop)]
pub enum Form {
    /// A file without a byte.
    Empty,
    /// A text of blanks alone.
    Blank,
    /// All bytes are zero.
    Zeros,
    /// All bytes that were looked at are zero: the first ones, and 1 MiB at the end.
    ZeroEnds,
    /// XML that names a property list at its beginning.
    Xml,
    /// XML of another kind.
    OtherXml,
    /// A text property list of the old style.
    OldStyle,
    /// A text in braces, which both have.
    OldStyleOrJson,
    /// JSON.
    Json,
    /// An HTML page.
    Html,
    /// A binary property list in base64.
    Base64,
    /// A file that gzip packed.
    Gzip,
    /// A nib file that is no property list.
    NibArchive,
    /// What NSArchiver wrote before there were keyed archives, as in old nib files.
    TypedStream,
    /// The binary format bplist15.
    Bplist15,
    /// The binary format bplist16.
    Bplist16,
    /// The binary format bplist17.
    Bplist17,
}

/// How a binary property list was damaged.
#[derive(Clone, Copy, Debug, PartialEq, Eq, Drop)]
pub enum Damage {
    /// The byte order mark of UTF-8 stands before it.
    ByteOrderMark,
    /// Its bytes were taken for characters, and written as UTF-16.
    Utf16,
    /// The same, written as UTF-8.
    Utf8,
    /// Each line feed became a carriage return and a line feed.
    LineEnds,
    /// Its last 32 bytes are no trailer, or there is no room for one.
    CutShort,
    /// By its trailer the offset table needs `table` bytes, and there is room for `room`.
    TableCut { table: u128, room: u64 },
    /// By its trailer there are `extra` bytes between the offset table and the trailer.
    TableShort { extra: u128 },
    /// Behind a trailer at place `trailer` there are `extra` bytes.
    TooMany { extra: u64, trailer: u64 },
    /// Behind a trailer at place `trailer` there are `zeros` bytes, all zero.
    ZerosBehind { zeros: u64, trailer: u64 },
    /// The last `zeros` bytes are zero, and no trailer stands before them.
    ZerosInstead { zeros: u64 },
    /// The last MiB is zero.
    ManyZeros,
}

impl Hint {
    /// True if the file looks like a form that a file may have in place of a binary property list: XML, an old-style
    /// text, a NIBArchive or a typed stream. JSON and HTML are no such forms.
    pub fn is_other_form(self) -> bool {
        match self {
            Hint::Form(form) => matches!(
                form,
                Form::Xml
                    | Form::OtherXml
                    | Form::OldStyle
                    | Form::OldStyleOrJson
                    | Form::NibArchive
                    | Form::TypedStream
            ),
            Hint::Damage(_) => false,
        }
    }

    /// True if the file is empty or blank, as a file of strings without a string is.
    pub fn is_blank(self) -> bool {
        matches!(self, Hint::Form(Form::Empty | Form::Blank))
    }

    /// Returns the hint in words, as they stand behind `looks like:`.
    pub fn words(self, alloc: Global) -> Result<String, AllocError> {
        match self {
            Hint::Form(form) => String::from_str(alloc, form.words()),
            Hint::Damage(damage) => damage.words(alloc),
        }
    }
}

impl Form {
    fn words(self) -> &'static str {
        match self {
            Form::Empty => "an empty file",
            Form::Blank => "blanks alone",
            Form::Zeros => "zeros alone",
            Form::ZeroEnds => "zeros, in the first 4096 bytes and in the last 1048576",
            Form::Xml => "an XML property list",
            Form::OtherXml => "XML text",
            Form::OldStyle => "an old-style text property list",
            Form::OldStyleOrJson => "an old-style text property list, or JSON",
            Form::Json => "JSON",
            Form::Html => "an HTML page",
            Form::Base64 => "a binary property list in base64",
            Form::Gzip => "a file that gzip packed",
            Form::NibArchive => "a NIBArchive, another form of a nib file",
            Form::TypedStream => "a typed stream, as NSArchiver writes it",
            Form::Bplist15 => "bplist15, another binary format",
            Form::Bplist16 => "bplist16, another binary format",
            Form::Bplist17 => "bplist17, another binary format",
        }
    }
}

impl Damage {
    fn words(self, alloc: Global) -> Result<String, AllocError> {
        match self {
            Damage::ByteOrderMark => String::from_str(
                alloc,
                "a binary property list after a byte order mark",
            ),
            Damage::Utf16 => String::from_str(alloc, "bytes re-coded as UTF-16"),
            Damage::Utf8 => String::from_str(alloc, "bytes re-coded as UTF-8"),
            Damage::LineEnds => String::from_str(alloc, "line ends changed from LF to CR LF"),
            Damage::CutShort => String::from_str(alloc, "a file cut short: the trailer is missing"),
            Damage::TableCut { table, room } => format!(in alloc;
                "a file cut short: the offset table would need {table} bytes, and there are {room}"
            ),
            Damage::TableShort { extra } => format!(in alloc;
                "{extra} byte{} between the offset table and the trailer",
                plural(extra)
            ),
            Damage::TooMany { extra, trailer } => format!(in alloc;
                "{extra} byte{} too many after a trailer at {trailer}",
                plural(u128::from(extra))
            ),
            Damage::ZerosBehind { zeros, trailer } => format!(in alloc;
                "{zeros} zero{} at the end, after a trailer at {trailer}",
                plural(u128::from(zeros))
            ),
            Damage::ZerosInstead { zeros } => format!(in alloc;
                "{zeros} zero{} at the end, and no trailer before",
                plural(u128::from(zeros))
            ),
            Damage::ManyZeros => String::from_str(alloc, "1048576 zeros or more at the end"),
        }
    }
}

fn plural(count: u128) -> &'static str {
    if count == 1 { "" } else { "s" }
}
