//! The arguments of the subcommands.

use crate::argument_forms::{Argument, Form};

pub(crate) const HEX: Argument = Argument {
    name: "hex",
    form: Form::Short('x'),
    help: "FILE holds hexadecimal text",
};

pub(crate) const HEX_CERT: Argument = Argument {
    name: "hex",
    form: Form::Short('x'),
    help: "FILE and CERT hold hexadecimal text",
};

pub(crate) const HEX_OUT: Argument = Argument {
    name: "hex",
    form: Form::Short('x'),
    help: "FILE holds hexadecimal text, and OUT will",
};

pub(crate) const QUIET: Argument = Argument {
    name: "quiet",
    form: Form::Short('q'),
    help: "Print nothing for a sound file",
};

pub(crate) const RECURSIVE: Argument = Argument {
    name: "recursive",
    form: Form::LettersWithout('r', 'R', "hex"),
    help: "Lint the files below a FILE that is a folder: those that begin with bplist, or whose names end as usual",
};

pub(crate) const ALL: Argument = Argument {
    name: "all",
    form: Form::With("recursive"),
    help: "Below a folder, look at all regular files",
};

pub(crate) const SKIP_OTHER: Argument = Argument {
    name: "skip-other",
    form: Form::Flag,
    help: "Pass over a FILE in another form: XML, an old-style text, a nib that is none, .strings without a string",
};

pub(crate) const LIST: Argument = Argument {
    name: "list",
    form: Form::ShortWithout('l', "quiet"),
    help: "Print only the names of the files that are not sound",
};

pub(crate) const FINDINGS: Argument = Argument {
    name: "json",
    form: Form::Without(&["quiet", "list", "with-filename"]),
    help: "Print a JSON object for each file, whatever is found",
};

pub(crate) const JSON: Argument = Argument {
    name: "json",
    form: Form::Without(&["utf8", "readable"]),
    help: "Print a JSON object for each value",
};

pub(crate) const OBJECTS: Argument = Argument {
    name: "objects",
    form: Form::Without(&["json"]),
    help: "Add columns with the number and the place of each value's object",
};

pub(crate) const NULL: Argument = Argument {
    name: "null",
    form: Form::Short('0'),
    help: "End each name with a zero byte, in --list and in --files-from",
};

pub(crate) const FILES_FROM: Argument = Argument {
    name: "files-from",
    form: Form::List,
    help: "Lint the files that LIST names, one a line; - is standard input",
};

pub(crate) const MORE_FILES: Argument = Argument {
    name: "files-from",
    form: Form::ListWithout(&["raw"]),
    help: "Take the files that LIST names, one a line, in place of FILE, and begin each line with the name of its file",
};

pub(crate) const PATHS_FROM: Argument = Argument {
    name: "paths-from",
    form: Form::ListWithout(&["PATH", "text", "raw"]),
    help: "Take the paths that LIST has, one a line, and begin each line of the answer with its path",
};

pub(crate) const SUMMARY: Argument = Argument {
    name: "summary",
    form: Form::Flag,
    help: "Count at the end how many files were sound, not sound and unreadable",
};

pub(crate) const EXPLAIN: Argument = Argument {
    name: "explain",
    form: Form::When,
    help: "Say below a fault what is wrong, in which file and why: always, never, or auto if standard error is a terminal",
};

pub(crate) const WITH_NAME: Argument = Argument {
    name: "with-filename",
    form: Form::Short('H'),
    help: "Begin each line with the name of its file",
};

pub(crate) const FORCE: Argument = Argument {
    name: "force",
    form: Form::Flag,
    help: "Replace OUT even if it is no certificate",
};

pub(crate) const SORTED: Argument = Argument {
    name: "sorted",
    form: Form::Flag,
    help: "Write each dictionary's keys in sorted order too",
};

pub(crate) const TEXT: Argument = Argument {
    name: "text",
    form: Form::Flag,
    help: "Print the value under one PATH as old-style text",
};

pub(crate) const TEXT_LIMIT: Argument = Argument {
    name: "LIMIT",
    form: Form::Limit("text", "1048576"),
    help: "How many bytes of text to print at most, the line feed not counted",
};

pub(crate) const RAW: Argument = Argument {
    name: "raw",
    form: Form::Without(&["text", "LIMIT"]),
    help: "Write the bytes of data, the UTF-8 of a text, or the digits of a number",
};

pub(crate) const UTF8: Argument = Argument {
    name: "utf8",
    form: Form::Flag,
    help: UTF8_HELP,
};

pub(crate) const SHOWN_UTF8: Argument = Argument {
    name: "utf8",
    form: Form::Without(&["text", "raw"]),
    help: UTF8_HELP,
};

const UTF8_HELP: &str = "Write texts in UTF-8, in quotes if they are not plain";

pub(crate) const READABLE: Argument = Argument {
    name: "readable",
    form: Form::Flag,
    help: READABLE_HELP,
};

pub(crate) const SHOWN_READABLE: Argument = Argument {
    name: "readable",
    form: Form::Without(&["text", "raw"]),
    help: READABLE_HELP,
};

const READABLE_HELP: &str =
    "Write texts in UTF-8, dates and reals as people read them, and of long data the length and SHA-256";

pub(crate) const SORT: Argument = Argument {
    name: "sort",
    form: Form::Flag,
    help: "Sort the keys of each dictionary by their UTF-16 units",
};

pub(crate) const INDENTED: Argument = Argument {
    name: "tree",
    form: Form::Without(&["json", "objects"]),
    help: "Print the value and everything inside it as an indented tree",
};

pub(crate) const MAP_PATHS: Argument = Argument {
    name: "paths",
    form: Form::Flag,
    help: "Add a column with the shortest path to each object",
};

pub(crate) const TREE: Argument = Argument {
    name: "recursive",
    form: Form::Letters('R', 'r'),
    help: "List what is in the members too, each behind its container",
};

pub(crate) const TREE_LIMIT: Argument = Argument {
    name: "LIMIT",
    form: Form::Limit("recursive", "1000000"),
    help: "How many nodes to list at most",
};

pub(crate) const LIST_BYTES: Argument = Argument {
    name: "BYTES",
    form: Form::Most("limit-bytes"),
    help: "How many bytes of lines to write at most",
};

pub(crate) const FILE: Argument = Argument {
    name: "FILE",
    form: Form::One,
    help: FILE_HELP,
};

pub(crate) const MAYBE_FILE: Argument = Argument {
    name: "FILE",
    form: Form::OneUnless("files-from"),
    help: FILE_HELP,
};

pub(crate) const FILES: Argument = Argument {
    name: "FILE",
    form: Form::ManyUnless("files-from"),
    help: FILE_HELP,
};

const FILE_HELP: &str = "A binary property list, or - for standard input";

pub(crate) const CERT: Argument = Argument {
    name: "CERT",
    form: Form::One,
    help: "A certificate of FILE",
};

pub(crate) const OUT: Argument = Argument {
    name: "OUT",
    form: Form::One,
    help: "Where to write, or - for standard output",
};

pub(crate) const PATH: Argument = Argument {
    name: "PATH",
    form: Form::One,
    help: PATH_HELP,
};

pub(crate) const PATHS: Argument = Argument {
    name: "PATH",
    form: Form::ManyUnless("paths-from"),
    help: PATH_HELP,
};

pub(crate) const MAYBE_PATH: Argument = Argument {
    name: "PATH",
    form: Form::Maybe,
    help: PATH_HELP,
};

pub(crate) const ANY_PATHS: Argument = Argument {
    name: "PATH",
    form: Form::Any,
    help: PATH_HELP,
};

const PATH_HELP: &str = "A key path, as /key/0, or the empty text for the whole";

pub(crate) const LIMIT: Argument = Argument {
    name: "LIMIT",
    form: Form::Number,
    help: "How many bytes to print at most, the line feed not counted",
};

pub(crate) const WORDS: Argument = Argument {
    name: "WORD",
    form: Form::Many,
    help: "The word of a rule in any case, its number, or the line of a fault",
};
