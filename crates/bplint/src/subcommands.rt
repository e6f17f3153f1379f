//! The subcommands as tables, and the `clap` command line that is made of them.

use crate::argument_forms::Argument;
use crate::arguments::{
    ALL, ANY_PATHS, CERT, EXPLAIN, FILE, FILES, FILES_FROM, FINDINGS, FORCE, HEX, HEX_CERT,
    HEX_OUT, INDENTED, JSON, LIMIT, LIST, LIST_BYTES, MAP_PATHS, MAYBE_FILE, MAYBE_PATH,
    MORE_FILES, NULL, OBJECTS, OUT, PATH, PATHS, PATHS_FROM, QUIET, RAW, READABLE, RECURSIVE,
    SHOWN_READABLE, SHOWN_UTF8, SKIP_OTHER, SORT, SORTED, SUMMARY, TEXT, TEXT_LIMIT, TREE,
    TREE_LIMIT, UTF8, WITH_NAME, WORDS,
};
use clap::Command;
use std::alloc::{AllocError, Global};

/// The end of each help text: the exit statuses, and where to read about the rules.
const LINT_HELP: &str = "Example: bplint lint Info.plist
         bplint lint --recursive --quiet backup

With several FILEs, --files-from or --recursive each line begins with the name of its file, and the status is the greatest
of theirs. Below a folder links are not followed. A file there that does not begin with bplist is passed over, unless its
name ends in .plist, .strings, .stringsdict, .nib, .loctable, .webloc or .webarchive or --all is given. Other forms (XML,
old-style text, other forms of nib files, .strings without a string) are only counted.
Exit status: 0 yes, 1 a broken rule, 2 a wrong command line, 3 a failed read or write, 4 no memory.
The rules: man bplint, or docs/RULES.md.";

const CERTIFY_HELP: &str = "Example: bplint certify Info.plist Info.cert

A regular OUT is replaced only if it is empty or a certificate, unless --force is given.
Exit status: 0 yes, 1 a broken rule, 2 a wrong command line, 3 a failed read or write, 4 no memory.
The rules: man bplint, or docs/RULES.md.";

const CHECK_HELP: &str = "Example: bplint check Info.plist Info.cert

Exit status: 0 yes, 1 a broken rule, 2 a wrong command line, 3 a failed read or write, 4 no memory.
The rules: man bplint, or docs/RULES.md.";

const GET_HELP: &str =
    "Example: bplint get Info.plist Info.cert /CFBundleName /LSArchitecturePriority/0

Exit status: 0 yes, 1 a broken rule or a path that leads nowhere, 2 a wrong command line or path, 3 a failed read or
write, 4 no memory. The rules: man bplint, or docs/RULES.md.";

const PRINT_HELP: &str = "Example: bplint print Info.plist Info.cert /CFBundleName 1000

Exit status: 0 yes, 1 a broken rule, a path that leads nowhere or no text of that length, 2 a wrong command line or
path, 3 a failed read or write, 4 no memory. The rules: man bplint, or docs/RULES.md.";

const SHOW_HELP: &str = "Example: bplint show Info.plist /CFBundleName /LSArchitecturePriority/0
         bplint show --text Info.plist /CFBundleURLTypes
         bplint show --raw Info.plist /inner | bplint lint -
         bplint show --readable --files-from LIST /CFBundleName

Exit status: 0 yes, 1 a broken rule, a path that leads nowhere or no text of that length, 2 a wrong command line or
path, 3 a failed read or write, 4 no memory. The rules: man bplint, or docs/RULES.md.";

const LS_HELP: &str = "Example: bplint ls Info.plist /LSArchitecturePriority
         bplint ls --recursive Info.plist
         bplint ls --tree Info.plist

A line has a path, a tab and what lies there. Where no path leads, an index in brackets stands in place of the path.
Exit status: 0 yes, 1 a broken rule or a path that leads nowhere, 2 a wrong command line or path, 3 a failed read or
write, 4 no memory. The rules: man bplint, or docs/RULES.md.";

const MAP_HELP: &str = "Example: bplint map broken.plist

Tabs between six columns: place, end, object, kind, count, height. Where lint says no there are no heights; an object that
breaks a rule has the word of the rule.
Exit status: 0 yes, 1 a broken rule of 1 to 13, 2 a wrong command line, 3 a failed read or write, 4 no memory.
The rules: man bplint, or docs/RULES.md.";

const TEXTCONV_HELP: &str =
    "Example: git config diff.bplist.textconv \"bplint textconv\", and in .gitattributes *.plist diff=bplist

A sound binary property list is shown as ls --recursive --readable --sort lists it, and another one by its fault and its
first bytes in hexadecimal. Any other file is shown as it is.
Exit status: 0 the file could be read, 2 a wrong command line, 3 a failed read or write, 4 no memory.";

const EXPLAIN_HELP: &str = "Example: bplint explain KeyTwice
         bplint explain 22

Exit status: 0 yes, 2 no such rule, 3 a failed write, 4 no memory. All rules: man bplint, or docs/RULES.md.";

const HELP: &str = "Example: bplint lint Info.plist

Exit status: 0 yes, 1 no, 2 a wrong command line or path, 3 a failed read or write, 4 no memory.
The rules: man bplint, or docs/RULES.md.";

/// A subcommand, as it is in the table.
struct Subcommand {
    name: &'static str,
    /// Its line in the help of the program.
    about: &'static str,
    /// The end of its own help.
    help: &'static str,
    arguments: &'static [Argument],
}

/// The subcommand that lints.
static LINTING: [Subcommand; 1] = [Subcommand {
    name: "lint",
    about: "Says whether each FILE is a sound property list",
    help: LINT_HELP,
    arguments: &[
        HEX, QUIET, RECURSIVE, ALL, SKIP_OTHER, LIST, NULL, FILES_FROM, FINDINGS, SUMMARY,
        WITH_NAME, EXPLAIN, FILES,
    ],
}];

/// The subcommands that show a file or a rule.
static SHOWING: [Subcommand; 5] = [
    Subcommand {
        name: "show",
        about: "Prints what lies under each PATH, or the whole",
        help: SHOW_HELP,
        arguments: &[
            HEX,
            TEXT,
            TEXT_LIMIT,
            RAW,
            SHOWN_UTF8,
            SHOWN_READABLE,
            PATHS_FROM,
            MORE_FILES,
            WITH_NAME,
            EXPLAIN,
            MAYBE_FILE,
            ANY_PATHS,
        ],
    },
    Subcommand {
        name: "ls",
        about: "Lists the members of the value under PATH, or of the whole",
        help: LS_HELP,
        arguments: &[
            HEX, TREE, TREE_LIMIT, LIST_BYTES, JSON, OBJECTS, UTF8, READABLE, SORT, INDENTED,
            MORE_FILES, WITH_NAME, EXPLAIN, MAYBE_FILE, MAYBE_PATH,
        ],
    },
    Subcommand {
        name: "map",
        about: "Lists objects, gaps and overlaps of FILE in byte order",
        help: MAP_HELP,
        arguments: &[HEX, MAP_PATHS, WITH_NAME, EXPLAIN, FILE],
    },
    Subcommand {
        name: "textconv",
        about: "Shows FILE as text, whatever it is, for git diff",
        help: TEXTCONV_HELP,
        arguments: &[WITH_NAME, EXPLAIN, FILE],
    },
    Subcommand {
        name: "explain",
        about: "Says what the rule of WORD asks",
        help: EXPLAIN_HELP,
        arguments: &[WORDS],
    },
];

/// The subcommands with a certificate.
static CERTIFYING: [Subcommand; 4] = [
    Subcommand {
        name: "certify",
        about: "Writes a certificate of FILE to OUT",
        help: CERTIFY_HELP,
        arguments: &[HEX_OUT, SORTED, FORCE, WITH_NAME, EXPLAIN, FILE, OUT],
    },
    Subcommand {
        name: "check",
        about: "Checks a certificate of FILE",
        help: CHECK_HELP,
        arguments: &[HEX_CERT, WITH_NAME, EXPLAIN, FILE, CERT],
    },
    Subcommand {
        name: "get",
        about: "Prints what lies under each PATH, by a certificate",
        help: GET_HELP,
        arguments: &[HEX_CERT, PATHS_FROM, WITH_NAME, EXPLAIN, FILE, CERT, PATHS],
    },
    Subcommand {
        name: "print",
        about: "Prints the value under PATH as old-style text, by a certificate",
        help: PRINT_HELP,
        arguments: &[HEX_CERT, WITH_NAME, EXPLAIN, FILE, CERT, PATH, LIMIT],
    },
];

impl Subcommand {
    fn to_command<'a>(&self, alloc: Global) -> Result<Command<'a>, AllocError> {
        let mut command = Command::new(alloc, self.name)
            .about(self.about)
            .after_help(self.help);
        for argument in self.arguments {
            command = command.arg(argument.to_arg(alloc)?)?;
        }
        Ok(command)
    }
}

/// Makes the command line of the program.
pub fn bplint<'a>(alloc: Global) -> Result<Command<'a>, AllocError> {
    let command = Command::new(alloc, "bplint")
        .about("Lints, checks and reads binary property lists")
        .version("0.5.0")
        .after_help(HELP)
        .subcommand_required(true);
    let command = with_subcommands(alloc, command, linting())?;
    let command = with_subcommands(alloc, command, showing())?;
    with_subcommands(alloc, command, certifying())
}

// A proof that sees all texts of the tables at once takes too many steps. So each table has a call of its own.

fn linting() -> &'static [Subcommand] {
    &LINTING
}

fn showing() -> &'static [Subcommand] {
    &SHOWING
}

fn certifying() -> &'static [Subcommand] {
    &CERTIFYING
}

fn with_subcommands<'a>(
    alloc: Global,
    command: Command<'a>,
    table: &[Subcommand],
) -> Result<Command<'a>, AllocError> {
    let mut command = command;
    for subcommand in table {
        command = command.subcommand(subcommand.to_command(alloc)?)?;
    }
    Ok(command)
}
