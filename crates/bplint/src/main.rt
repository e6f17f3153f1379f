//! The program bplint: lints, checks and reads binary property lists. This crate has the command line, the inputs and
//! the outputs. What is written is proved or tested in `bplint_engine` and `bplint_lines`. The functions here pass it
//! on, and make the exit status of it: see `run_opened` and `Findings::add`.
//!
//! ```
//! $ bplint lint Info.plist
//! ok reached 15 height 3 top dict
//! ```
//!
//! The modules, in reading order:
//!
//! | module | contents |
//! |---|---|
//! | `subcommands` | the table of subcommands, and the `clap` command line that is made of it |
//! | `arguments`, `argument_forms` | their arguments, and how each is given |
//! | `words`, `args`, `command_line` | the words of a command line, what they ask for, and how they are read |
//! | `input` | FILE and CERT: opened once, and then read by place or as a whole |
//! | `lists` | lists of paths |
//! | `rule_words` | the words that `explain` takes for a rule |
//! | `input_fault` | why an input cannot be read |
//! | `run` | what is asked about one FILE: each engine call is here |
//! | `listed_files` | the same about each FILE that a list names |
//! | `textconv`, `first_lines` | any file as text, and no more of it than is wanted |
//! | `output` | OUT, which is created when its first byte is written |
//! | `labels` | lines after the name of their file or their path |
//! | `ending` | the line of a fault, and the exit status |
//! | `reasons`, `unread` | the lines below a fault; inputs that could not be read |
//! | `linting`, `looks` | `lint` over several FILEs and folders, and which of the files there it lints |
//! | `findings`, `tally` | what `lint` says of each file, and the counts |
//! | `folders` | the entries of a folder, and file names in lines |
#![tactic(auto)]

ghost use Rattle.std.specs.Prelude.{◌≤◌};

mod args;
mod argument_forms;
mod arguments;
mod command_line;
mod ending;
mod findings;
mod first_lines;
mod folders;
mod input;
mod input_fault;
mod labels;
mod linting;
mod listed_files;
mod lists;
mod looks;
mod output;
mod reasons;
mod rule_words;
mod run;
mod subcommands;
mod tally;
mod textconv;
mod unread;
mod words;

use args::Line;
use bplint_lines::{RunFault, rule_text};
use bplist_objects::Rule;
use command_line::{read_line, tip_for};
use ending::{Ending, end, print_text, refuse, refuse_line};
use folders::{Folders, shown_name};
use linting::lint_files;
use listed_files::run_all;
use std::alloc::{AllocError, Global};
use std::fs::{File, Files};
use std::io::IsTerminal;
use std::os::fd::{AsRawFd, IntoRawFd};
use std::process::ExitCode;
use words::{WordFault, words_of};

/// Opens standard input, output and error on /dev/null if they are closed. Otherwise OUT could become one of them, and
/// hold what is said to standard error.
fn open_standard(rt: &HostRuntime) {
    for _ in 0..3 {
        match File::open(rt, "/dev/null") {
            Ok(file) if file.as_raw_fd() < 3 => {
                let _ = file.into_raw_fd();
            }
            _ => return,
        }
    }
}

fn explain<R: Files<File = File> + Print + Eprint>(rt: &R, alloc: Global, rule: Rule) -> u8
    ensures { result ≤ 4 }
{
    match rule_text(alloc, rule) {
        Ok(text) => print_text(rt, alloc, &text),
        Err(_) => end(rt, alloc, "", Ending::with(alloc, RunFault::Memory)),
    }
}

/// `on_terminal` says whether standard error is a terminal.
fn start<R: Files<File = File> + Folders + Input + Print + Eprint>(
    rt: &R,
    alloc: Global,
    words: &[String],
    on_terminal: bool,
) -> u8
    ensures { result ≤ 4 }
{
    match read_line(alloc, words, on_terminal) {
        Ok(Line::Lint(lint)) => lint_files(rt, alloc, &lint, on_terminal),
        Ok(Line::Run(line)) => run_all(rt, alloc, line),
        Ok(Line::Explain(rule)) => explain(rt, alloc, rule),
        Err(_) => refuse_words(rt, alloc, words, on_terminal),
    }
}

/// The words of a wrong command line may have characters that a line may not show. So it is read once more as it is
/// shown.
fn refuse_words<R: Files<File = File> + Print + Eprint>(
    rt: &R,
    alloc: Global,
    words: &[String],
    on_terminal: bool,
) -> u8
    ensures { result ≤ 4 }
{
    let Ok(shown) = shown_words(alloc, words) else {
        return end(rt, alloc, "", Ending::with(alloc, RunFault::Memory));
    };
    match read_line(alloc, &shown, on_terminal) {
        // The words are right, so memory was refused when they were read first.
        Ok(_) => end(rt, alloc, "", Ending::with(alloc, RunFault::Memory)),
        Err(error) => {
            let tip = tip_for(&shown, &error);
            let status = refuse(rt, alloc, error);
            let _ = rt.eprint(tip);
            status
        }
    }
}

fn shown_words(alloc: Global, words: &[String]) -> Result<Vec<String>, AllocError> {
    let mut shown = Vec::new(alloc);
    for word in words {
        shown.push(shown_name(alloc, word)?)?;
    }
    Ok(shown)
}

fn main(rt: HostRuntime) -> ExitCode {
    open_standard(&rt);
    let alloc = rt.alloc();
    let status = match words_of(&rt) {
        Ok(words) => start(&rt, alloc, &words, rt.stderr().is_terminal()),
        Err(WordFault::Memory) => end(&rt, alloc, "", Ending::with(alloc, RunFault::Memory)),
        Err(WordFault::NotUtf8(line)) => refuse_line(&rt, &line),
    };
    ExitCode::from(status)
}
