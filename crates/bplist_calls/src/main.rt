//! The program bplist_calls: makes the calls of the library that no subcommand of bplint makes, and shows what calls
//! cost. It is a program for tests. Its functions are proved to be safe and to end, and nothing else.
//!
//! Without arguments, each line of standard input is one call: the file and the certificate in hexadecimal, the name of
//! the call, and its operands, separated by tabs. `=` means the file or certificate of the line before. Key paths are
//! in hexadecimal too. Each line of input gives one line of output.
//!
//! | call | answer |
//! |---|---|
//! | `size PATH` | the number of nodes, or `missing STEP WHY` |
//! | `keys PATH` | `keys`, and the units of each key in hexadecimal, `-` for none; or `nokeys`, or `missing STEP WHY` |
//! | `nodes N` | the number of nodes, or `none` |
//! | `form N` | `length` and the length, `noform`, or `none` |
//! | `member N I` | the number of the member's object, or `none` |
//! | `bytes_of N` | the place of the bytes, and the bytes in hexadecimal, `-` for no byte; or `none` |
//! | `references` | how many references the linter counts |
//!
//! With the argument `asked`, a line of output has the number of bytes that the call asks its source for, and the most
//! that is proved of it; or `-` if no bound is proved. For `form` the call also prints, and for `bytes_of` it reads the
//! face.
//!
//! With the argument `twice`, standard input is a file, and every call is made on it twice. With `counts`, standard
//! input is a file too, and the program counts the bytes that `lint`, `check` and `upgrade` ask for.
//!
//! The modules, in reading order:
//!
//! - `requests`, `answers`: lines of input, the calls they ask for, and the answers.
//! - `asked`, `bounds`: what these calls ask their source for, and the bounds that are proved.
//! - `repeated_calls`: every call twice.
//! - `counts`: what the calls that look at a whole file ask of it, and certificates that must be accepted.
#![tactic(auto)]

mod answers;
mod asked;
mod bounds;
mod counts;
mod repeated_calls;
mod requests;

use answers::answer_lines;
use anyhow::{Result, bail};
use asked::write_asked;
use counts::write_counts;
use repeated_calls::make_twice;
use requests::has_same_file;
use std::alloc::Global;
use std::io::{self, BufRead, BufReader, BufWriter, Read, Write};

/// Counts what the calls ask for instead of answering if `counts` is set.
fn answer_requests(rt: &HostRuntime, alloc: Global, counts: bool) -> Result<()> {
    let lines: Vec<String> = BufReader::new(alloc, rt.reader())?
        .lines(alloc)
        .try_collect(alloc)?;
    let mut out = BufWriter::new(alloc, io::writer(rt))?;
    for same in lines.chunk_by(|_, next| has_same_file(next)) {
        if counts {
            write_asked(alloc, same, &mut out)?;
        } else {
            answer_lines(alloc, same, &mut out)?;
        }
    }
    out.flush()?;
    Ok(())
}

fn main(rt: HostRuntime) -> Result<()> {
    let alloc = rt.alloc();
    let words: Vec<String> = std::env::args(&rt)?.collect(alloc)?;
    let Some(word) = words.get(1) else {
        return answer_requests(&rt, alloc, false);
    };
    if word.as_str() == "asked" {
        return answer_requests(&rt, alloc, true);
    }
    let mut file = Vec::new(alloc);
    rt.reader().read_to_end(&mut file)?;
    // Not buffered, so that each line is out before the next call begins.
    let mut out = io::writer(&rt);
    match word.as_str() {
        "twice" => make_twice(alloc, &file, &mut out),
        "counts" => write_counts(alloc, &file, &mut out),
        other => bail!("a word {other}"),
    }
}
