//! Reads the command line with `clap`.

ghost use Rattle.std.specs.Prelude.{◌≡◌, IfOk, codes, option_map};
ghost use Rattle.clap.specs.Matches.{first_value, found_of};
ghost use Rattle.bplint.specs.CommandLines.{IsAskOf, IsDepth, IsFlag, IsListed, IsShown, IsStyle};

use crate::args::{Ask, Choice, Line, Lint, Printed, Run};
use crate::output::Replaces;
use crate::reasons::prefix_of;
use crate::rule_words::{no_rule, rule_in};
use crate::subcommands::bplint;
use bplint_engine::{Branch, Depth, Form, Listed, Values};
use bplint_lines::Style;
use clap::error::ErrorKind;
use clap::{ArgMatches, Error};
use std::alloc::{AllocError, Global};

/// Reads a command line, or returns the error of `clap`.
///
/// `on_terminal` says whether standard error is a terminal.
pub fn read_line<'a>(
    alloc: Global,
    words: &'a [String],
    on_terminal: bool,
) -> Result<Line<'a>, Error> {
    let matches = bplint(alloc)?.try_get_matches_from(words)?;
    match matches.subcommand() {
        Some((name, below)) => line_of(alloc, name, below, on_terminal),
        // clap has already refused this, because of `subcommand_required`.
        None => Err(refusal(
            alloc,
            ErrorKind::MissingSubcommand,
            "no subcommand was given",
        )?),
    }
}

/// Returns what reads a file without a certificate, for a command line that may lack one: a line, or the empty text.
pub fn tip_for(words: &[String], error: &Error) -> &'static str {
    match (error.kind(), words) {
        (ErrorKind::MissingRequiredArgument, [_, verb, ..]) => match verb.as_str() {
            "get" => "tip: without a certificate: bplint show FILE PATH\n",
            "print" => "tip: without a certificate: bplint show --text FILE PATH\n",
            _ => "",
        },
        _ => "",
    }
}

fn line_of<'a>(
    alloc: Global,
    name: &str,
    matches: &ArgMatches<'a>,
    on_terminal: bool,
) -> Result<Line<'a>, Error> {
    let explain = explains(matches, on_terminal);
    match name {
        "lint" => Ok(Line::Lint(lint_of(alloc, matches, explain)?)),
        "explain" => explain_of(alloc, matches.get_strs("WORD").unwrap_or(&[])),
        _ => Ok(Line::Run(run_of(alloc, name, matches, explain)?)),
    }
}

/// Without `--explain` there are lines below a fault if a person reads it on a terminal.
fn explains(matches: &ArgMatches<'_>, on_terminal: bool) -> bool {
    match matches.get_str("explain") {
        Some("always") => true,
        Some("never") => false,
        _ => on_terminal,
    }
}

fn lint_of<'a>(alloc: Global, matches: &ArgMatches<'a>, explain: bool) -> Result<Lint<'a>, Error> {
    let lint = Lint {
        files: matches.get_strs("FILE").unwrap_or(&[]).to_vec(alloc)?,
        list: matches.get_str("files-from"),
        choice: choice_in(matches),
        printed: printed_in(matches),
        zero: matches.get_flag("null"),
        summary: matches.get_flag("summary"),
        named: matches.get_flag("with-filename"),
        explain,
    };
    if lint.zero && lint.list.is_none() && !matches.get_flag("list") {
        let message = "--null needs --list or --files-from";
        return Err(refusal(alloc, ErrorKind::MissingRequiredArgument, message)?);
    }
    let many = lint.files.len() != 1 || lint.list.is_some() || lint.choice.recursive;
    Ok(Lint {
        named: lint.named || many,
        ..lint
    })
}

fn choice_in(matches: &ArgMatches<'_>) -> Choice {
    Choice {
        hex: matches.get_flag("hex"),
        recursive: matches.get_flag("recursive"),
        all: matches.get_flag("all"),
        skip_other: matches.get_flag("skip-other"),
    }
}

fn printed_in(matches: &ArgMatches<'_>) -> Printed {
    if matches.get_flag("json") {
        return Printed::Json;
    }
    if matches.get_flag("list") {
        return Printed::Names;
    }
    if matches.get_flag("quiet") {
        return Printed::Faults;
    }
    Printed::Lines
}

fn explain_of<'a>(alloc: Global, words: &[&str]) -> Result<Line<'a>, Error> {
    match rule_in(alloc, words)? {
        Some(rule) => Ok(Line::Explain(rule)),
        None => Err(refusal(alloc, ErrorKind::InvalidValue, &no_rule(alloc, words)?)?),
    }
}

fn run_of<'a>(
    alloc: Global,
    name: &str,
    matches: &ArgMatches<'a>,
    explain: bool,
) -> Result<Run<'a>, Error>
    ensures asks { IfOk result (λ run. IsAskOf matches.now name.now run.ask) }
    ensures hex { IfOk result (λ run. IsFlag matches.now (codes "hex") run.hex) }
    ensures cert { IfOk result (λ run. option_map (λ cert. cert.now) run.cert
        ≡ first_value (found_of matches.now) (codes "CERT")) }
{
    let file = matches.get_str("FILE").unwrap_or("");
    Ok(Run {
        ask: ask_of(alloc, name, matches)?,
        file,
        files_from: matches.get_str("files-from"),
        cert: matches.get_str("CERT"),
        out: matches.get_str("OUT").unwrap_or("-"),
        replaces: replaces_in(matches),
        hex: matches.get_flag("hex"),
        prefix: prefix_of(alloc, file, matches.get_flag("with-filename"))?,
        paths_from: matches.get_str("paths-from"),
        most: matches.get_one::<u64>("BYTES"),
        explain,
    })
}

fn replaces_in(matches: &ArgMatches<'_>) -> Replaces {
    if matches.get_flag("force") {
        return Replaces::All;
    }
    if matches.get_flag("hex") {
        return Replaces::HexCertificates;
    }
    Replaces::Certificates
}

fn ask_of<'a>(alloc: Global, name: &str, matches: &ArgMatches<'a>) -> Result<Ask<'a>, Error>
    ensures { IfOk result (IsAskOf matches.now name.now) }
{
    match name {
        "certify" => Ok(Ask::Certify {
            sorted: matches.get_flag("sorted"),
        }),
        "check" => Ok(Ask::Check),
        "get" => Ok(Ask::Get {
            paths: all_paths(alloc, matches.get_strs("PATH").unwrap_or(&[]))?,
        }),
        "print" => Ok(Ask::Print {
            path: path_in(matches),
            limit: limit_in(matches),
        }),
        "show" => show_of(alloc, matches),
        "ls" => ls_of(alloc, matches),
        "map" => Ok(Ask::Map {
            paths: matches.get_flag("paths"),
        }),
        _ => Ok(Ask::Textconv),
    }
}

/// With `--text` or `--raw` there is at most one path. Without them no path means the empty one, which is the whole
/// value.
fn show_of<'a>(alloc: Global, matches: &ArgMatches<'a>) -> Result<Ask<'a>, Error>
    ensures { IfOk result (IsShown matches.now) }
{
    let (text, raw) = (matches.get_flag("text"), matches.get_flag("raw"));
    let mut operands = operands_in(alloc, matches)?;
    if operands.is_empty() {
        operands.push("")?;
    }
    let path = operands.first().copied().unwrap_or("");
    if (text || raw) && operands.len() > 1 {
        let message = "--text and --raw take one PATH";
        return Err(refusal(alloc, ErrorKind::TooManyValues, message)?);
    }
    if raw {
        return Ok(Ask::Raw { path });
    }
    if text {
        let limit = limit_in(matches);
        return Ok(Ask::Text { path, limit });
    }
    let paths = all_paths(alloc, &operands)?;
    if matches.get_flag("readable") {
        return Ok(Ask::Readable { paths });
    }
    let style = style_in(matches);
    Ok(Ask::Show { paths, style })
}

/// Returns the PATHs. With `--files-from` there is no FILE, and the first operand is a PATH.
fn operands_in<'a>(alloc: Global, matches: &ArgMatches<'a>) -> Result<Vec<&'a str>, AllocError> {
    let mut operands = Vec::new(alloc);
    if matches.get_str("files-from").is_some() {
        if let Some(first) = matches.get_str("FILE") {
            operands.push(first)?;
        }
    }
    operands.extend_from_slice(matches.get_strs("PATH").unwrap_or(&[]))?;
    Ok(operands)
}

fn ls_of<'a>(alloc: Global, matches: &ArgMatches<'a>) -> Result<Ask<'a>, Error>
    ensures { IfOk result (IsListed matches.now) }
{
    let operands = operands_in(alloc, matches)?;
    if operands.len() > 1 {
        let message = "--files-from takes the place of FILE";
        return Err(refusal(alloc, ErrorKind::TooManyValues, message)?);
    }
    let path = operands.first().copied().unwrap_or("");
    let sorted = matches.get_flag("sort");
    let depth = depth_in(matches);
    match form_in(matches) {
        Form::Lines(Values::Exact(style)) if !sorted => Ok(match depth {
            Depth::All(limit) => Ask::Tree(Branch { path, limit, style }),
            Depth::Members => Ask::List { path, style },
        }),
        form => Ok(Ask::Rows(Listed {
            path,
            depth,
            form,
            sorted,
        })),
    }
}

/// A tree is that of the whole value.
fn depth_in(matches: &ArgMatches<'_>) -> Depth
    ensures { IsDepth matches.now result }
{
    if matches.get_flag("recursive") || matches.get_flag("tree") {
        return Depth::All(limit_in(matches));
    }
    Depth::Members
}

fn form_in(matches: &ArgMatches<'_>) -> Form {
    let values = if matches.get_flag("readable") {
        Values::Readable
    } else {
        Values::Exact(style_in(matches))
    };
    if matches.get_flag("json") {
        return Form::Json;
    }
    if matches.get_flag("objects") {
        return Form::Columns(values);
    }
    if matches.get_flag("tree") {
        return Form::Tree;
    }
    Form::Lines(values)
}

fn style_in(matches: &ArgMatches<'_>) -> Style
    ensures { IsStyle matches.now result }
{
    if matches.get_flag("utf8") {
        return Style::Utf8;
    }
    Style::OldStyle
}

fn all_paths(alloc: Global, texts: &[&str]) -> Result<Vec<String>, AllocError> {
    let mut paths = Vec::new(alloc);
    for text in texts {
        paths.push(String::from_str(alloc, text)?)?;
    }
    Ok(paths)
}

/// Without a PATH it is the empty one, for the whole value.
fn path_in<'a>(matches: &ArgMatches<'a>) -> &'a str {
    matches.get_str("PATH").unwrap_or("")
}

fn limit_in(matches: &ArgMatches<'_>) -> u64 {
    matches.get_one::<u64>("LIMIT").unwrap_or(0)
}

/// `clap` does not find such an error by itself.
fn refusal(alloc: Global, kind: ErrorKind, message: &str) -> Result<Error, AllocError> {
    let mut command = bplint(alloc)?;
    command.error(kind, message)
}
