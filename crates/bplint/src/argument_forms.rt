//! How arguments are given, and what `clap` is told of each.

use clap::{Arg, ArgAction, value_parser};
use std::alloc::{AllocError, Global};

/// How an argument is given.
#[derive(Clone, Copy)]
pub(crate) enum Form {
    /// `--name`.
    Flag,
    /// `--name`, or `-` and this letter.
    Short(char),
    /// The same, but not together with another flag.
    ShortWithout(char, &'static str),
    /// `--name` with two letters, of which help names the first.
    Letters(char, char),
    /// The same, but not together with another flag.
    LettersWithout(char, char, &'static str),
    /// `--name`, but not together with these others.
    Without(&'static [&'static str]),
    /// `--limit N`, which needs another flag, and the default for N.
    Limit(&'static str, &'static str),
    /// `--NAME N`, with this name.
    Most(&'static str),
    /// `--name`, or `--name=WHEN` for one of three words.
    When,
    /// `--name`, which needs another flag.
    With(&'static str),
    /// `--name LIST`: the name of a list.
    List,
    /// The same, but not together with these others.
    ListWithout(&'static [&'static str]),
    /// A required text.
    One,
    /// The same, but not required with this flag.
    OneUnless(&'static str),
    /// A required text that may be repeated.
    Many,
    /// The same, but not required with this flag.
    ManyUnless(&'static str),
    /// An optional text.
    Maybe,
    /// An optional text that may be repeated.
    Any,
    /// A required number.
    Number,
}

/// An argument, as it is in the tables.
pub(crate) struct Argument {
    /// The name of the flag or operand.
    pub(crate) name: &'static str,
    pub(crate) form: Form,
    /// Its help text.
    pub(crate) help: &'static str,
}

impl Argument {
    /// Converts the argument for `clap`.
    pub(crate) fn to_arg<'a>(&self, alloc: Global) -> Result<Arg<'a>, AllocError> {
        let name = self.name;
        let arg = Arg::new(alloc, name).help(self.help);
        match self.form {
            Form::Flag => Ok(flag(arg, name)),
            Form::Short(letter) => Ok(flag(arg, name).short(letter)),
            Form::ShortWithout(letter, other) => {
                flag(arg, name).short(letter).conflicts_with(other)
            }
            Form::Letters(first, second) => flag(arg, name).short(first).short_alias(second),
            Form::LettersWithout(first, second, other) => {
                let arg = flag(arg, name).short(first).short_alias(second)?;
                arg.conflicts_with(other)
            }
            Form::With(other) => flag(arg, name).requires_arg(other),
            Form::Without(others) => flag(arg, name).conflicts_with_all(others),
            Form::Limit(with, default) => limit(arg.default_value(default), with),
            Form::Most(long) => Ok(arg.long(long).value_parser(value_parser!(u64))),
            Form::When => Ok(when(arg, name)),
            Form::List => Ok(list(arg, name)),
            Form::ListWithout(others) => list(arg, name).conflicts_with_all(others),
            Form::One => Ok(arg.required(true)),
            Form::OneUnless(other) => arg.required_unless_present(other),
            Form::Many => Ok(many(arg).required(true)),
            Form::ManyUnless(other) => many(arg).required_unless_present(other),
            Form::Maybe => Ok(arg),
            Form::Any => Ok(many(arg)),
            Form::Number => Ok(arg.required(true).value_parser(value_parser!(u64))),
        }
    }
}

fn flag<'a>(arg: Arg<'a>, name: &'a str) -> Arg<'a> {
    arg.long(name).action(ArgAction::SetTrue)
}

fn list<'a>(arg: Arg<'a>, name: &'a str) -> Arg<'a> {
    arg.long(name).value_name("LIST")
}

fn many<'a>(arg: Arg<'a>) -> Arg<'a> {
    arg.num_args(1..).action(ArgAction::Append)
}

fn when<'a>(arg: Arg<'a>, name: &'a str) -> Arg<'a> {
    arg.long(name)
        .value_name("WHEN")
        .value_parser(["always", "never", "auto"].as_slice())
        .num_args(0..=1)
        .require_equals(true)
        .default_missing_value("always")
        .default_value("auto")
}

fn limit<'a>(arg: Arg<'a>, with: &'a str) -> Result<Arg<'a>, AllocError> {
    arg.long("limit")
        .value_parser(value_parser!(u64))
        .requires_arg(with)
}
