//! Arguments of the words.

use clap::builder::ValueParser;
use clap::{Arg, ArgAction};
use std::alloc::{AllocError, Global};

/// The names of the formats.
const FORMATS: &[&str] = &["pcap", "pcapng"];

/// An argument of a word: its name, what it takes, its help, and the arguments that it excludes.
pub(crate) type Row<'a> = (&'a str, Takes<'a>, &'a str, &'a [&'a str]);

/// What an argument takes.
#[derive(Clone, Copy)]
pub(crate) enum Takes<'a> {
    /// The name of a file. There is no option before it.
    File,
    /// Names of at least one file. There is no option before them.
    Files,
    /// Nothing.
    Flag,
    /// Nothing. The option also has this letter.
    FlagOr(char),
    /// Nothing. The help does not show the option.
    OldFlag,
    /// A text of this kind.
    Text(&'a str),
    /// A text of this kind that may begin with a hyphen.
    Signed(&'a str),
    /// A list of ranges of numbers.
    Ranges,
    /// A number from the first to the second.
    Number(u64, u64),
    /// A number of at least 1. The option also has this letter.
    CountOr(char),
    /// A number from 1 to the second, after an equals sign. Without a number, the first.
    NumberOr(&'a str, u64),
    /// A format.
    Format,
    /// The name of the output.
    Output,
}

// Returns an argument of the command line.
pub(crate) fn argument<'a>(alloc: Global, row: Row<'a>) -> Result<Arg<'a>, AllocError> {
    let (name, takes, help, excluded) = row;
    let arg = Arg::new(alloc, name).help(help);
    let arg = match takes {
        Takes::File => arg.required(true),
        Takes::Files => arg.required(true).num_args(1..),
        Takes::Output => output(arg)?,
        option => with_value(arg.long(name), option),
    };
    arg.conflicts_with_all(excluded)
}

fn output<'a>(arg: Arg<'a>) -> Result<Arg<'a>, AllocError> {
    arg.long("output")
        .short('o')
        .value_name("OUT")
        .required(true)
        .visible_short_alias('w')
}

// Returns an option with what it takes.
fn with_value<'a>(arg: Arg<'a>, takes: Takes<'a>) -> Arg<'a> {
    match takes {
        Takes::Flag => arg.action(ArgAction::SetTrue),
        Takes::FlagOr(letter) => arg.action(ArgAction::SetTrue).short(letter),
        Takes::OldFlag => arg.action(ArgAction::SetTrue).hide(true),
        Takes::Text(kind) => arg.value_name(kind),
        Takes::Signed(kind) => arg.value_name(kind).allow_hyphen_values(true),
        Takes::Ranges => arg.value_name("RANGES").allow_negative_numbers(true),
        Takes::Number(least, most) => number(arg, least, most),
        Takes::CountOr(letter) => number(arg, 1, u64::MAX).short(letter),
        Takes::NumberOr(default, most) => number(arg, 1, most)
            .num_args(0..=1)
            .require_equals(true)
            .default_missing_value(default),
        Takes::Format => arg.value_name("FORMAT").value_parser(FORMATS),
        Takes::File | Takes::Files | Takes::Output => arg,
    }
}

fn number<'a>(arg: Arg<'a>, least: u64, most: u64) -> Arg<'a> {
    arg.value_name("N")
        .value_parser(ValueParser::unsigned(least, most))
}
