//! The options and the words that a command takes.

use clap::{Arg, ArgAction};
use std::alloc::Global;

/// An option with one value, which may be left out.
pub fn optional<'a>(alloc: Global, name: &'a str, value: &'a str, help: &'a str) -> Arg<'a> {
    Arg::new(alloc, name)
        .long(name)
        .value_name(value)
        .help(help)
        .action(ArgAction::Set)
}

/// An option with one value, which has to be there.
pub fn required<'a>(alloc: Global, name: &'a str, value: &'a str, help: &'a str) -> Arg<'a> {
    optional(alloc, name, value, help).required(true)
}

/// An option with one value, which has to be there, once or more often.
pub fn repeated<'a>(alloc: Global, name: &'a str, value: &'a str, help: &'a str) -> Arg<'a> {
    required(alloc, name, value, help).action(ArgAction::Append)
}

/// One word without an option, or more of them.
pub fn words<'a>(alloc: Global, name: &'a str, value: &'a str, help: &'a str) -> Arg<'a> {
    Arg::new(alloc, name)
        .value_name(value)
        .help(help)
        .required(true)
        .num_args(1..)
        .action(ArgAction::Append)
}
