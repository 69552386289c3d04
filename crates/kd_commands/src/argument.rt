ghost use Rattle.std.specs.Prelude.{◌≡◌, false};
ghost use Rattle.clap.specs.Words.{rule_of};
ghost use Rattle.kd_commands.specs.Arguments.{parameter_of};
ghost use Rattle.kd_commands.specs.Order.{flag_rule, needed_rule, needed_value, parameter_rule, value_rule};

use clap::{Arg, ArgAction};
use std::alloc::Global;

// An argument of a subcommand: its name, what help calls its value if any, and its help text.
#[derive(Clone, Copy)]
pub(crate) enum Argument<'a> {
    // A text, which is required.
    Text(&'a str, &'a str),
    // `--NAME`.
    Flag(&'a str, &'a str),
    // `--NAME VALUE`.
    Value(&'a str, &'a str, &'a str),
    // `--NAME VALUE`, which is required.
    RequiredValue(&'a str, &'a str, &'a str),
}

impl<'a> Argument<'a> {
    // Makes the argument for `clap`.
    pub(crate) fn to_arg(self, alloc: Global) -> Arg<'a>
        ensures rule { rule_of result ≡ parameter_rule (parameter_of self.entry) }
        ensures local { result.global ≡ false }
    {
        match self {
            Argument::Text(name, help) => required_text(alloc, name, help),
            Argument::Flag(name, help) => flag(alloc, name, help),
            Argument::Value(name, value, help) => value_option(alloc, name, value, help),
            Argument::RequiredValue(name, value, help) => {
                value_option(alloc, name, value, help).required(true)
            }
        }
    }
}

// A text that is required: takes its name and its help text.
fn required_text<'a>(alloc: Global, name: &'a str, help: &'a str) -> Arg<'a>
    ensures rule { rule_of result ≡ needed_rule name.entry.now }
    ensures local { result.global ≡ false }
{
    Arg::new(alloc, name).help(help).required(true)
}

// `--NAME`: takes the flag's name and its help text.
fn flag<'a>(alloc: Global, name: &'a str, help: &'a str) -> Arg<'a>
    ensures rule { rule_of result ≡ flag_rule name.entry.now }
    ensures local { result.global ≡ false }
{
    Arg::new(alloc, name)
        .long(name)
        .help(help)
        .action(ArgAction::SetTrue)
}

// `--NAME VALUE`: takes the option's name, what help calls its value, and its help text.
fn value_option<'a>(alloc: Global, name: &'a str, value: &'a str, help: &'a str) -> Arg<'a>
    ensures rule { rule_of result ≡ value_rule name.entry.now }
    ensures local { result.global ≡ false }
{
    Arg::new(alloc, name)
        .long(name)
        .value_name(value)
        .help(help)
        .action(ArgAction::Set)
}
