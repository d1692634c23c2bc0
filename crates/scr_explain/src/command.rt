//! The command as `clap` reads it.
ghost use Rattle.std.specs.Prelude.{◌≡◌, [], IfOk, codes, false, map};
ghost use Rattle.clap.specs.Facts.{args_of};
ghost use Rattle.clap.specs.Simple.{app_of};
ghost use Rattle.clap.specs.Walk.{rule_of};
ghost use Rattle.scr_explain.specs.Command.{all_apart, apart_from, bare_program, bound_rule, needed_rule, number_rule, of_cell, of_record, option_rule, program};

use clap::{Arg, ArgAction, Command, value_parser};
use std::alloc::{AllocError as NoMemory, Global};

/// The command: seven options with one value each, help and a version. `clap` asks for a cell where neither a record nor a drawing is
/// asked for, and takes one of the three alone.
pub fn command<'a>(alloc: Global) -> Result<Command<'a>, NoMemory>
    ensures options { IfOk result (λ command. app_of command ≡ program) }
    ensures apart { IfOk result (λ command. map apart_from (args_of command) ≡ all_apart) }
{
    bare(alloc)
        .arg(needed(alloc, "factors", "The factor file"))?
        .arg(needed(alloc, "book", "The balance sheet"))?
        .arg(cell(alloc)?)?
        .arg(number(
            alloc,
            "depth",
            "N",
            "2",
            "How many levels of sources are told",
        ))?
        .arg(number(
            alloc,
            "top",
            "K",
            "10",
            "How many sources of a figure are told, the largest",
        ))?
        .arg(record(alloc)?)?
        .arg(text(
            alloc,
            "svg",
            "FILE",
            "Writes a drawing of the requirement to this file",
        ))
}

/// The command without its options.
fn bare<'a>(alloc: Global) -> Command<'a>
    ensures app { app_of result ≡ bare_program }
    ensures args { args_of result ≡ [] }
{
    Command::new(alloc, "scr_explain").version("1.0").about(
        "Tells why a figure of the Solvency Capital Requirement is what it is",
    )
}

/// The option for a cell, which is needed where neither a record nor a drawing is asked for, and goes with neither.
fn cell<'a>(alloc: Global) -> Result<Arg<'a>, NoMemory>
    ensures rule { IfOk result (λ arg. rule_of arg ≡ bound_rule (codes "cell")) }
    ensures local { IfOk result (λ arg. arg.global ≡ false) }
    ensures apart { IfOk result (λ arg. apart_from arg ≡ of_cell) }
    ensures unless { IfOk result (λ arg. map (λ name. name.now) arg.r_unless.items ≡ of_cell) }
{
    text(
        alloc,
        "cell",
        "NAME",
        "The cell of the report, such as S2501.scr",
    )
    .required_unless_present("record")?
    .required_unless_present("svg")?
    .conflicts_with("record")?
    .conflicts_with("svg")
}

/// The option for a record, which goes with no drawing.
fn record<'a>(alloc: Global) -> Result<Arg<'a>, NoMemory>
    ensures rule { IfOk result (λ arg. rule_of arg ≡ bound_rule (codes "record")) }
    ensures local { IfOk result (λ arg. arg.global ≡ false) }
    ensures apart { IfOk result (λ arg. apart_from arg ≡ of_record) }
{
    text(
        alloc,
        "record",
        "LINE",
        "Tells which cells this record of a script moves",
    )
    .conflicts_with("svg")
}

/// The option for a file that must be named.
fn needed<'a>(alloc: Global, name: &'a str, help: &'a str) -> Arg<'a>
    ensures rule { rule_of result ≡ needed_rule name.entry.now }
    ensures local { result.global ≡ false }
    ensures apart { result.conflicts.items ≡ [] }
{
    text(alloc, name, "FILE", help).required(true)
}

/// The option `--name`, which takes one value.
fn text<'a>(alloc: Global, name: &'a str, value: &'a str, help: &'a str) -> Arg<'a>
    ensures rule { rule_of result ≡ option_rule name.entry.now }
    ensures local { result.global ≡ false }
    ensures apart { result.conflicts.items ≡ [] }
    ensures unless { result.r_unless.items ≡ [] }
{
    Arg::new(alloc, name)
        .long(name)
        .value_name(value)
        .help(help)
        .action(ArgAction::Set)
}

/// The option for a number of at most 1,000, with the one that counts where none is given.
fn number<'a>(
    alloc: Global,
    name: &'a str,
    value: &'a str,
    default: &'a str,
    help: &'a str,
) -> Arg<'a>
    ensures rule { rule_of result ≡ number_rule name.entry.now default.entry.now }
    ensures local { result.global ≡ false }
    ensures apart { result.conflicts.items ≡ [] }
{
    text(alloc, name, value, help)
        .default_value(default)
        .value_parser(value_parser!(u32).range(0..=1000))
}
