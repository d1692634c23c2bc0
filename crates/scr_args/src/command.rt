//! The command as `clap` reads it.
ghost use Rattle.std.specs.Prelude.{◌≡◌, IfOk, false};
ghost use Rattle.clap.specs.Walk.{rule_of};
ghost use Rattle.clap.specs.Simple.{app_of};
ghost use Rattle.scr_args.specs.Command.{bare_program, option_rule, program};

use clap::{Arg, ArgAction, Command};
use std::alloc::{AllocError as NoMemory, Global};

/// The command of the program: five options, each with one value, and neither help nor a version.
pub fn command<'a>(alloc: Global) -> Result<Command<'a>, NoMemory>
    ensures { IfOk result (λ command. app_of command ≡ program) }
{
    bare(alloc)
        .arg(option(alloc, "factors"))?
        .arg(option(alloc, "book"))?
        .arg(option(alloc, "edits"))?
        .arg(option(alloc, "make"))?
        .arg(option(alloc, "workers"))
}

fn bare<'a>(alloc: Global) -> Command<'a>
    ensures { app_of result ≡ bare_program }
{
    Command::new(alloc, "scr")
        .no_binary_name(true)
        .disable_help_flag(true)
}

/// The option `--name`, which takes one value.
fn option<'a>(alloc: Global, name: &'a str) -> Arg<'a>
    ensures rule { rule_of result ≡ option_rule name.entry.now }
    ensures local { result.global ≡ false }
{
    Arg::new(alloc, name).long(name).action(ArgAction::Set)
}
