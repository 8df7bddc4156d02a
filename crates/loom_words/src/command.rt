//! The program's command, as clap builds it.
ghost use Rattle.std.specs.Prelude.{◌≡◌, IfOk, false, []};
ghost use Rattle.clap.specs.Words.{app_of, rule_of, shape_of, with_subcommand};
ghost use Rattle.clap.specs.declared.builder.command.Command.TheViews.{out-Command as fields_of};
ghost use Rattle.clap.specs.Simple.{new_shape};
ghost use Rattle.loom_words.specs.Command.{loom_app, number_rule, program_shape, trial_shape};

use clap::{Arg, ArgAction, Command};
use std::alloc::{AllocError, Global};

/// The number of `trial`.
fn number<'a>(alloc: Global) -> Arg<'a>
    ensures rule { rule_of result ≡ number_rule }
    ensures local { result.global ≡ false }
{
    Arg::new(alloc, "N")
        .required(true)
        .action(ArgAction::Set)
        .value_parser(clap::value_parser!(u64).range(1..=200))
}

/// `trial N`.
fn trial<'a>(alloc: Global) -> Result<Command<'a>, AllocError>
    ensures shape { IfOk result (λ made. shape_of made ≡ trial_shape) }
    ensures local { IfOk result (λ made. (fields_of made).has_globals ≡ false) }
{
    Command::new(alloc, "trial").arg(number(alloc))
}

/// The command with one more subcommand that is a word alone.
fn with_word<'a>(
    alloc: Global,
    command: Command<'a>,
    word: &'a str,
) -> Result<Command<'a>, AllocError>
    ensures { IfOk result (λ made.
        app_of made ≡ with_subcommand (app_of command.entry) (new_shape word.entry.now)) }
{
    command.subcommand(Command::new(alloc, word))
}

/// The program without its subcommands.
fn program<'a>(alloc: Global) -> Command<'a>
    ensures { app_of result ≡ record { top = program_shape; subs = [] } }
{
    Command::new(alloc, "loom")
        .no_binary_name(true)
        .disable_help_flag(true)
        .disable_help_subcommand(true)
        .subcommand_required(true)
}

/// The program with a subcommand for each job.
pub fn command<'a>(alloc: Global) -> Result<Command<'a>, AllocError>
    ensures { IfOk result (λ made. app_of made ≡ loom_app) }
{
    let command = with_word(alloc, program(alloc), "plan")?;
    let command = with_word(alloc, command, "extract")?;
    let command = with_word(alloc, command, "check")?;
    command.subcommand(trial(alloc)?)
}
