ghost use Rattle.std.specs.Prelude.{◌≡◌, IfOk};
ghost use Rattle.clap.specs.Words.{app_of, with_rule};
ghost use Rattle.command_words.specs.Command as spec;

use clap::{Arg, ArgAction, Command};
use std::alloc::{AllocError, Global};

/// The command without its arguments. It has no help of its own, and the words are those behind the program's name.
fn bare_command<'a>(alloc: Global) -> Command<'a>
    ensures { app_of result ≡ spec.bare_app }
{
    Command::new(alloc, "asafe")
        .no_binary_name(true)
        .disable_help_flag(true)
}

/// The command with the positional for the job.
fn with_job<'a>(alloc: Global, command: Command<'a>) -> Result<Command<'a>, AllocError>
    ensures { IfOk result (λ longer. app_of longer ≡ with_rule (app_of command.entry) spec.job_argument) }
{
    command.arg(Arg::new(alloc, "job"))
}

/// The command with the last positional, for the names of the job.
fn with_names<'a>(alloc: Global, command: Command<'a>) -> Result<Command<'a>, AllocError>
    ensures { IfOk result (λ longer. app_of longer ≡ with_rule (app_of command.entry) spec.names_argument) }
{
    command.arg(Arg::new(alloc, "names").action(ArgAction::Append))
}

/// The command with one more option, which has a value.
fn with_option<'a>(
    alloc: Global,
    command: Command<'a>,
    name: &'a str,
) -> Result<Command<'a>, AllocError>
    ensures { IfOk result (λ longer. app_of longer ≡ with_rule (app_of command.entry) (spec.option name.now)) }
{
    command.arg(Arg::new(alloc, name).long(name))
}

/// The command with one more option, which has none.
fn with_flag<'a>(
    alloc: Global,
    command: Command<'a>,
    name: &'a str,
) -> Result<Command<'a>, AllocError>
    ensures { IfOk result (λ longer. app_of longer ≡ with_rule (app_of command.entry) (spec.flag name.now)) }
{
    command.arg(Arg::new(alloc, name).long(name).action(ArgAction::SetTrue))
}

/// The command, as `clap` reads its words.
pub(crate) fn clap_command<'a>(alloc: Global) -> Result<Command<'a>, AllocError>
    ensures { IfOk result (λ command. app_of command ≡ spec.command_app) }
{
    let command = with_job(alloc, bare_command(alloc))?;
    let command = with_names(alloc, command)?;
    let command = with_option(alloc, command, "rules")?;
    let command = with_option(alloc, command, "depth")?;
    let command = with_option(alloc, command, "cert")?;
    with_flag(alloc, command, "json")
}
