//! The command that `clap` reads the words by.
ghost use Rattle.std.specs.Prelude.{◌≡◌, IfOk};
ghost use Rattle.clap.specs.Walk.{rule_of, texts};
ghost use Rattle.clap.specs.Simple.{app_of, new_rule, with_rule};
ghost use Rattle.command_words.specs.Grammar.{surf as surf_spec, plain as plain_spec, option as option_rule, flag as flag_rule, with_rules};

use clap::{Arg, ArgAction, Command};
use std::alloc::{AllocError, Global};

static POSITIONALS: [&str; 3] = ["op", "first", "second"];

static OPTIONS: [&str; 11] = [
    "entry", "at", "from", "lane", "round", "rounds", "sessions", "refiners", "steps", "seed",
    "extern",
];

// A command without help and version, and without the program's own name among the words.
fn plain<'a>(alloc: Global) -> Command<'a>
    ensures { app_of result ≡ plain_spec }
{
    Command::new(alloc, "surf")
        .no_binary_name(true)
        .disable_help_flag(true)
        .disable_version_flag(true)
}

// The command with a positional more.
fn with_positional<'a>(
    alloc: Global,
    command: Command<'a>,
    name: &'a str,
) -> Result<Command<'a>, AllocError>
    ensures { IfOk result (λ more. app_of more ≡ with_rule (app_of command.entry) (new_rule name.entry.now)) }
{
    command.arg(Arg::new(alloc, name))
}

// The command with an option more.
fn with_option<'a>(
    alloc: Global,
    command: Command<'a>,
    name: &'a str,
) -> Result<Command<'a>, AllocError>
    ensures { IfOk result (λ more. app_of more ≡ with_rule (app_of command.entry) (option_rule name.entry.now)) }
{
    command.arg(Arg::new(alloc, name).long(name))
}

// The command with a positional more for each name.
fn with_positionals<'a>(
    alloc: Global,
    command: Command<'a>,
    names: &[&'a str],
) -> Result<Command<'a>, AllocError>
    ensures { IfOk result (λ more. app_of more ≡ with_rules new_rule (app_of command.entry) (texts names.now)) }
{
    let mut command = command;
    'names: for name in names {
        command = with_positional(alloc, command, name)?;
    }
    Ok(command)
}

// The command with an option more for each name.
fn with_options<'a>(
    alloc: Global,
    command: Command<'a>,
    names: &[&'a str],
) -> Result<Command<'a>, AllocError>
    ensures { IfOk result (λ more. app_of more ≡ with_rules option_rule (app_of command.entry) (texts names.now)) }
{
    let mut command = command;
    'names: for name in names {
        command = with_option(alloc, command, name)?;
    }
    Ok(command)
}

/// The program's command.
pub fn surf<'a>(alloc: Global) -> Result<Command<'a>, AllocError>
    ensures { IfOk result (λ command. app_of command ≡ surf_spec) }
{
    let positional = with_positionals(alloc, plain(alloc), POSITIONALS.as_slice())?;
    let options = with_options(alloc, positional, OPTIONS.as_slice())?;
    let skip_sp = Arg::new(alloc, "skip-sp")
        .long("skip-sp")
        .action(ArgAction::SetTrue);
    options.arg(skip_sp)
}
