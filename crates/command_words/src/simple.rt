//! The simple commands that read the words behind a command's name.
ghost use Rattle.std.specs.Prelude.{◌≡◌, IfOk};
ghost use Rattle.clap.specs.Words.{app_of, with_rule};
ghost use Rattle.command_words.specs.{Simple.{named_app, value_rule, values_rule, option_rule}, Kinds.app_for};
ghost use Rattle.command_words.specs.declared.kind.Kind.TheVariants as kinds;

use crate::NoMemory;
use crate::kind::Kind;
use clap::{Arg, ArgAction, Command};
use std::alloc::Global;

// A simple command that was made.
type Made<'a> = Result<Command<'a>, NoMemory>;

// The simple command of this kind.
pub(crate) fn command_for<'a>(alloc: Global, kind: Kind) -> Made<'a>
    ensures { IfOk result (λ c. app_of c ≡ app_for kind) }
{
    match kind {
        Kind::Cut => cut_command(alloc),
        Kind::Apply => with_option(alloc, named(alloc, "apply"), "store"),
        Kind::Gen => with_value(alloc, named(alloc, "gen"), "NUMBER"),
        Kind::Trial => with_value(alloc, named(alloc, "trial"), "NUMBER"),
        Kind::Play => play_command(alloc),
        Kind::Path => path_command(alloc),
        Kind::Hunt => hunt_command(alloc),
        Kind::Audit => audit_command(alloc),
    }
}

fn cut_command<'a>(alloc: Global) -> Made<'a>
    ensures { IfOk result (λ c. app_of c ≡ app_for kinds.Cut) }
{
    let mut command = with_value(alloc, named(alloc, "cut"), "PENALTY")?;
    command = with_option(alloc, command, "least")?;
    command.arg(
        Arg::new(alloc, "absolute")
            .long("absolute")
            .action(ArgAction::SetTrue),
    )
}

fn play_command<'a>(alloc: Global) -> Made<'a>
    ensures { IfOk result (λ c. app_of c ≡ app_for kinds.Play) }
{
    let mut command = with_option(alloc, named(alloc, "play"), "machines")?;
    command = with_option(alloc, command, "store")?;
    command = with_option(alloc, command, "recompute")?;
    command = with_option(alloc, command, "bisect")?;
    command = with_option(alloc, command, "test")?;
    with_values(alloc, command, "SCRIPT")
}

fn path_command<'a>(alloc: Global) -> Made<'a>
    ensures { IfOk result (λ c. app_of c ≡ app_for kinds.Path) }
{
    let command = with_value(alloc, named(alloc, "path"), "LOW")?;
    with_value(alloc, command, "HIGH")
}

fn hunt_command<'a>(alloc: Global) -> Made<'a>
    ensures { IfOk result (λ c. app_of c ≡ app_for kinds.Hunt) }
{
    let command = with_value(alloc, named(alloc, "hunt"), "K")?;
    with_option(alloc, command, "test")
}

fn audit_command<'a>(alloc: Global) -> Made<'a>
    ensures { IfOk result (λ c. app_of c ≡ app_for kinds.Audit) }
{
    let command = with_value(alloc, named(alloc, "audit"), "JOURNAL")?;
    with_values(alloc, command, "SCRIPT")
}

// The command of this name, with no argument yet.
fn named<'a>(alloc: Global, name: &'a str) -> Command<'a>
    ensures { app_of result ≡ named_app name.entry.now }
{
    Command::new(alloc, name)
        .no_binary_name(true)
        .disable_help_flag(true)
        .disable_version_flag(true)
}

// The command with a positional more, which must be given.
fn with_value<'a>(alloc: Global, command: Command<'a>, id: &'a str) -> Made<'a>
    ensures { IfOk result
        (λ c. app_of c ≡ with_rule (app_of command.entry) (value_rule id.entry.now)) }
{
    command.arg(Arg::new(alloc, id).required(true))
}

// The command with a positional of one or more values more, which must be given.
fn with_values<'a>(alloc: Global, command: Command<'a>, id: &'a str) -> Made<'a>
    ensures { IfOk result
        (λ c. app_of c ≡ with_rule (app_of command.entry) (values_rule id.entry.now)) }
{
    command.arg(Arg::new(alloc, id).required(true).num_args(1..))
}

// The command with an option more.
fn with_option<'a>(alloc: Global, command: Command<'a>, name: &'a str) -> Made<'a>
    ensures { IfOk result
        (λ c. app_of c ≡ with_rule (app_of command.entry) (option_rule name.entry.now)) }
{
    command.arg(Arg::new(alloc, name).long(name))
}
