ghost use Rattle.std.specs.Prelude.{◌≡◌, ◌↔◌, IfOk, IsTrue, false};
ghost use Rattle.clap.specs.Words.{app_of, kind_of, rule_of};
ghost use Rattle.clap.specs.declared.builder.command.Command.TheViews.{out-Command};
ghost use Rattle.tv_cli.specs.Walked.{tv_app, check_app, log_app, make_app, bounded_app, limited_app, flag_rule, name_rule, option_rule};

use clap::error::ErrorKind;
use clap::{Arg, ArgAction, Command, Error};
use std::alloc::{AllocError, Global};

/// The command line of the program, as `clap` walks it.
pub fn command<'a>(alloc: Global) -> Result<Command<'a>, AllocError>
    ensures { IfOk result (λ c. app_of c ≡ tv_app) }
{
    let tv = Command::new(alloc, "tv")
        .disable_help_flag(true)
        .disable_help_subcommand(true)
        .subcommand_required(true)
        .subcommand(check_command(alloc)?)?
        .subcommand(log_command(alloc)?)?
        .subcommand(make_command(alloc)?)?;
    Ok(tv)
}

fn log_command<'a>(alloc: Global) -> Result<Command<'a>, AllocError>
    ensures app { IfOk result (λ c. app_of c ≡ log_app) }
    ensures local { IfOk result (λ c. (out-Command c).has_globals ≡ false) }
{
    let log = Command::new(alloc, "log").arg(name(alloc, "FILE"))?;
    Ok(log)
}

fn check_command<'a>(alloc: Global) -> Result<Command<'a>, AllocError>
    ensures app { IfOk result (λ c. app_of c ≡ check_app) }
    ensures local { IfOk result (λ c. (out-Command c).has_globals ≡ false) }
{
    let check = bounded_command(alloc)?
        .arg(option(alloc, "rounds"))?
        .arg(option(alloc, "conflicts"))?
        .arg(option(alloc, "weight"))?
        .arg(option(alloc, "workers"))?
        .arg(option(alloc, "proof"))?
        .arg(flag(alloc, "first"))?;
    Ok(check)
}

fn bounded_command<'a>(alloc: Global) -> Result<Command<'a>, AllocError>
    ensures app { IfOk result (λ c. app_of c ≡ bounded_app) }
    ensures local { IfOk result (λ c. (out-Command c).has_globals ≡ false) }
{
    let check = Command::new(alloc, "check")
        .arg(name(alloc, "A"))?
        .arg(name(alloc, "B"))?
        .arg(option(alloc, "turns"))?
        .arg(option(alloc, "blocks"))?
        .arg(option(alloc, "bytes"))?;
    Ok(check)
}

fn make_command<'a>(alloc: Global) -> Result<Command<'a>, AllocError>
    ensures app { IfOk result (λ c. app_of c ≡ make_app) }
    ensures local { IfOk result (λ c. (out-Command c).has_globals ≡ false) }
{
    let make = limited_command(alloc)?
        .arg(option(alloc, "weight"))?
        .arg(option(alloc, "workers"))?
        .arg(option(alloc, "seed"))?
        .arg(option(alloc, "functions"))?
        .arg(option(alloc, "insts"))?;
    Ok(make)
}

fn limited_command<'a>(alloc: Global) -> Result<Command<'a>, AllocError>
    ensures app { IfOk result (λ c. app_of c ≡ limited_app) }
    ensures local { IfOk result (λ c. (out-Command c).has_globals ≡ false) }
{
    let make = Command::new(alloc, "make")
        .arg(option(alloc, "turns"))?
        .arg(option(alloc, "blocks"))?
        .arg(option(alloc, "bytes"))?
        .arg(option(alloc, "rounds"))?
        .arg(option(alloc, "conflicts"))?;
    Ok(make)
}

/// An argument that has to be given, by its position.
pub fn name<'a>(alloc: Global, id: &'a str) -> Arg<'a>
    ensures rule { rule_of result ≡ name_rule id.entry.now }
    ensures local { result.global ≡ false }
{
    Arg::new(alloc, id).required(true).action(ArgAction::Set)
}

/// An option `--id VALUE`.
pub fn option<'a>(alloc: Global, id: &'a str) -> Arg<'a>
    ensures rule { rule_of result ≡ option_rule id.entry.now }
    ensures local { result.global ≡ false }
{
    Arg::new(alloc, id).long(id).action(ArgAction::Set)
}

// A flag `--id`, which has no value.
fn flag<'a>(alloc: Global, id: &'a str) -> Arg<'a>
    ensures rule { rule_of result ≡ flag_rule id.entry.now }
    ensures local { result.global ≡ false }
{
    Arg::new(alloc, id).long(id).action(ArgAction::SetTrue)
}

/// Whether a walk ended because memory ran out.
pub fn is_memory(error: &Error) -> bool
    ensures { IsTrue result ↔ (kind_of error.now ≡ ErrorKind.OutOfMemory) }
{
    matches!(error.kind(), ErrorKind::OutOfMemory)
}
