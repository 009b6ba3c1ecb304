//! The command line.

ghost use Rattle.std.specs.Prelude.{◌≡◌, IfOk, false};
ghost use Rattle.clap.specs.Words.{app_of, rule_of};
ghost use Rattle.clap.specs.declared.builder.command.Command.TheViews.{out-Command};
ghost use Rattle.trace_cli.specs.Words.{function_rule, named_app, bounded_app, trace_app};

use clap::{Arg, ArgAction, Command};
use std::alloc::{AllocError, Global};
use tv_cli::{name, option};

/// The command line of the program, as `clap` walks it.
pub fn command<'a>(alloc: Global) -> Result<Command<'a>, AllocError>
    ensures { IfOk result (λ c. app_of c ≡ trace_app) }
{
    let trace = bounded_command(alloc)?
        .arg(option(alloc, "rounds"))?
        .arg(option(alloc, "conflicts"))?
        .arg(option(alloc, "weight"))?;
    Ok(trace)
}

fn bounded_command<'a>(alloc: Global) -> Result<Command<'a>, AllocError>
    ensures app { IfOk result (λ c. app_of c ≡ bounded_app) }
    ensures local { IfOk result (λ c. (out-Command c).has_globals ≡ false) }
{
    let bounded = named_command(alloc)?
        .arg(option(alloc, "turns"))?
        .arg(option(alloc, "blocks"))?
        .arg(option(alloc, "bytes"))?;
    Ok(bounded)
}

fn named_command<'a>(alloc: Global) -> Result<Command<'a>, AllocError>
    ensures app { IfOk result (λ c. app_of c ≡ named_app) }
    ensures local { IfOk result (λ c. (out-Command c).has_globals ≡ false) }
{
    let named = Command::new(alloc, "tv_trace")
        .disable_help_flag(true)
        .arg(name(alloc, "A"))?
        .arg(name(alloc, "B"))?
        .arg(function(alloc))?
        .arg(option(alloc, "report"))?;
    Ok(named)
}

fn function<'a>(alloc: Global) -> Arg<'a>
    ensures rule { rule_of result ≡ function_rule }
    ensures local { result.global ≡ false }
{
    Arg::new(alloc, "function")
        .long("function")
        .required(true)
        .action(ArgAction::Set)
}
