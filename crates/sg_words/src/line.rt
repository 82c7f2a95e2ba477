//! The command line, as clap is told of it.

ghost use Rattle.std.specs.Prelude.{◌≡◌, true, false, Some, codes, IfOk};
ghost use Rattle.clap.specs.Words.{app_of, new_app, new_rule, rule_of, with_rule, with_subcommand};
ghost use Rattle.clap.specs.declared.builder.command.Command.TheViews.{out-Command};
ghost use Rattle.sg_words.specs.Grammar as grammar;

use clap::{Arg, ArgAction, Command};
use std::alloc::{AllocError, Global};

/// An option that has a value.
fn option<'a>(alloc: Global, name: &'a str) -> Arg<'a>
    ensures rule { rule_of result ≡ record (new_rule name.now) { long = Some name.now } }
    ensures local { result.global ≡ false }
{
    Arg::new(alloc, name).long(name)
}

/// An option that has no value.
fn flag<'a>(alloc: Global, name: &'a str) -> Arg<'a>
    ensures rule { rule_of result ≡ grammar.flag name.now }
    ensures local { result.global ≡ false }
{
    option(alloc, name).action(ArgAction::SetTrue)
}

/// The required argument that this is made of.
fn required<'a>(arg: Arg<'a>) -> Arg<'a>
    ensures rule { rule_of result ≡ record (rule_of arg.entry) { required = true } }
    ensures local { result.global ≡ arg.entry.global }
{
    arg.required(true)
}

/// The command of this name with the option `--workers` alone.
fn with_workers<'a>(alloc: Global, name: &'a str) -> Result<Command<'a>, AllocError>
    ensures shape { IfOk result (λ c. app_of c ≡ with_rule (new_app name.now) grammar.workers) }
    ensures local { IfOk result (λ c. (out-Command c).has_globals ≡ false) }
{
    Command::new(alloc, name).arg(option(alloc, "workers"))
}

fn replay<'a>(alloc: Global) -> Result<Command<'a>, AllocError>
    ensures shape { IfOk result (λ c. app_of c ≡ grammar.replay) }
    ensures local { IfOk result (λ c. (out-Command c).has_globals ≡ false) }
{
    with_workers(alloc, "replay")?.arg(flag(alloc, "mux"))
}

fn relay<'a>(alloc: Global) -> Result<Command<'a>, AllocError>
    ensures shape { IfOk result (λ c. app_of c ≡ grammar.relay) }
    ensures local { IfOk result (λ c. (out-Command c).has_globals ≡ false) }
{
    Command::new(alloc, "relay")
        .arg(required(option(alloc, "turns")))?
        .arg(flag(alloc, "mux"))?
        .arg(flag(alloc, "bridge"))
}

fn demo<'a>(alloc: Global) -> Result<Command<'a>, AllocError>
    ensures shape { IfOk result (λ c. app_of c ≡ grammar.demo) }
    ensures local { IfOk result (λ c. (out-Command c).has_globals ≡ false) }
{
    with_workers(alloc, "demo")?
        .arg(required(Arg::new(alloc, "calls")))?
        .arg(required(Arg::new(alloc, "start")))
}

/// A command line with `replay` alone.
fn with_replay<'a>(alloc: Global) -> Result<Command<'a>, AllocError>
    ensures { IfOk result (λ c. app_of c ≡ with_subcommand (new_app (codes "srtpgw")) grammar.replay.top) }
{
    let replay = replay(alloc)?;
    Command::new(alloc, "srtpgw").subcommand(replay)
}

/// The same with `relay`, too.
fn with_relay<'a>(alloc: Global) -> Result<Command<'a>, AllocError>
    ensures { IfOk result (λ c. app_of c ≡ with_subcommand (with_subcommand (new_app (codes "srtpgw")) grammar.replay.top) grammar.relay.top) }
{
    let relay = relay(alloc)?;
    with_replay(alloc)?.subcommand(relay)
}

/// A command line with the commands that have options.
fn with_options<'a>(alloc: Global) -> Result<Command<'a>, AllocError>
    ensures { IfOk result (λ c. app_of c ≡ grammar.with_options) }
{
    let demo = demo(alloc)?;
    with_relay(alloc)?.subcommand(demo)
}

/// The same with the commands that have none, too.
fn with_all<'a>(alloc: Global) -> Result<Command<'a>, AllocError>
    ensures { IfOk result (λ c. app_of c ≡ grammar.with_all) }
{
    with_options(alloc)?
        .subcommand(Command::new(alloc, "migrate"))?
        .subcommand(Command::new(alloc, "capture"))?
        .subcommand(Command::new(alloc, "bridge"))
}

/// The whole command line: the words don't begin with the program's name, and a command is required.
pub(crate) fn command_line<'a>(alloc: Global) -> Result<Command<'a>, AllocError>
    ensures { IfOk result (λ c. app_of c ≡ grammar.srtpgw) }
{
    let command = with_all(alloc)?;
    Ok(command.no_binary_name(true).subcommand_required(true))
}
