//! The command that words are.

ghost use Rattle.std.specs.Prelude.{◌≡◌, ◌≢◌, ◌≤◌, ◌⊎◌, ◌∷◌, ℕ, List, map, IfOk, IfSome, Ok, Err, string_bytes, codes, option_map, option_and_then};
ghost use Rattle.clap.specs.Words.{FailsBy, fault_of, subcommand_of, subcommand_rows_of, first_of};
ghost use Rattle.sg_words.specs.Commands.{AreWordsOf, IsNoCommand, mux_option};
ghost use Rattle.sg_words.specs.Grammar.{srtpgw};
ghost use Rattle.sg_words.specs.Reading.{alone_by, command_by, demo_by, first_said, is_set, positive, relay_by, replay_by, text_in, workers_by};
ghost use Rattle.sg_words.specs.declared.command.Command.{Command};

use crate::line::command_line;
use crate::spelling::{Kind, Written, are_ended, have_option, is, mux_option, relay_options};
use crate::{Command, CommandFault};
use clap::error::ErrorKind;
use clap::{ArgMatches, Error};
use sg_base::{CALLS_MOST, TURNS_MOST, WORKERS_MOST, read_number};
use std::alloc::Global;

/// The words, cut by clap.
fn cut<'a>(alloc: Global, words: &'a [String]) -> Result<ArgMatches<'a>, Error>
    ensures exact { FailsBy (fault_of srtpgw (map string_bytes words.entry.now)) result }
    ensures found { IfOk result (λ m. subcommand_rows_of m ≡ subcommand_of srtpgw (map string_bytes words.entry.now)) }
{
    command_line(alloc)?.try_get_matches_from(words)
}

/// The text of an argument of the command that was named.
fn text_of<'a>(matches: &ArgMatches<'a>, id: &str) -> Option<&'a str>
    ensures { option_map (λ s. s.now) result ≡ option_and_then (λ p. first_of id.now p.1) (subcommand_rows_of matches.now) }
{
    let (_, found) = matches.subcommand()?;
    found.get_str(id)
}

/// Whether an option that has no value is set, for the command that was named.
fn is_set(matches: &ArgMatches<'_>, id: &str) -> bool
    ensures { result ≡ is_set (option_and_then (λ p. first_of id.now p.1) (subcommand_rows_of matches.now)) }
{
    match text_of(matches, id) {
        Some(text) => text.as_bytes() == "true".as_bytes(),
        None => false,
    }
}

/// A number from 1 to `most`.
fn positive(most: u128, text: &str) -> Option<u128>
    ensures value { result ≡ positive most text.now }
    ensures some { IfSome result (λ n. 1 ≤ n) }
    ensures most { IfSome result (λ n. n ≤ most) }
{
    let number = read_number(most, text.as_bytes())?;
    if number < 1 {
        return None;
    }
    Some(number)
}

/// How many workers the words say, where they are these texts with that option's value among them.
fn workers_of(words: &[String], kind: Kind, texts: &[&str], value: Option<&str>) -> Option<usize>
    ensures { result ≡ workers_by (map string_bytes words.now) kind (map (λ t. t.now) texts.now) (option_map (λ s. s.now) value.entry) }
{
    let Some(value) = value else {
        if are_ended(words, kind, texts) {
            return Some(1);
        }
        return None;
    };
    let written = Written {
        option: "--workers",
        joined: "--workers=",
        value,
    };
    if !have_option(words, &written, kind, texts) {
        return None;
    }
    let workers = positive(WORKERS_MOST as u128, value)?;
    Some(workers as usize)
}

/// The command `replay`, by the words behind its name and what clap found.
fn replay_of(words: &[String], matches: &ArgMatches<'_>) -> Option<Command>
    ensures { result ≡ replay_by (map string_bytes words.now)
        (option_and_then (λ p. first_of (codes "workers") p.1) (subcommand_rows_of matches.now))
        (is_set (option_and_then (λ p. first_of (codes "mux") p.1) (subcommand_rows_of matches.now))) }
{
    let mux = is_set(matches, "mux");
    let value = text_of(matches, "workers");
    let workers = workers_of(words, Kind::Options, mux_option(mux), value)?;
    Some(Command::Replay { workers, mux })
}

/// The command `relay`, by the same.
fn relay_of(words: &[String], matches: &ArgMatches<'_>) -> Option<Command>
    ensures { result ≡ relay_by (map string_bytes words.now)
        (option_and_then (λ p. first_of (codes "turns") p.1) (subcommand_rows_of matches.now))
        (is_set (option_and_then (λ p. first_of (codes "mux") p.1) (subcommand_rows_of matches.now)))
        (is_set (option_and_then (λ p. first_of (codes "bridge") p.1) (subcommand_rows_of matches.now))) }
{
    let mux = is_set(matches, "mux");
    let bridge = is_set(matches, "bridge");
    let value = text_of(matches, "turns")?;
    let options = relay_options(mux, bridge)?;
    let written = Written {
        option: "--turns",
        joined: "--turns=",
        value,
    };
    if !have_option(words, &written, Kind::Options, options) {
        return None;
    }
    let turns = positive(TURNS_MOST as u128, value)? as u64;
    if bridge {
        return Some(Command::RelayJoined { turns });
    }
    Some(Command::Relay { turns, mux })
}

/// The command `demo`, by the same.
fn demo_of(words: &[String], matches: &ArgMatches<'_>) -> Option<Command>
    ensures { result ≡ demo_by (map string_bytes words.now)
        (option_and_then (λ p. first_of (codes "calls") p.1) (subcommand_rows_of matches.now))
        (option_and_then (λ p. first_of (codes "start") p.1) (subcommand_rows_of matches.now))
        (option_and_then (λ p. first_of (codes "workers") p.1) (subcommand_rows_of matches.now)) }
{
    let calls_text = text_of(matches, "calls")?;
    let start_text = text_of(matches, "start")?;
    let calls = positive(CALLS_MOST as u128, calls_text)?;
    let start = read_number(u128::from(u64::MAX), start_text.as_bytes())?;
    let texts = [calls_text, start_text];
    let workers = workers_of(words, Kind::Numbers, &texts, text_of(matches, "workers"))?;
    Some(Command::Demo {
        calls: calls as u16,
        start: start as u64,
        workers,
    })
}

/// A command that has neither options nor numbers, by the words behind its name.
fn alone(words: &[String], command: Command) -> Option<Command>
    ensures { result ≡ alone_by command (map string_bytes words.now) }
{
    if !are_ended(words, Kind::Options, &[]) {
        return None;
    }
    Some(command)
}

/// The command that the words spell, where clap found these.
fn said(words: &[String], matches: &ArgMatches<'_>) -> Option<Command>
    ensures { result ≡ first_said (map string_bytes words.now) (λ id. option_and_then (λ p. first_of id p.1) (subcommand_rows_of matches.now)) }
{
    let [name, words @ ..] = words else {
        return None;
    };
    if is(name, "replay") {
        return replay_of(words, matches);
    }
    if is(name, "relay") {
        return relay_of(words, matches);
    }
    if is(name, "demo") {
        return demo_of(words, matches);
    }
    if is(name, "migrate") {
        return alone(words, Command::Migrate);
    }
    if is(name, "capture") {
        return alone(words, Command::Capture);
    }
    if is(name, "bridge") {
        return alone(words, Command::Bridge);
    }
    None
}

/// What is answered where clap refuses the words.
fn refused(kind: ErrorKind) -> CommandFault
    ensures memory { kind ≡ ErrorKind.OutOfMemory → result ≡ CommandFault.NoMemory }
    ensures usage { kind ≢ ErrorKind.OutOfMemory → result ≡ CommandFault.Usage }
{
    match kind {
        ErrorKind::OutOfMemory => CommandFault::NoMemory,
        _ => CommandFault::Usage,
    }
}

/// The command that the words after the program's name are, or `Usage` where they are none; or `NoMemory`, whatever they are,
/// where there is no memory to read them.
///
/// `replay [--workers W] [--mux]`, `relay --turns T [--mux | --bridge]`, `demo CALLS START [--workers W]`, `migrate`, `capture` and
/// `bridge`. An option stands in front of the numbers, between or behind them, once at most, as `--workers 4` or
/// `--workers=4`; a lone `--` says that none is behind it.
pub fn read_command(alloc: Global, words: &[String]) -> Result<Command, CommandFault>
    ensures command { IfOk result (λ c. AreWordsOf (map string_bytes words.now) c) }
    ensures usage { result ≡ Err CommandFault.Usage → IsNoCommand (map string_bytes words.now) }
    ensures told { (c : Command) → AreWordsOf (map string_bytes words.now) c → (result ≡ Ok c) ⊎ (result ≡ Err CommandFault.NoMemory) }
{
    let matches = match cut(alloc, words) {
        Err(error) => return Err(refused(error.kind())),
        Ok(matches) => matches,
    };
    match said(words, &matches) {
        Some(command) => Ok(command),
        None => Err(CommandFault::Usage),
    }
}
