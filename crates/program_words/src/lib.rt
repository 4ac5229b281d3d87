//! Reads the words of the command line.
#![tactic(auto)]

ghost use Rattle.std.specs.Prelude.{◌≡◌, ◌≢◌, None, IfOk, IfErr, map, string_bytes};
ghost use Rattle.clap.specs.Words.{kind_of};
ghost use Rattle.clap.specs.declared.error.kind.ErrorKind.TheVariants.{OutOfMemory};
ghost use Rattle.program_words.specs.Words.{mode_named, mode_of, HasMode};

use clap::error::ErrorKind;
use clap::{Arg, ArgAction, ArgMatches, Command, Error};
use std::alloc::{AllocError, Global};

/// What the program does: it checks a theory and prints its theorems; it writes the theory's proof log; or it checks a
/// proof log and prints its report.
#[derive(Clone, Copy, Debug, PartialEq, Eq, Drop)]
pub enum Mode {
    Check,
    Log,
    Replay,
}

/// The modes of the program.
static MODES: [&str; 3] = ["check", "log", "replay"];

/// Reads the words as one simple command, with the mode as its only argument.
fn parse<'a>(alloc: Global, words: &'a [String]) -> Result<ArgMatches<'a>, Error>
    ensures taken { IfOk result (λ m. HasMode (map string_bytes words.now) m) }
    ensures refused { IfErr result (λ e. mode_of (map string_bytes words.now) ≢ None → kind_of e ≡ OutOfMemory) }
{
    let mode = Arg::new(alloc, "mode")
        .required(true)
        .action(ArgAction::Set)
        .value_parser(MODES.as_slice());
    let command = Command::new(alloc, "hbnf")
        .disable_help_flag(true)
        .arg(mode)?;
    command.try_get_matches_from(words)
}

/// The mode of the name.
fn mode_named(name: &str) -> Option<Mode>
    ensures { result ≡ mode_named name.now }
{
    if name == "check" {
        Some(Mode::Check)
    } else if name == "log" {
        Some(Mode::Log)
    } else if name == "replay" {
        Some(Mode::Replay)
    } else {
        None
    }
}

/// The mode, where the words are the program's name and one mode, as one simple command reads them: the first word `--` ends the
/// options, of which there are none, so that each other word before it that begins with `-` fails. None where they are others. The
/// only error is want of memory.
pub fn mode_of(alloc: Global, words: &[String]) -> Result<Option<Mode>, AllocError>
    ensures { IfOk result (λ mode. mode ≡ mode_of (map string_bytes words.now)) }
{
    match parse(alloc, words) {
        Ok(matches) => match matches.get_str("mode") {
            Some(name) => Ok(mode_named(name)),
            None => Ok(None),
        },
        Err(error) => {
            if error.kind() == ErrorKind::OutOfMemory {
                Err(AllocError)
            } else {
                Ok(None)
            }
        }
    }
}
