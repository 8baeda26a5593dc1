// The words taken apart: which are positional, and which are values of an option.
ghost use Rattle.std.specs.Prelude.{◌≡◌, ◌≢◌, [], IfOk, IsErrOf};
ghost use Rattle.clap.specs.Words.{rows_of, found_of, matches_of, fault_of, app_of};
ghost use Rattle.claw_words.specs.Command.{texts_of, claw_command};

use crate::fault::WordsFault;
use clap::error::ErrorKind;
use clap::{Arg, ArgAction, ArgMatches, Command};
use std::alloc::{AllocError, Global};

// The positional words and the options, each with all its values.
fn command<'a>(alloc: Global) -> Result<Command<'a>, AllocError>
    ensures { IfOk result (λ command. app_of command ≡ claw_command) }
{
    let words = Arg::new(alloc, "words")
        .num_args(1..)
        .action(ArgAction::Append);
    let target = Arg::new(alloc, "target")
        .long("target")
        .action(ArgAction::Append);
    let directive = Arg::new(alloc, "directive")
        .long("directive")
        .action(ArgAction::Append);
    let command = Command::new(alloc, "claw")
        .arg(words)?
        .arg(target)?
        .arg(directive)?;
    Ok(command)
}

// The words taken apart. `NoRequest` exactly where `clap` finds a fault in them.
pub(crate) fn matched<'a>(alloc: Global, words: &'a [&'a str]) -> Result<ArgMatches<'a>, WordsFault>
    ensures rows { IfOk result (λ matches. rows_of (found_of matches) ≡ matches_of claw_command (texts_of words.now)) }
    ensures no_fault { IfOk result (λ _. fault_of claw_command (texts_of words.now) ≡ []) }
    ensures fault { IsErrOf result WordsFault.NoRequest → fault_of claw_command (texts_of words.now) ≢ [] }
{
    let Ok(command) = command(alloc) else {
        return Err(WordsFault::NoMemory);
    };
    match command.try_get_matches_from(words) {
        Ok(matches) => Ok(matches),
        Err(error) => {
            if error.kind() == ErrorKind::OutOfMemory {
                Err(WordsFault::NoMemory)
            } else {
                Err(WordsFault::NoRequest)
            }
        }
    }
}
