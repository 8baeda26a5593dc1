// What the words ask for.
ghost use Rattle.std.specs.Prelude.{◌≡◌, IfOk, IsErrOf, None, Some, [], unwrap_or};
ghost use Rattle.clap.specs.Words.{rows_of, found_of, all_of};
ghost use Rattle.claw_words.specs.Command.{texts_of, values_seen};
ghost use Rattle.claw_words.specs.Request.{request_of, target_of, directives_of, named_target, named_directives, named_command, translate_with as translate_test, check_with as check_test, is_given as is_some_given, command_of, files_of, wanted_of};

use crate::fault::WordsFault;
use crate::matching::matched;
use clap::ArgMatches;
use fort_tree::{Directives, Target};
use std::alloc::Global;

/// What is to be done with files.
#[derive(Clone, Copy, Debug, PartialEq, Eq)]
pub enum Command {
    /// They are translated for a processor, with marks for parallel loops.
    Translate(Target, Directives),
    /// They are checked, and nothing is written of them but how many units they have.
    Check,
}

/// A request.
#[derive(Debug, Drop)]
pub struct Request<'a> {
    pub command: Command,
    /// The names of the files, at least one.
    pub files: Vec<&'a str>,
}

/// The request that the words of a command line are.
///
/// The first word is the program's name, which is passed over. The first of the positional words is the
/// command, `translate` or `check`, and the others name its files, at least one. `translate` has two
/// options, each given once at most: `--target` with the value `cpu`, which it has where it is not given,
/// and `--directive` with the value `none` in the same way; `check` has none. A value stands in the next
/// word, which then does not begin with `-` unless it is `-` alone, or behind `=`. An option may stand
/// before the command and is not shortened. All words behind `--` are positional.
///
/// - `NoRequest`: exactly where the words are no such request, as with no word at all, another word that
///   begins with `-` and goes on, an option given twice or without a value, one that the command doesn't
///   have, and `--help`.
/// - `NoMemory`: memory was refused. This may come at any words.
pub fn read_words<'a>(alloc: Global, words: &'a [&'a str]) -> Result<Request<'a>, WordsFault>
    ensures ok { IfOk result (λ request. request_of (texts_of words.now) ≡ Some (wanted_of request)) }
    ensures no_request { IsErrOf result WordsFault.NoRequest → request_of (texts_of words.now) ≡ None }
{
    let matches = matched(alloc, words)?;
    let positional = values(&matches, "words");
    let targets = values(&matches, "target");
    let directives = values(&matches, "directive");
    let Some(command) = command_in(positional, targets, directives) else {
        return Err(WordsFault::NoRequest);
    };
    let Some(files) = files_in(positional) else {
        return Err(WordsFault::NoRequest);
    };
    match Vec::from_slice(alloc, files) {
        Ok(files) => Ok(Request { command, files }),
        Err(_) => Err(WordsFault::NoMemory),
    }
}

// The values of an argument, where it has any.
fn values<'a, 'b>(matches: &'b ArgMatches<'a>, id: &str) -> Option<&'b [&'a str]>
    ensures { values_seen result ≡ all_of id.now (rows_of (found_of matches.now)) }
{
    matches.get_strs(id)
}

// The files that the positional words name behind the command.
fn files_in<'a, 'b>(words: Option<&'b [&'a str]>) -> Option<&'b [&'a str]>
    ensures { values_seen result ≡ files_of (unwrap_or (values_seen words.entry) []) }
{
    match words {
        Some([_, files @ ..]) if !files.is_empty() => Some(files),
        _ => None,
    }
}

// The command, which is the first of the positional words, with the values of its options.
fn command_in(
    words: Option<&[&str]>,
    targets: Option<&[&str]>,
    directives: Option<&[&str]>,
) -> Option<Command>
    ensures { result ≡ command_of (unwrap_or (values_seen words.entry) []) (unwrap_or (values_seen targets.entry) []) (unwrap_or (values_seen directives.entry) []) }
{
    match words {
        None | Some([]) => None,
        Some([name, ..]) => command_named(name, targets, directives),
    }
}

// The command that the word names.
fn command_named(
    name: &str,
    targets: Option<&[&str]>,
    directives: Option<&[&str]>,
) -> Option<Command>
    ensures { result ≡ named_command name.now (unwrap_or (values_seen targets.entry) []) (unwrap_or (values_seen directives.entry) []) }
{
    match name {
        "translate" => translate_with(target_in(targets), directives_in(directives)),
        "check" => check_with(targets, directives),
        _ => None,
    }
}

fn translate_with(target: Option<Target>, directives: Option<Directives>) -> Option<Command>
    ensures { result ≡ translate_test target directives }
{
    match (target, directives) {
        (Some(target), Some(directives)) => Some(Command::Translate(target, directives)),
        _ => None,
    }
}

// `check` has no options.
fn check_with(targets: Option<&[&str]>, directives: Option<&[&str]>) -> Option<Command>
    ensures { result ≡ check_test (unwrap_or (values_seen targets.entry) []) (unwrap_or (values_seen directives.entry) []) }
{
    if is_given(targets) || is_given(directives) {
        None
    } else {
        Some(Command::Check)
    }
}

fn is_given(values: Option<&[&str]>) -> bool
    ensures { result ≡ is_some_given (unwrap_or (values_seen values.entry) []) }
{
    match values {
        None | Some([]) => false,
        Some([_, ..]) => true,
    }
}

fn target_in(values: Option<&[&str]>) -> Option<Target>
    ensures { result ≡ target_of (unwrap_or (values_seen values.entry) []) }
{
    match values {
        None | Some([]) => Some(Target::Cpu),
        Some([value]) => target_named(value),
        Some(_) => None,
    }
}

// The processor that the word names: one line for each that programs are made for.
fn target_named(name: &str) -> Option<Target>
    ensures { result ≡ named_target name.now }
{
    match name {
        "cpu" => Some(Target::Cpu),
        _ => None,
    }
}

fn directives_in(values: Option<&[&str]>) -> Option<Directives>
    ensures { result ≡ directives_of (unwrap_or (values_seen values.entry) []) }
{
    match values {
        None | Some([]) => Some(Directives::Plain),
        Some([value]) => directives_named(value),
        Some(_) => None,
    }
}

// The marks that the word names: one line for each that programs are given.
fn directives_named(name: &str) -> Option<Directives>
    ensures { result ≡ named_directives name.now }
{
    match name {
        "none" => Some(Directives::Plain),
        _ => None,
    }
}
