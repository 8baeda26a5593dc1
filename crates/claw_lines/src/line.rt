//! The directives or the mark of a line.
ghost use Rattle.std.specs.Prelude.{◌≡◌, ◌∷◌, [], true, List, IfOk, IsErrOf};
ghost use Rattle.claw_lines.specs.Forms.{Asks, IsLine, directive_of, is_whole as whole_test, is_of_parts, sentinel_place};
ghost use Rattle.claw_lines.specs.Answer.{Answers};

use crate::dimension::dimension;
use crate::given::{Given, all_parts};
use crate::part::needs_names;
use crate::taking::{after, begun};
use crate::unread::Unread;
use fort_tree::{Code, Directive, DirectiveWord, Fault, Line, Place, Seq, Stop, Token};
use std::alloc::Global;

/// The directive or mark of the form with what is given.
fn made(alloc: Global, at: Place, word: DirectiveWord, given: Given) -> Directive
    ensures { result ≡ directive_of at word given }
{
    let Given {
        names,
        over,
        number,
        group,
        offset: _,
        init,
    } = given;
    let names = match names {
        Some(names) => names,
        None => Seq::new(alloc),
    };
    Directive {
        at,
        word,
        names,
        over,
        number,
        group,
        init,
        lower: None,
        upper: None,
    }
}

/// Whether no names are missing.
fn is_whole(word: DirectiveWord, given: &Given) -> bool
    ensures { result ≡ whole_test word given.now }
{
    !needs_names(word) || given.names.is_some()
}

fn one(alloc: Global, directive: Directive) -> Result<Seq<Directive>, Unread>
    ensures some { IfOk result (λ directives. directives ≡ directive ∷ []) }
    ensures none { IsErrOf result Unread.NoForm → ⊥ }
{
    let mut directives = Seq::new(alloc);
    directives.push(directive)?;
    Ok(directives)
}

/// The directive or mark of a form of words and parts alone.
fn of_parts(
    alloc: Global,
    at: Place,
    word: DirectiveWord,
    tokens: &[Token],
) -> Result<Seq<Directive>, Unread>
    requires { is_of_parts word ≡ true }
    ensures some { IfOk result (λ directives. Asks at word tokens.now directives) }
    ensures none { IsErrOf result Unread.NoForm → (directives : List Directive) → Asks at word tokens.now directives → ⊥ }
{
    let given = all_parts(alloc, word, tokens)?;
    if !is_whole(word, &given) {
        return Err(Unread::NoForm);
    }
    one(alloc, made(alloc, at, word, given))
}

/// `define dimension`, alone or with `parallelize` behind it.
fn of_dimension(alloc: Global, at: Place, tokens: &[Token]) -> Result<Seq<Directive>, Unread>
    ensures some { IfOk result (λ directives. Asks at DirectiveWord.Define tokens.now directives) }
    ensures none { IsErrOf result Unread.NoForm → (directives : List Directive) → Asks at DirectiveWord.Define tokens.now directives → ⊥ }
{
    let (dimension, more) = dimension(alloc, at, tokens)?;
    let mut directives = one(alloc, dimension)?;
    if more.is_empty() {
        return Ok(directives);
    }
    let behind = after(more, &[b"parallelize"]).ok_or(Unread::NoForm)?;
    let given = all_parts(alloc, DirectiveWord::Parallelize, behind)?;
    directives.push(made(alloc, at, DirectiveWord::Parallelize, given))?;
    Ok(directives)
}

/// What the tokens of a line, its sentinel among them, ask for.
fn asked(alloc: Global, at: Place, tokens: &[Token]) -> Result<Seq<Directive>, Unread>
    ensures some { IfOk result (λ directives. IsLine at tokens.now directives) }
    ensures none { IsErrOf result Unread.NoForm → (directives : List Directive) → IsLine at tokens.now directives → ⊥ }
{
    let (word, behind) = begun(tokens).ok_or(Unread::NoForm)?;
    match word {
        DirectiveWord::Define => of_dimension(alloc, at, behind),
        _ => of_parts(alloc, at, word, behind),
    }
}

fn sentinel_at(line: &Line) -> Place
    ensures { result ≡ sentinel_place line.now }
{
    match line.tokens.items().first() {
        None => line.at,
        Some(sentinel) => sentinel.at,
    }
}

/// What a directive line or a mark line asks for: a directive, `define dimension` and `parallelize`, or a mark. Each is placed at the line's sentinel. The forms
/// are this project's own spelling of the CLAW directives.
///
/// # Errors
/// - `Stop::Fault` with E40 at the sentinel, the line's first token, exactly where the tokens are no form, or the line that continues this one is missing. So a
///   statement's line has E40 too; one without tokens has it at the line's place.
/// - `Stop::NoMemory` only where memory was refused.
pub fn directive(alloc: Global, line: &Line) -> Result<Seq<Directive>, Stop>
    ensures { Answers line.now result }
{
    let at = sentinel_at(line);
    let fault = Fault::new(Code::E40, at);
    if line.unfinished.is_some() {
        return Err(Stop::Fault(fault));
    }
    match asked(alloc, at, line.tokens.items()) {
        Ok(directives) => Ok(directives),
        Err(Unread::NoForm) => Err(Stop::Fault(fault)),
        Err(Unread::NoMemory) => Err(Stop::NoMemory),
    }
}
