//! The statement of a line.
ghost use Rattle.std.specs.Prelude.{◌≡◌, ◌-◌, ◌<◌, length, Some, None, IfOk};
ghost use Rattle.fort_expr.specs.Faults.{FaultAt};
ghost use Rattle.fort_stmt.specs.declared.judging.Extent.{Extent};
ghost use Rattle.fort_stmt.specs.declared.outline.Outline.{Outline};
ghost use Rattle.fort_stmt.specs.Faults.{Extends};
ghost use Rattle.fort_stmt.specs.Verdict.{Answers, Sketches, IsFirst, of_form, earlier as earlier_of};

use crate::building::built;
use crate::judging::{Extent, Judgement, extent_of, judged};
use crate::limits::first_past_limit;
use crate::sort::Sort;
use fort_tree::{Code, Fault, Line, Mode, NoMemory, Statement, Stop, Token};
use std::alloc::Global;

/// A fault at the token with the number `at`.
#[derive(Clone, Copy, Debug)]
struct Wrong {
    at: usize,
    code: Code,
    item: u8,
}

/// The first fault of form or of the profile.
fn form_fault(alloc: Global, mode: Mode, tokens: &[Token]) -> Result<Option<Wrong>, NoMemory>
    requires { 0 < length tokens.now }
    ensures { IfOk result (λ wrong. (x : Extent) × (o : Outline) × Extends x mode tokens.now o × (wrong ≡ of_form x (length tokens.now - 1))) }
{
    let last = tokens.len() - 1;
    match extent_of(alloc, mode, tokens)? {
        Extent::Whole => Ok(None),
        Extent::Syntax(count) => Ok(Some(Wrong {
            at: count.min(last),
            code: Code::E10,
            item: 0,
        })),
        Extent::Outside(at, item) => Ok(Some(Wrong {
            at,
            code: Code::E20,
            item,
        })),
    }
}

/// The earlier of that fault and the first token past a limit. At one token the limit comes last.
fn earlier(form: Option<Wrong>, past: Option<usize>) -> Option<Wrong>
    ensures { result ≡ earlier_of form past }
{
    let Some(at) = past else {
        return form;
    };
    let limit = Wrong {
        at,
        code: Code::E70,
        item: 0,
    };
    match form {
        None => Some(limit),
        Some(wrong) => {
            if at < wrong.at {
                Some(limit)
            } else {
                Some(wrong)
            }
        }
    }
}

/// The first fault of the tokens, if they have one.
fn first_wrong(alloc: Global, mode: Mode, tokens: &[Token]) -> Result<Option<Wrong>, NoMemory>
    requires { 0 < length tokens.now }
    ensures { IfOk result (λ wrong. IsFirst wrong mode tokens.now) }
{
    let form = form_fault(alloc, mode, tokens)?;
    let past = first_past_limit(alloc, mode, tokens)?;
    Ok(earlier(form, past))
}

fn fault(tokens: &[Token], wrong: Wrong) -> Fault
    requires { wrong.at < length tokens.now }
    ensures { FaultAt tokens.now wrong.at wrong.code wrong.item result }
{
    Fault {
        code: wrong.code,
        place: tokens[wrong.at].at,
        item: wrong.item,
        first: None,
        second: None,
    }
}

/// The statement that the line is (ISO/IEC 1539-1:2018, cut down to this project's profile).
///
/// # Errors
/// The first fault of the line:
/// - `E10` at the first token with which no statement can begin, or at the last token where all of them begin one; and at an `&` whose next line is missing.
/// - `E20` at a token outside the profile, with the least item of this project's list that it has. It is no fault behind the place of `E10`.
/// - `E70` at the first token past 1000, or at the first name, number or truth value behind which an expression of the statement is deeper than 64, its open
///   parentheses closed; in a target text 16000 and 96.
///
/// At one token `E20` comes before `E10`, and that before `E70`. `NoMemory` only where memory was refused.
pub fn statement(alloc: Global, line: &Line) -> Result<Statement, Stop>
    requires { 0 < length line.now.tokens }
    ensures { Answers result line.now }
{
    let tokens = line.tokens.items();
    if let Some(wrong) = first_wrong(alloc, line.mode, tokens)? {
        return Err(Stop::Fault(fault(tokens, wrong)));
    }
    if let Some(at) = line.unfinished {
        return Err(Stop::Fault(Fault::new(Code::E10, at)));
    }
    Ok(built(alloc, tokens)?)
}

/// What the line is for nesting: the sort of its statement, or `None` exactly where its tokens are no statement, one of them is outside the profile, or its
/// continuation is missing. Limits are set aside.
///
/// # Errors
/// `NoMemory` only where memory was refused.
pub fn sketch(alloc: Global, line: &Line) -> Result<Option<Sort>, NoMemory>
    ensures { IfOk result (λ sort. Sketches sort line.now) }
{
    if line.unfinished.is_some() {
        return Ok(None);
    }
    match judged(alloc, line.mode, line.tokens.items())? {
        Judgement::Form(sort) => Ok(Some(sort)),
        Judgement::Syntax(_) => Ok(None),
        Judgement::Outside(_, _) => Ok(None),
    }
}
