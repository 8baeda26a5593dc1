//! The first token of a statement that is past a limit.
ghost use Rattle.std.specs.Prelude.{◌≡◌, option_map, IfOk};
ghost use Rattle.fort_grammar.specs.Token.{token_class};
ghost use Rattle.fort_stmt.specs.Cuts.{grown as grown_cut, above, above_action, cut_of, JudgesCut, JudgesAt};
ghost use Rattle.fort_stmt.specs.Limits.{FirstPastLimit, ParenthesesCount};

use fort_expr::{Shape, depth_limit, is_leaf, is_too_deep, shape_of, token_limit};
use fort_grammar::{Action, Build, Part, Stack, Step, Symbol, advance, class_of};
use fort_tree::{Mode, NoMemory, Token};
use std::alloc::Global;

/// The shapes of what has been read, without its trees.
#[derive(Debug, Drop)]
pub struct Depths {
    pub shapes: Stack<Shape>,
}

impl Build for Depths {
    ghost use Rattle.fort_stmt.specs.Cuts.{shift_depths, apply_depths};

    ghost shifted = { λ t v. shift_depths t v };

    ghost applied = { λ x v. apply_depths x v };

    fn shift(&mut self, _alloc: Global, _token: &Token) -> Result<(), NoMemory> {
        self.shapes.push(Shape::Written)
    }

    fn build(&mut self, _alloc: Global, action: Action) -> Result<(), NoMemory> {
        let shape = shape_of(action, &mut self.shapes);
        self.shapes.push(shape)
    }
}

/// What stands on top of the symbols that are wanted: what is still wanted of what is judged by itself, or the end of a CALL's arguments.
#[derive(Debug, Drop)]
pub enum Cut {
    /// Nothing but the action behind the arguments.
    Arguments,
    /// The closing parenthesis too.
    Close,
    /// The tail of the list too. Only an argument's action stands before that argument.
    Tail,
    Portion(Stack<Symbol>),
}

fn grown(alloc: Global, symbol: Symbol, cut: Cut) -> Result<Cut, NoMemory>
    ensures { IfOk result (λ more. more ≡ grown_cut symbol cut) }
{
    match cut {
        Cut::Arguments => Ok(Cut::Close),
        Cut::Close => Ok(Cut::Tail),
        Cut::Tail => Ok(Cut::Portion(Stack::new(alloc))),
        Cut::Portion(mut symbols) => {
            symbols.push(symbol)?;
            Ok(Cut::Portion(symbols))
        }
    }
}

fn put(alloc: Global, symbol: Symbol, below: Option<Cut>) -> Result<Option<Cut>, NoMemory>
    ensures { IfOk result (λ cut. cut ≡ option_map (grown_cut symbol) below) }
{
    match below {
        None => Ok(None),
        Some(cut) => Ok(Some(grown(alloc, symbol, cut)?)),
    }
}

fn put_action(alloc: Global, action: Action, below: Option<Cut>) -> Result<Option<Cut>, NoMemory>
    ensures { IfOk result (λ cut. cut ≡ above_action action below) }
{
    match action {
        Action::Whole => Ok(Some(Cut::Portion(Stack::new(alloc)))),
        Action::Arguments => Ok(Some(Cut::Arguments)),
        _ => put(alloc, Symbol::Build(action), below),
    }
}

fn put_symbol(alloc: Global, symbol: Symbol, below: Option<Cut>) -> Result<Option<Cut>, NoMemory>
    ensures { IfOk result (λ cut. cut ≡ above symbol below) }
{
    match symbol {
        Symbol::Build(action) => put_action(alloc, action, below),
        Symbol::Take(class) => put(alloc, Symbol::Take(class), below),
        Symbol::Call(part) => put(alloc, Symbol::Call(part), below),
    }
}

fn cut_at(alloc: Global, stack: &Stack<Symbol>) -> Result<Option<Cut>, NoMemory>
    ensures { IfOk result (λ cut. cut ≡ cut_of stack.now) }
{
    let mut cut = None;
    for symbol in stack.items() {
        cut = put_symbol(alloc, *symbol, cut)?;
    }
    Ok(cut)
}

fn judge(
    alloc: Global,
    mode: Mode,
    cut: &Option<Cut>,
    shapes: &Stack<Shape>,
) -> Result<bool, NoMemory>
    ensures { IfOk result (λ b. JudgesCut b mode cut.now shapes.now) }
{
    match cut {
        Some(Cut::Portion(symbols)) => is_too_deep(alloc, symbols, shapes, depth_limit(mode)),
        _ => Ok(false),
    }
}

fn is_deep_at(
    alloc: Global,
    mode: Mode,
    stack: &Stack<Symbol>,
    shapes: &Stack<Shape>,
    token: &Token,
) -> Result<bool, NoMemory>
    ensures { IfOk result (λ b. JudgesAt b mode (token_class token.now) stack.now shapes.now) }
{
    let leaf = is_leaf(class_of(token));
    if leaf {
        let cut = cut_at(alloc, stack)?;
        judge(alloc, mode, &cut, shapes)
    } else {
        Ok(false)
    }
}

/// The number of the statement's first token that is past a limit, among those up to which a statement can begin; `None` exactly where there is none. All tokens
/// count, and at most 1000 may stand in a source, 16000 in a target text. Each side of an assignment, each argument of a CALL, each test, the expression of SELECT CASE
/// and each of a DO's three is judged by itself: a name, number or truth value is past the limit where what it stands in, cut behind it and with its open
/// parentheses closed, is deeper than 64, in a target text 96. The limits are this project's own.
///
/// No tree is built, and nothing recurses. The time is at most in proportion to the tokens and to the limit of depth.
///
/// # Errors
/// `NoMemory` only where memory was refused.
pub fn first_past_limit(
    alloc: Global,
    mode: Mode,
    tokens: &[Token],
) -> Result<Option<usize>, NoMemory>
    ensures { IfOk result (λ first. FirstPastLimit mode tokens.now first) }
{
    let mut stack = Stack::new(alloc);
    let mut depths = Depths {
        shapes: Stack::new(alloc),
    };
    stack.push(Symbol::Call(Part::Statement))?;
    for (i, token) in tokens.iter().enumerate() {
        match advance(alloc, &mut stack, &mut depths, token)? {
            Step::Moved => {}
            Step::Whole => return Ok(None),
            Step::Stuck => return Ok(None),
        }
        let past = i >= token_limit(mode);
        if past {
            return Ok(Some(i));
        }
        let deep = is_deep_at(alloc, mode, &stack, &depths.shapes, token)?;
        if deep {
            return Ok(Some(i));
        }
    }
    Ok(None)
}

/// A law of the definition of the limits: each pair of parentheses counts. The function does nothing.
pub fn parentheses_count()
    ensures { ParenthesesCount }
{}
