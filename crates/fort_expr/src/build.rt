//! What the actions of an expression's rows build.
ghost use Rattle.std.specs.Prelude.{◌≡◌, ◌∷◌, codes, IfOk};
ghost use Rattle.fort_expr.specs.Values.{rest, word, operand, operand_place, bound, subscript, subscripts, name, number, truth, reference, operator, word_place, apply};

use crate::depth::shape_of;
use crate::value::{Shape, Value, Word};
use crate::words::{kind_of, number_of, operator_of};
use fort_grammar::{Action, Build, Stack};
use fort_tree::{Boxed, Expr, Name, NoMemory, Op, Place, Seq, Sub, Token, Unary};
use std::alloc::Global;

const NOWHERE: Place = Place {
    file: 0,
    line: 0,
    column: 0,
};

/// Takes the word on top. `None` where something else stands there; it is taken too.
pub fn pop_word(values: &mut Stack<Value>) -> Option<Word>
    ensures value { result ≡ word values.old }
    ensures below { values.new ≡ rest values.old }
{
    match values.pop() {
        Some(Value::Written(word)) => Some(word),
        _ => None,
    }
}

/// Takes the expression on top, with the place of its first token; `.false.` at no place where something else stands there.
pub fn pop_operand(values: &mut Stack<Value>) -> (Expr, Place)
    ensures value { result.0 ≡ operand values.old }
    ensures place { result.1 ≡ operand_place values.old }
    ensures below { values.new ≡ rest values.old }
{
    match values.pop() {
        Some(Value::Operand(expr, at)) => (expr, at),
        _ => (Expr::Truth(false, NOWHERE), NOWHERE),
    }
}

/// Takes the bound on top, which is `None` where none is written or something else stands there.
pub fn pop_bound(values: &mut Stack<Value>) -> Option<Expr>
    ensures value { result ≡ bound values.old }
    ensures below { values.new ≡ rest values.old }
{
    match values.pop() {
        Some(Value::Bound(bound)) => bound,
        _ => None,
    }
}

fn pop_subscript(values: &mut Stack<Value>) -> Sub
    ensures value { result ≡ subscript values.old }
    ensures below { values.new ≡ rest values.old }
{
    match values.pop() {
        Some(Value::Subscript(sub)) => sub,
        _ => Sub::Range(None, None, NOWHERE),
    }
}

/// Takes the subscripts on top, none where something else stands there.
pub fn pop_subscripts(alloc: Global, values: &mut Stack<Value>) -> Seq<Sub>
    ensures value { result ≡ subscripts values.old }
    ensures below { values.new ≡ rest values.old }
{
    match values.pop() {
        Some(Value::Subscripts(subs)) => subs,
        _ => Seq::new(alloc),
    }
}

/// Where the word stands.
pub fn place_of(word: &Option<Word>) -> Place
    ensures { result ≡ word_place word.now }
{
    match word {
        None => NOWHERE,
        Some(word) => word.at,
    }
}

fn name_x() -> Name
    ensures { result ≡ codes "x" }
{
    match Name::read(b"x") {
        Some(name) => name,
        None => unreachable!(),
    }
}

/// The name that the word is, and `x` where it is none.
pub fn name_of(word: &Option<Word>) -> Name
    ensures { result ≡ name word.now }
{
    match word {
        None => name_x(),
        Some(word) => match Name::read(word.text.items()) {
            Some(name) => name,
            None => name_x(),
        },
    }
}

fn number_in(word: &Option<Word>) -> Expr
    ensures { result ≡ number word.now }
{
    match word {
        None => Expr::Truth(false, NOWHERE),
        Some(word) => Expr::Number(
            number_of(word.text.items()),
            kind_of(word.text.items()),
            word.at,
        ),
    }
}

fn truth_in(word: &Option<Word>) -> Expr
    ensures { result ≡ truth word.now }
{
    match word {
        None => Expr::Truth(false, NOWHERE),
        Some(word) => Expr::Truth(word.text.items() == b".true.".as_slice(), word.at),
    }
}

/// The reference that the word is with these subscripts, or without any.
pub fn reference_to(word: &Option<Word>, subs: Option<Seq<Sub>>) -> Expr
    ensures { result ≡ reference word.now subs }
{
    Expr::Ref(name_of(word), subs, place_of(word))
}

fn operator_in(word: &Option<Word>) -> Op
    ensures { result ≡ operator word.now }
{
    match word {
        None => Op::Add,
        Some(word) => operator_of(word.text.items()),
    }
}

fn one(alloc: Global, unary: Unary, values: &mut Stack<Value>) -> Result<Value, NoMemory>
    ensures { IfOk result (λ top. top ∷ values.new ≡ Value.Operand (Expr.One unary (operand values.old) (word_place (word (rest values.old)))) (word_place (word (rest values.old))) ∷ rest (rest values.old)) }
{
    let (inner, _at) = pop_operand(values);
    let at = place_of(&pop_word(values));
    Ok(Value::Operand(Expr::One(unary, Boxed::new(alloc, inner)?, at), at))
}

fn two(alloc: Global, values: &mut Stack<Value>) -> Result<Value, NoMemory>
    ensures { IfOk result (λ top. top ∷ values.new ≡ Value.Operand (Expr.Two (operator (word (rest values.old))) (operand (rest (rest values.old))) (operand values.old)) (operand_place (rest (rest values.old))) ∷ rest (rest (rest values.old))) }
{
    let (right, _right_at) = pop_operand(values);
    let op = operator_in(&pop_word(values));
    let (left, at) = pop_operand(values);
    let left = Boxed::new(alloc, left)?;
    let right = Boxed::new(alloc, right)?;
    Ok(Value::Operand(Expr::Two(op, left, right), at))
}

/// What an action of an expression's rows builds of the values, which it takes; for another action that is a bound that isn't written.
///
/// # Errors
/// `NoMemory` only where memory was refused.
#[tactic(auto, unfolding(crate::specs::Values::apply))]
pub fn built(alloc: Global, action: Action, values: &mut Stack<Value>) -> Result<Value, NoMemory>
    ensures { IfOk result (λ top. top ∷ values.new ≡ apply action values.old) }
{
    match action {
        Action::Number => {
            let word = pop_word(values);
            Ok(Value::Operand(number_in(&word), place_of(&word)))
        }
        Action::Truth => {
            let word = pop_word(values);
            Ok(Value::Operand(truth_in(&word), place_of(&word)))
        }
        Action::Bare => {
            let word = pop_word(values);
            Ok(Value::Operand(reference_to(&word, None), place_of(&word)))
        }
        Action::Subscripted => {
            let _close = pop_word(values);
            let subs = pop_subscripts(alloc, values);
            let _open = pop_word(values);
            let word = pop_word(values);
            Ok(Value::Operand(reference_to(&word, Some(subs)), place_of(&word)))
        }
        Action::Paren => {
            let _close = pop_word(values);
            let (inner, _at) = pop_operand(values);
            let at = place_of(&pop_word(values));
            Ok(Value::Operand(Expr::Paren(Boxed::new(alloc, inner)?, at), at))
        }
        Action::Not => one(alloc, Unary::Not, values),
        Action::Plus => one(alloc, Unary::Plus, values),
        Action::Minus => one(alloc, Unary::Minus, values),
        Action::Two => two(alloc, values),
        Action::NoSubs => Ok(Value::Subscripts(Seq::new(alloc))),
        Action::FirstSub => {
            let mut subs = Seq::new(alloc);
            subs.push(pop_subscript(values))?;
            Ok(Value::Subscripts(subs))
        }
        Action::NextSub => {
            let last = pop_subscript(values);
            let _comma = pop_word(values);
            let mut subs = pop_subscripts(alloc, values);
            subs.push(last)?;
            Ok(Value::Subscripts(subs))
        }
        Action::OneSub => {
            let (expr, _at) = pop_operand(values);
            Ok(Value::Subscript(Sub::One(expr)))
        }
        Action::Section => {
            let upper = pop_bound(values);
            let _colon = pop_word(values);
            let (lower, at) = pop_operand(values);
            Ok(Value::Subscript(Sub::Range(Some(lower), upper, at)))
        }
        Action::FromStart => {
            let upper = pop_bound(values);
            let colon = pop_word(values);
            Ok(Value::Subscript(Sub::Range(None, upper, place_of(&colon))))
        }
        Action::Present => {
            let (expr, _at) = pop_operand(values);
            Ok(Value::Bound(Some(expr)))
        }
        _ => Ok(Value::Bound(None)),
    }
}

/// Values with their shapes beside them.
#[derive(Debug, Drop)]
pub struct Tracked {
    pub values: Stack<Value>,
    pub shapes: Stack<Shape>,
}

impl Build for Tracked {
    ghost use Rattle.fort_expr.specs.Tracks.{shift_both, apply_both};

    ghost shifted = { λ t v. shift_both t v };

    ghost applied = { λ x v. apply_both x v };

    fn shift(&mut self, alloc: Global, token: &Token) -> Result<(), NoMemory> {
        let text = token.text.copied(alloc)?;
        self.values
            .push(Value::Written(Word { text, at: token.at }))?;
        self.shapes.push(Shape::Written)
    }

    fn build(&mut self, alloc: Global, action: Action) -> Result<(), NoMemory> {
        let top = built(alloc, action, &mut self.values)?;
        self.values.push(top)?;
        let shape = shape_of(action, &mut self.shapes);
        self.shapes.push(shape)
    }
}
