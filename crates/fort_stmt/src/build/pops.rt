//! What several files take of the values.
ghost use Rattle.std.specs.Prelude.{◌≡◌};
ghost use Rattle.fort_expr.specs.Values.{rest, word, operand};
ghost use Rattle.fort_stmt.specs.Values.{named, rest_two, rest_three};

use fort_expr::{Value, name_of, place_of, pop_operand, pop_word};
use fort_grammar::Stack;
use fort_tree::{Expr, Named};

/// Takes a name, with its place.
pub fn pop_named(values: &mut Stack<Value>) -> Named
    ensures value { result ≡ named (word values.old) }
    ensures below { values.new ≡ rest values.old }
{
    let word = pop_word(values);
    Named {
        name: name_of(&word),
        at: place_of(&word),
    }
}

/// Takes two words.
pub fn drop_two(values: &mut Stack<Value>)
    ensures { values.new ≡ rest_two values.old }
{
    let _second = pop_word(values);
    let _first = pop_word(values);
}

/// Takes three words.
pub fn drop_three(values: &mut Stack<Value>)
    ensures { values.new ≡ rest_three values.old }
{
    let _third = pop_word(values);
    drop_two(values);
}

/// Takes an expression and a word behind it.
pub fn pop_closed(values: &mut Stack<Value>) -> Expr
    ensures value { result ≡ operand (rest values.old) }
    ensures below { values.new ≡ rest_two values.old }
{
    let _behind = pop_word(values);
    pop_operand(values).0
}
