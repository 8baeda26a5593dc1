//! Classes of some tokens, and what can begin an expression.
ghost use Rattle.std.specs.Prelude.{IsTrue};
ghost use Rattle.fort_tree.specs.Token.{is_token};

use crate::{Class, Part, Stack, Symbol, can_take, class_of};
use fort_tree::{Place, Seq, Token};
use std::alloc::Global;
use std::test::Fail;

fn token(alloc: Global, text: &[u8]) -> Result<Token, Fail>
    requires { IsTrue (is_token text.now) }
{
    let text = Vec::from_slice(alloc, text)?;
    let at = Place {
        file: 0,
        line: 1,
        column: 1,
    };
    Ok(Token::new(Seq::from_vec(text), at))
}

#[test]
fn tells_classes(rt: HostRuntime) -> Result<(), Fail> {
    let alloc = rt.alloc();
    assert_eq!(rt; class_of(&token(alloc, b"enddo")?), Class::Enddo);
    assert_eq!(rt; class_of(&token(alloc, b"write")?), Class::Reserved);
    assert_eq!(rt; class_of(&token(alloc, b"writes")?), Class::Name);
    assert_eq!(rt; class_of(&token(alloc, b"4")?), Class::KindNumber);
    assert_eq!(rt; class_of(&token(alloc, b"4_4")?), Class::Number);
    Ok(())
}

#[test]
fn tells_what_can_stand_next(rt: HostRuntime) -> Result<(), Fail> {
    let mut stack = Stack::new(rt.alloc());
    stack.push(Symbol::Call(Part::Expr))?;
    assert!(rt; can_take(&stack, Class::Name));
    assert!(rt; can_take(&stack, Class::Open));
    assert!(rt; !can_take(&stack, Class::Power));
    assert!(rt; !can_take(&stack, Class::Close));
    Ok(())
}
