//! A text with a bit of most, and one with nothing.
ghost use Rattle.std.specs.Prelude.{◌≡◌, IfOk};
ghost use Rattle.form_nesting.specs.SmallForms.{small_forms, named, head, fusion, truth};

use crate::{Form, nested};
use fort_tree::{
    Directive, DirectiveWord, Expr, Head, Item, Mode, Name, Named, Place, Seq, Statement,
};
use std::alloc::Global;
use std::test::Fail;

const HERE: Place = Place {
    file: 0,
    line: 1,
    column: 1,
};

fn fusion(alloc: Global) -> Directive
    ensures { result ≡ fusion }
{
    Directive {
        at: HERE,
        word: DirectiveWord::Fusion,
        names: Seq::new(alloc),
        over: None,
        number: None,
        group: None,
        init: false,
        lower: None,
        upper: None,
    }
}

fn named(name: &Name) -> Named
    ensures { result ≡ named name.now }
{
    Named {
        name: *name,
        at: HERE,
    }
}

fn truth() -> Expr
    ensures { result ≡ truth }
{
    Expr::Truth(true, HERE)
}

fn head(name: &Name) -> Head
    ensures { result ≡ head name.now }
{
    Head {
        var: *name,
        at: HERE,
        from: truth(),
        to: truth(),
        step: None,
    }
}

fn small_forms(alloc: Global, name: &Name) -> Result<Seq<Form>, Fail>
    ensures { IfOk result (λ forms. forms ≡ small_forms name.now) }
{
    let forms = Vec::from_array(
        alloc,
        [
            Form::Says(
                HERE,
                Statement::Subroutine {
                    name: named(name),
                    dummies: Seq::new(alloc),
                },
            ),
            Form::Directs(fusion(alloc)),
            Form::Says(HERE, Statement::Do(head(name))),
            Form::Says(
                HERE,
                Statement::Call {
                    name: named(name),
                    args: Seq::new(alloc),
                },
            ),
            Form::Says(HERE, Statement::EndDo),
            Form::Says(HERE, Statement::IfThen(truth())),
            Form::Says(HERE, Statement::Return),
            Form::Says(HERE, Statement::Else),
            Form::Says(HERE, Statement::EndIf),
            Form::Says(HERE, Statement::End(None, None)),
        ],
    )?;
    Ok(Seq::from_vec(forms))
}

#[test]
fn nothing(rt: HostRuntime) -> Result<(), Fail> {
    let file = nested(rt.alloc(), Mode::Source, Seq::new(rt.alloc()))?;
    assert!(rt; file.modules.is_empty() && file.units.is_empty() && file.order.is_empty());
    Ok(())
}

#[test]
fn a_loop_and_an_if(rt: HostRuntime) -> Result<(), Fail> {
    let name = Name::read(b"s").ok_or("a name")?;
    let forms = small_forms(rt.alloc(), &name)?;
    let file = nested(rt.alloc(), Mode::Source, forms)?;
    assert_eq!(rt; file.order.items(), [Item::Unit(0)].as_slice());
    assert_eq!(rt; file.units.len(), 1);
    let unit = &file.units.items()[0];
    assert_eq!(rt; unit.body.len(), 2);
    Ok(())
}
