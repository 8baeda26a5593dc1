//! Declarations and their entities.
ghost use Rattle.std.specs.Prelude.{◌≡◌, [], ◌∷◌, map, IfOk, OnOk};
ghost use Rattle.fort_expr.specs.Values.{rest};
ghost use Rattle.fort_grammar.specs.declared.table.Action.TheVariants as act;
ghost use Rattle.fort_stmt.specs.Form.{declared, shape_or as own_or};
ghost use Rattle.fort_stmt.specs.Values.{below, declaration_on, declares, entity, rest_two, top_shape};

use crate::build::pops::pop_named;
use crate::build::shapes::pop_shape;
use crate::build::{shapes, state};
use crate::value::{Draft, Entity};
use fort_expr::{Value, pop_bound, pop_operand, pop_word};
use fort_grammar::{Action, Stack};
use fort_tree::{Bound, Decl, Intent, Kind, Named, NoMemory, Seq, Statement, TryClone};
use std::alloc::Global;
use std::mem;

/// An entity's own shape, or a copy of that of DIMENSION where it has none.
fn shape_or(alloc: Global, own: Seq<Bound>, shared: &Seq<Bound>) -> Result<Seq<Bound>, NoMemory>
    ensures { IfOk result (λ shape. shape ≡ own_or own shared.now) }
{
    if own.is_empty() {
        shared.try_clone(alloc)
    } else {
        Ok(own)
    }
}

/// The attributes of a line.
#[derive(Drop)]
struct Attributes {
    kind: Kind,
    intent: Option<Intent>,
    /// The shape of DIMENSION.
    shape: Seq<Bound>,
}

fn declaration(alloc: Global, attributes: &Attributes, entity: Entity) -> Result<Decl, NoMemory>
    ensures { IfOk result (λ d. d ≡ declared attributes.now.kind attributes.now.intent attributes.now.shape entity) }
{
    let Entity {
        name,
        at,
        shape,
        value,
    } = entity;
    let shape = shape_or(alloc, shape, &attributes.shape)?;
    Ok(Decl {
        name,
        at,
        kind: attributes.kind,
        intent: attributes.intent,
        shape,
        value,
    })
}

fn declarations(
    alloc: Global,
    attributes: &Attributes,
    entities: Seq<Entity>,
) -> Result<Seq<Decl>, NoMemory>
    ensures { IfOk result (λ ds. ds ≡ map (declared attributes.now.kind attributes.now.intent attributes.now.shape) entities) }
{
    let mut all = Seq::new(alloc);
    for entity in entities.into_vec() {
        all.push(declaration(alloc, attributes, entity)?)?;
    }
    Ok(all)
}

/// Declares the entities with the line's type and these attributes.
fn declare(
    alloc: Global,
    intent: Option<Intent>,
    shape: Seq<Bound>,
    draft: &mut Draft,
) -> Result<(), NoMemory>
    ensures { OnOk result (draft.new ≡ declares intent shape draft.old) }
{
    let entities = mem::replace(&mut draft.entities, Seq::new(alloc));
    let attributes = Attributes {
        kind: draft.kind,
        intent,
        shape,
    };
    let all = declarations(alloc, &attributes, entities)?;
    state(draft, Statement::Declare(all));
    Ok(())
}

/// Declares the entities with the shape of DIMENSION too.
fn declare_shaped(alloc: Global, intent: Option<Intent>, draft: &mut Draft) -> Result<(), NoMemory>
    ensures { OnOk result (draft.new ≡ declares intent (top_shape draft.old.shapes) (record draft.old { shapes = below draft.old.shapes })) }
{
    let shape = pop_shape(alloc, &mut draft.shapes);
    declare(alloc, intent, shape, draft)
}

/// Takes an entity: its name, its value if it has one, and its shape.
fn pop_entity(values: &mut Stack<Value>, shape: Seq<Bound>) -> Entity
    ensures value { result ≡ entity values.old shape }
    ensures below { values.new ≡ rest_two values.old }
{
    let value = pop_bound(values);
    let Named { name, at } = pop_named(values);
    Entity {
        name,
        at,
        shape,
        value,
    }
}

fn first_entity(alloc: Global, draft: &mut Draft) -> Result<(), NoMemory>
    ensures { OnOk result (draft.new ≡ declaration_on act.FirstEntity draft.old) }
{
    let shape = pop_shape(alloc, &mut draft.shapes);
    let entity = pop_entity(&mut draft.values, shape);
    draft.entities = Seq::new(alloc);
    draft.entities.push(entity)
}

fn next_entity(alloc: Global, draft: &mut Draft) -> Result<(), NoMemory>
    ensures { OnOk result (draft.new ≡ declaration_on act.NextEntity draft.old) }
{
    let shape = pop_shape(alloc, &mut draft.shapes);
    let entity = pop_entity(&mut draft.values, shape);
    let _comma = pop_word(&mut draft.values);
    draft.entities.push(entity)
}

fn constant(alloc: Global, draft: &mut Draft) -> Result<(), NoMemory>
    ensures { OnOk result (draft.new ≡ declaration_on act.Constant draft.old) }
{
    let (value, _at) = pop_operand(&mut draft.values);
    let _equals = pop_word(&mut draft.values);
    draft.values.push(Value::Bound(Some(value)))?;
    draft.shapes.push(Seq::new(alloc))
}

/// Does an action of a declaration or its entities, or what another action does.
pub fn build(alloc: Global, action: Action, draft: &mut Draft) -> Result<(), NoMemory>
    ensures { OnOk result (draft.new ≡ declaration_on action draft.old) }
{
    match action {
        Action::Declare => declare(alloc, None, Seq::new(alloc), draft),
        Action::DeclareParameter => declare(alloc, None, Seq::new(alloc), draft),
        Action::DeclareIntent => declare(alloc, Some(draft.intent), Seq::new(alloc), draft),
        Action::DeclareShape => declare_shaped(alloc, None, draft),
        Action::DeclareIntentShape => declare_shaped(alloc, Some(draft.intent), draft),
        Action::DeclareShapeIntent => declare_shaped(alloc, Some(draft.intent), draft),
        Action::FirstEntity => first_entity(alloc, draft),
        Action::NextEntity => next_entity(alloc, draft),
        Action::Entity => draft.values.push(Value::Bound(None)),
        Action::Constant => constant(alloc, draft),
        _ => shapes::build(alloc, action, draft),
    }
}
