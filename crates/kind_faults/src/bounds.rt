//! Bounds of declarations.
ghost use Rattle.std.specs.Prelude.{◌≡◌, ◌++◌, map};
ghost use Rattle.fort_tree.specs.declared.fault.Code.TheVariants.{E32};
ghost use Rattle.claw_meaning.specs.Plain.{plain_decl, plain_bound};
ghost use Rattle.claw_meaning.specs.Units as units;
ghost use Rattle.sound_programs.specs.Faults.{found};
ghost use Rattle.sound_programs.specs.Placing.{placed_expr};
ghost use Rattle.sound_programs.specs.KindFaults.{is_at_most_4 as at_most_4_test, is_bounding_dummy as bounding_dummy_test, may_bound as bound_test, suffixed, name_fault, bound_fault};
ghost use Rattle.fort_names.specs.Leasts.{noted};
ghost use Rattle.kind_faults.specs.Holders.{scope_of};
ghost use Rattle.fort_names.specs.Sights.{means};

use crate::holder::Holder;
use fort_kinds::first;
use fort_names::{Least, Meaning, Sight, is_named};
use fort_tree::{Bound, Code, Decl, Expr, Intent, Kind, Name, Op, Unary};

fn is_at_most_4(kind: Kind) -> bool
    ensures { result ≡ at_most_4_test kind }
{
    match kind {
        Kind::I1 => true,
        Kind::I2 => true,
        Kind::I4 => true,
        Kind::I8 => false,
        Kind::Logical => false,
    }
}

fn is_in(intent: Option<Intent>) -> bool
    ensures { result ≡ units.is_intent_in intent }
{
    match intent {
        Some(Intent::In) => true,
        _ => false,
    }
}

fn has_dimensions(shape: &[Bound]) -> bool
    ensures { result ≡ units.has_dimensions (map plain_bound shape.now) }
{
    match shape {
        [] => false,
        _ => true,
    }
}

/// Whether the variable of the name, which the unit or module of the name `home` declares, is a scalar INTENT(IN) dummy.
fn is_bounding_dummy(holder: &Holder, home: Name, name: &Name, decl: &Decl) -> bool
    ensures { result ≡ bounding_dummy_test (scope_of holder.now) home name.now (plain_decl decl.now) }
{
    home == holder.name()
        && (is_named(holder.dummies(), name)
            && (is_in(decl.intent) && !has_dimensions(decl.shape.items())))
}

fn may_bound(sight: &Sight, holder: &Holder, name: &Name) -> bool
    ensures { result ≡ bound_test (scope_of holder.now) name.now (means sight.now name.now) }
{
    match sight.meaning(name) {
        Meaning::Nothing => false,
        Meaning::Variable(home, decl) => {
            is_bounding_dummy(holder, home, name, decl) && is_at_most_4(decl.kind)
        }
        Meaning::Constant(decl) => is_at_most_4(decl.kind),
        Meaning::Unit(..) => false,
    }
}

/// Notes a literal with a suffix, or what is no literal.
fn note_suffixed(least: &mut Least, expr: &Expr)
    ensures { least.new ≡ noted (found E32 (suffixed (placed_expr expr.now))) least.old }
{
    match expr {
        Expr::Number(_, None, _) => {}
        Expr::Number(_, Some(_), at) => least.note(Code::E32, *at),
        Expr::Truth(..)
        | Expr::Ref(_, None, _)
        | Expr::Ref(_, Some(_), _)
        | Expr::One(..)
        | Expr::Two(..)
        | Expr::Paren(..) => least.note(Code::E32, first(expr)),
    }
}

fn note_name(least: &mut Least, sight: &Sight, holder: &Holder, expr: &Expr)
    ensures { least.new ≡ noted (found E32 (name_fault (scope_of holder.now) (means sight.now) (placed_expr expr.now))) least.old }
{
    match expr {
        Expr::Ref(name, None, at) => {
            let may = may_bound(sight, holder, name);
            least.note_if(!may, Code::E32, *at);
        }
        Expr::Number(..)
        | Expr::Truth(..)
        | Expr::Ref(_, Some(_), _)
        | Expr::One(..)
        | Expr::Two(..)
        | Expr::Paren(..) => least.note(Code::E32, first(expr)),
    }
}

#[tactic(auto, using(fort_names::proofs::FirstOf::noted_places))]
fn note_sum(least: &mut Least, sight: &Sight, holder: &Holder, name: &Expr, number: &Expr)
    ensures { least.new ≡ noted (found E32 (name_fault (scope_of holder.now) (means sight.now) (placed_expr name.now) ++ suffixed (placed_expr number.now))) least.old }
{
    note_name(least, sight, holder, name);
    note_suffixed(least, number);
}

/// Notes what isn't allowed in a bound: its name, its literal's suffix, or an expression that is no bound.
pub fn note_bound(least: &mut Least, sight: &Sight, holder: &Holder, bound: &Expr)
    ensures { least.new ≡ noted (found E32 (bound_fault (scope_of holder.now) (means sight.now) (placed_expr bound.now))) least.old }
{
    match bound {
        Expr::Number(..) => note_suffixed(least, bound),
        Expr::One(Unary::Minus, number, _) => note_suffixed(least, number.get()),
        Expr::Ref(_, None, _) => note_name(least, sight, holder, bound),
        Expr::Two(Op::Add, name, number) => {
            note_sum(least, sight, holder, name.get(), number.get());
        }
        Expr::Two(Op::Sub, name, number) => {
            note_sum(least, sight, holder, name.get(), number.get());
        }
        Expr::One(Unary::Plus, _, _)
        | Expr::One(Unary::Not, _, _)
        | Expr::Truth(..)
        | Expr::Ref(_, Some(_), _)
        | Expr::Two(..)
        | Expr::Paren(..) => least.note(Code::E32, first(bound)),
    }
}
