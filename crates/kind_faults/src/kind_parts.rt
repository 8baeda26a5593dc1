//! Faults of kinds in parts of expressions.
ghost use Rattle.std.specs.Prelude.{◌≡◌, ◌++◌, flat_map};
ghost use Rattle.fort_tree.specs.declared.fault.Code.TheVariants.{E32};
ghost use Rattle.fort_tree.specs.Intrinsic.{intrinsic_named};
ghost use Rattle.fort_arith.specs.declared.op.Intrinsic.TheVariants.{Int};
ghost use Rattle.sound_programs.specs.Faults.{found};
ghost use Rattle.sound_programs.specs.KindFaults.{literal_fault, needs_integer, first_argument, needs_of_operator, needs_of_sign, second_of_int, kinds_differ_or_logical, kind_faults_of_intrinsic, kind_faults_of_array, kind_faults_of_reference, kind_faults_of_part};
ghost use Rattle.sound_programs.specs.Placed.{Numeral, after_first};
ghost use Rattle.sound_programs.specs.Placing.{placed_expr, placed_subs};
ghost use Rattle.sound_programs.specs.Scopes.{is_array as array_test};
ghost use Rattle.sound_programs.specs.Walks.{section_bounds};
ghost use Rattle.fort_names.specs.Leasts.{noted};
ghost use Rattle.fort_names.specs.Sights.{means};
ghost use Rattle.kind_faults.specs.Cases.{nobody};

use crate::needs::{Need, note_alone, note_at, note_need, note_section_bounds, note_singles};
use fort_kinds::{differing_kind, first, in_kind, kind_named_by, or_default};
use fort_names::{Least, Sight};
use fort_tree::{ByName, Code, Expr, Intrinsic, Kind, Name, Op, Place, Sub, Unary};

fn note_number(least: &mut Least, number: u64, suffix: Option<Kind>, at: Place)
    ensures { least.new ≡ noted (found E32 (literal_fault (Numeral number suffix at))) least.old }
{
    let holds = in_kind(or_default(suffix), i128::from(number));
    least.note_if(!holds, Code::E32, at);
}

/// Notes a literal whose number, taken without a sign before it, isn't in its kind.
pub fn note_literal(least: &mut Least, part: &Expr)
    ensures { least.new ≡ noted (found E32 (literal_fault (placed_expr part.now))) least.old }
{
    match part {
        Expr::Number(number, suffix, at) => note_number(least, *number, *suffix, *at),
        Expr::Truth(..)
        | Expr::Ref(_, None, _)
        | Expr::Ref(_, Some(_), _)
        | Expr::One(..)
        | Expr::Two(..)
        | Expr::Paren(..) => {}
    }
}

fn note_operand(least: &mut Least, sight: &Sight, op: Op, operand: &Expr)
    ensures { least.new ≡ noted (found E32 (needs_of_operator (means sight.now) op (placed_expr operand.now))) least.old }
{
    if op.is_arithmetic() || op.is_relation() {
        note_need(least, sight, Need::Integer, operand);
    } else {
        note_need(least, sight, Need::Logical, operand);
    }
}

#[tactic(auto, using(fort_names::proofs::FirstOf::noted_places))]
fn note_operands(least: &mut Least, sight: &Sight, op: Op, left: &Expr, right: &Expr)
    ensures { least.new ≡ noted (found E32 (needs_of_operator (means sight.now) op (placed_expr left.now) ++ needs_of_operator (means sight.now) op (placed_expr right.now))) least.old }
{
    note_operand(least, sight, op, left);
    note_operand(least, sight, op, right);
}

fn note_signed(least: &mut Least, sight: &Sight, sign: Unary, operand: &Expr)
    ensures { least.new ≡ noted (found E32 (needs_of_sign (means sight.now) sign (placed_expr operand.now))) least.old }
{
    match sign {
        Unary::Plus | Unary::Minus => note_need(least, sight, Need::Integer, operand),
        Unary::Not => note_need(least, sight, Need::Logical, operand),
    }
}

/// Notes a second argument of INT that names no kind.
fn note_second(least: &mut Least, behind: &[Sub])
    ensures { least.new ≡ noted (found E32 (second_of_int nobody (placed_subs behind.now))) least.old }
{
    match behind.first() {
        None => {}
        Some(Sub::One(expr)) => {
            least.note_if(kind_named_by(expr).is_none(), Code::E32, first(expr));
        }
        Some(Sub::Range(..)) => {}
    }
}

fn note_first_argument(least: &mut Least, sight: &Sight, args: &[Sub])
    ensures { least.new ≡ noted (found E32 (flat_map (needs_integer (means sight.now)) (first_argument (means sight.now) (placed_subs args.now)))) least.old }
{
    match args.first() {
        None => {}
        Some(Sub::One(expr)) => note_alone(least, sight, Need::Integer, expr),
        Some(Sub::Range(..)) => {}
    }
}

fn note_behind_first(least: &mut Least, args: &[Sub])
    ensures { least.new ≡ noted (found E32 (second_of_int nobody (after_first (placed_subs args.now)))) least.old }
{
    match args.split_first() {
        None => {}
        Some((Sub::One(_), rest)) => note_second(least, rest),
        Some((Sub::Range(..), rest)) => note_second(least, rest),
    }
}

#[tactic(auto, using(fort_names::proofs::FirstOf::noted_places, crate::proofs::Arguments::second_same))]
fn note_int(least: &mut Least, sight: &Sight, args: &[Sub])
    ensures { least.new ≡ noted (found E32 (kind_faults_of_intrinsic (means sight.now) Int (placed_subs args.now))) least.old }
{
    note_first_argument(least, sight, args);
    note_behind_first(least, args);
}

#[tactic(auto, using(fort_names::proofs::FirstOf::noted_places))]
fn note_one_kind(least: &mut Least, sight: &Sight, args: &[Sub])
    ensures { least.new ≡ noted (found E32 (kinds_differ_or_logical (means sight.now) (placed_subs args.now))) least.old }
{
    note_singles(least, sight, Need::Integer, args);
    note_at(least, Code::E32, differing_kind(sight, args));
}

fn note_kinds_of_intrinsic(least: &mut Least, sight: &Sight, which: Intrinsic, args: &[Sub])
    ensures { least.new ≡ noted (found E32 (kind_faults_of_intrinsic (means sight.now) which (placed_subs args.now))) least.old }
{
    match which {
        Intrinsic::Size => {}
        Intrinsic::Int => note_int(least, sight, args),
        Intrinsic::Sum
        | Intrinsic::Abs
        | Intrinsic::Max
        | Intrinsic::Min
        | Intrinsic::Mod
        | Intrinsic::Modulo
        | Intrinsic::Sign => note_one_kind(least, sight, args),
    }
}

fn note_kinds_of_array(least: &mut Least, sight: &Sight, name: &Name, subs: &[Sub])
    ensures { least.new ≡ noted (found E32 (kind_faults_of_array (means sight.now) (array_test (means sight.now name.now)) (placed_subs subs.now))) least.old }
{
    if sight.is_array(name) {
        note_singles(least, sight, Need::Integer, subs);
    }
}

fn note_kinds_of_reference(least: &mut Least, sight: &Sight, name: &Name, subs: &[Sub])
    ensures { least.new ≡ noted (found E32 (kind_faults_of_reference (means sight.now) (intrinsic_named name.now) (array_test (means sight.now name.now)) (placed_subs subs.now))) least.old }
{
    match Intrinsic::named(name) {
        None => note_kinds_of_array(least, sight, name, subs),
        Some(which) => note_kinds_of_intrinsic(least, sight, which, subs),
    }
}

#[tactic(auto, using(fort_names::proofs::FirstOf::noted_places))]
fn note_kinds_at(least: &mut Least, sight: &Sight, name: &Name, subs: &[Sub])
    ensures { least.new ≡ noted (found E32 (kind_faults_of_reference (means sight.now) (intrinsic_named name.now) (array_test (means sight.now name.now)) (placed_subs subs.now) ++ flat_map (needs_integer (means sight.now)) (section_bounds (placed_subs subs.now)))) least.old }
{
    note_kinds_of_reference(least, sight, name, subs);
    note_section_bounds(least, sight, Need::Integer, subs);
}

/// Notes the faults of kinds at a part of an expression, those in its own parts set aside.
pub fn note_kinds_of_part(least: &mut Least, sight: &Sight, part: &Expr)
    ensures { least.new ≡ noted (found E32 (kind_faults_of_part (means sight.now) (placed_expr part.now))) least.old }
{
    match part {
        Expr::Number(number, suffix, at) => note_number(least, *number, *suffix, *at),
        Expr::Ref(name, Some(subs), _) => note_kinds_at(least, sight, name, subs.items()),
        Expr::One(sign, operand, _) => note_signed(least, sight, *sign, operand.get()),
        Expr::Two(op, left, right) => {
            note_operands(least, sight, *op, left.get(), right.get());
        }
        Expr::Truth(..) | Expr::Ref(_, None, _) | Expr::Paren(..) => {}
    }
}
