//! Names in expressions and steps.
ghost use Rattle.std.specs.Prelude.{◌≡◌, ◌++◌, map, flat_map, OnOk};
ghost use Rattle.std.specs.Option.{option_to_list, option_map};
ghost use Rattle.sound_programs.specs.Placing.{placed_directive, placed_expr};
ghost use Rattle.sound_programs.specs.Walks as walks;
ghost use Rattle.unit_steps.specs.Behind.{exprs, placed_step};

use crate::step::Step;
use fort_tree::{Directive, DirectiveWord, Expr, Name, Named, NoMemory, Place};

/// The name, where the expression is a bare one.
fn bare_name(expr: &Expr) -> Option<Named>
    ensures { option_to_list result ≡ walks.bare_name (placed_expr expr.now) }
{
    match expr {
        Expr::Ref(name, None, at) => Some(Named {
            name: *name,
            at: *at,
        }),
        Expr::Ref(_, Some(_), _)
        | Expr::Number(..)
        | Expr::Truth(..)
        | Expr::One(..)
        | Expr::Two(..)
        | Expr::Paren(..) => None,
    }
}

/// The name before parentheses, where the expression has one.
pub fn name_before_parenthesis(expr: &Expr) -> Option<Named>
    ensures { option_to_list result ≡ walks.name_before_parenthesis (placed_expr expr.now) }
{
    match expr {
        Expr::Ref(name, Some(_), at) => Some(Named {
            name: *name,
            at: *at,
        }),
        Expr::Ref(_, None, _)
        | Expr::Number(..)
        | Expr::Truth(..)
        | Expr::One(..)
        | Expr::Two(..)
        | Expr::Paren(..) => None,
    }
}

/// The name that the expression is or refers to.
pub fn name_in(expr: &Expr) -> Option<Named>
    ensures { option_to_list result ≡ walks.name_in (placed_expr expr.now) }
{
    match expr {
        Expr::Ref(name, None, at) | Expr::Ref(name, Some(_), at) => Some(Named {
            name: *name,
            at: *at,
        }),
        Expr::Number(..) | Expr::Truth(..) | Expr::One(..) | Expr::Two(..) | Expr::Paren(..) =>
            None,
    }
}

/// Adds those of the expressions that are bare names.
///
/// # Errors
/// `NoMemory` only where memory was refused.
pub fn note_bare_names(list: &[&Expr], into: &mut Vec<Named>) -> Result<(), NoMemory>
    ensures { OnOk result (into.new.items ≡ into.old.items ++ flat_map walks.bare_name (exprs list.now)) }
{
    for expr in list {
        if let Some(named) = bare_name(expr) {
            into.push(named)?;
        }
    }
    Ok(())
}

/// Adds the names before parentheses of those of the expressions that are such references.
///
/// # Errors
/// `NoMemory` only where memory was refused.
pub fn note_names_before_parenthesis(list: &[&Expr], into: &mut Vec<Named>) -> Result<(), NoMemory>
    ensures { OnOk result (into.new.items ≡ into.old.items ++ flat_map walks.name_before_parenthesis (exprs list.now)) }
{
    for expr in list {
        if let Some(named) = name_before_parenthesis(expr) {
            into.push(named)?;
        }
    }
    Ok(())
}

/// Adds the names that the expressions are or refer to.
///
/// # Errors
/// `NoMemory` only where memory was refused.
pub fn note_names(list: &[&Expr], into: &mut Vec<Named>) -> Result<(), NoMemory>
    ensures { OnOk result (into.new.items ≡ into.old.items ++ flat_map walks.name_in (exprs list.now)) }
{
    for expr in list {
        if let Some(named) = name_in(expr) {
            into.push(named)?;
        }
    }
    Ok(())
}

fn has_private_list(word: DirectiveWord) -> bool
    ensures { result ≡ walks.has_private_list word }
{
    matches!(word, DirectiveWord::OpenMpLoop | DirectiveWord::OpenAccLoop)
}

fn note_listed(names: &[Name], at: Place, into: &mut Vec<Named>) -> Result<(), NoMemory>
    ensures { OnOk result (into.new.items ≡ into.old.items ++ map (λ x. walks.named x at) names.now) }
{
    for name in names {
        into.push(Named { name: *name, at })?;
    }
    Ok(())
}

fn note_names_of_mark(mark: &Option<Directive>, into: &mut Vec<Named>) -> Result<(), NoMemory>
    ensures { OnOk result (into.new.items ≡ into.old.items ++ walks.names_of_mark (option_map placed_directive mark.now)) }
{
    match mark {
        None => Ok(()),
        Some(mark) => {
            if has_private_list(mark.word) {
                note_listed(mark.names.items(), mark.at, into)
            } else {
                Ok(())
            }
        }
    }
}

impl<'a> Step<'a> {
    ghost use Rattle.std.specs.Prelude.{◌≡◌, ◌++◌, OnOk};
    ghost use Rattle.std.specs.Option.{option_to_list, option_map};
    ghost use Rattle.sound_programs.specs.Placing.{placed_expr};
    ghost use Rattle.sound_programs.specs.Walks as walks;
    ghost use Rattle.unit_steps.specs.Behind.{expr_behind, placed_step};

    /// The left side of an assignment.
    pub fn left(&self) -> Option<&'a Expr>
        ensures { option_to_list (option_map expr_behind result) ≡ walks.left_of (placed_step self.now) }
    {
        match self {
            Step::Assigns(left, _) => Some(left),
            Step::Calls(..) | Step::Tests(_) | Step::Chooses(..) | Step::Repeats(..) => None,
        }
    }

    /// The name behind CALL.
    pub fn call_name(&self) -> Option<Named>
        ensures { option_to_list result ≡ walks.call_name (placed_step self.now) }
    {
        match self {
            Step::Calls(name, _) => Some(**name),
            Step::Assigns(..) | Step::Tests(_) | Step::Chooses(..) | Step::Repeats(..) => None,
        }
    }

    /// The variable of a DO, at its head.
    pub fn loop_variable(&self) -> Option<Named>
        ensures { option_to_list result ≡ walks.loop_variable (placed_step self.now) }
    {
        match self {
            Step::Repeats(head, _) => Some(Named {
                name: head.var,
                at: head.at,
            }),
            Step::Assigns(..) | Step::Calls(..) | Step::Tests(_) | Step::Chooses(..) => None,
        }
    }

    /// Adds the names of a private list, each at the sentinel of its mark.
    ///
    /// # Errors
    /// `NoMemory` only where memory was refused.
    pub fn note_private_names(&self, into: &mut Vec<Named>) -> Result<(), NoMemory>
        ensures { OnOk result (into.new.items ≡ into.old.items ++ walks.private_names (placed_step self.now)) }
    {
        match self {
            Step::Repeats(_, mark) => note_names_of_mark(mark, into),
            Step::Assigns(..) | Step::Calls(..) | Step::Tests(_) | Step::Chooses(..) => Ok(()),
        }
    }
}
