//! What a statement is for nesting, without its expressions.
ghost use Rattle.std.specs.Prelude.{◌≡◌};
ghost use Rattle.fort_stmt.specs.Sort.{action_of, sort_of};

use fort_tree::{EndWord, Name, Statement};

/// An action: what can stand behind IF on one line (ISO/IEC 1539-1:2018 R515, cut down to this project's profile).
#[derive(Clone, Copy, Debug, PartialEq, Eq)]
pub enum ActionSort {
    Assign,
    Call,
    Exit,
    Cycle,
    Return,
}

/// A statement without its expressions, declarations and lists: what its nesting is judged by.
#[derive(Clone, Copy, Debug, PartialEq)]
pub enum Sort {
    Module(Name),
    Contains,
    /// The end of a module or a unit, with the word and the name behind END.
    End(Option<EndWord>, Option<Name>),
    Subroutine(Name),
    Function(Name),
    Use,
    ImplicitNone,
    Declare,
    Act(ActionSort),
    /// An IF on one line, with its action.
    IfAct(ActionSort),
    IfThen,
    ElseIf,
    Else,
    EndIf,
    Do,
    EndDo,
    Select,
    EndSelect,
    Case,
    CaseDefault,
}

/// What the action behind an IF is.
fn action_sort(action: &Statement) -> ActionSort
    ensures { result ≡ action_of action.now }
{
    match action {
        Statement::Assign { .. } => ActionSort::Assign,
        Statement::Call { .. } => ActionSort::Call,
        Statement::Exit => ActionSort::Exit,
        Statement::Cycle => ActionSort::Cycle,
        _ => ActionSort::Return,
    }
}

impl Sort {
    /// What the statement is for nesting.
    pub fn of(statement: &Statement) -> Sort
        ensures { result ≡ sort_of statement.now }
    {
        match statement {
            Statement::Module(name) => Sort::Module(name.name),
            Statement::Contains => Sort::Contains,
            Statement::End(word, name) => Sort::End(*word, *name),
            Statement::Subroutine { name, .. } => Sort::Subroutine(name.name),
            Statement::Function { name, .. } => Sort::Function(name.name),
            Statement::Using(_) => Sort::Use,
            Statement::ImplicitNone => Sort::ImplicitNone,
            Statement::Declare(_) => Sort::Declare,
            Statement::Assign { .. } => Sort::Act(ActionSort::Assign),
            Statement::Call { .. } => Sort::Act(ActionSort::Call),
            Statement::Exit => Sort::Act(ActionSort::Exit),
            Statement::Cycle => Sort::Act(ActionSort::Cycle),
            Statement::Return => Sort::Act(ActionSort::Return),
            Statement::IfAction { action, .. } => Sort::IfAct(action_sort(action.get())),
            Statement::IfThen(_) => Sort::IfThen,
            Statement::ElseIf(_) => Sort::ElseIf,
            Statement::Else => Sort::Else,
            Statement::EndIf => Sort::EndIf,
            Statement::Do(_) => Sort::Do,
            Statement::EndDo => Sort::EndDo,
            Statement::Select(_) => Sort::Select,
            Statement::EndSelect => Sort::EndSelect,
            Statement::Case(_) => Sort::Case,
            Statement::CaseDefault => Sort::CaseDefault,
        }
    }
}
