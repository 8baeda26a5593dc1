//! The outline of a statement: what its rows build where the statement itself isn't wanted.
ghost use Rattle.std.specs.Prelude.{◌≡◌};
ghost use Rattle.fort_stmt.specs.Outline.{acting as acting_in, sketch_on, first_name as first_name_of, sort_with as sort_by};

use crate::sort::{ActionSort, Sort};
use fort_grammar::{Action, Build, Class, class_of};
use fort_tree::{EndWord, Name, NoMemory, Token};
use std::alloc::Global;

/// What a statement is for nesting, before its names.
#[derive(Clone, Copy, Debug)]
pub enum Outline {
    Module,
    Contains,
    End(Option<EndWord>),
    Subroutine,
    Function,
    Use,
    ImplicitNone,
    Declare,
    Act(ActionSort),
    IfAct(ActionSort),
    IfThen,
    ElseIf,
    Else,
    EndIf,
    Do,
    EndDo,
    Select,
    EndSelect,
    Case,
    CaseDefault,
}

/// The action that the outline is.
fn acting(outline: Outline) -> ActionSort
    ensures { result ≡ acting_in outline }
{
    match outline {
        Outline::Act(action) => action,
        _ => ActionSort::Return,
    }
}

/// What an action of the grammar makes of the outline so far.
#[tactic(auto, unfolding(crate::specs::Outline::sketch_on))]
fn sketched(action: Action, outline: Outline) -> Outline
    ensures { result ≡ sketch_on action outline }
{
    match action {
        Action::Module => Outline::Module,
        Action::Contains => Outline::Contains,
        Action::End => Outline::End(None),
        Action::EndModule => Outline::End(Some(EndWord::Module)),
        Action::EndSubroutine => Outline::End(Some(EndWord::Subroutine)),
        Action::EndFunction => Outline::End(Some(EndWord::Function)),
        Action::Subroutine => Outline::Subroutine,
        Action::Function => Outline::Function,
        Action::Only => Outline::Use,
        Action::All => Outline::Use,
        Action::ImplicitNone => Outline::ImplicitNone,
        Action::Declare => Outline::Declare,
        Action::DeclareParameter => Outline::Declare,
        Action::DeclareIntent => Outline::Declare,
        Action::DeclareShape => Outline::Declare,
        Action::DeclareIntentShape => Outline::Declare,
        Action::DeclareShapeIntent => Outline::Declare,
        Action::CaseRanges => Outline::Case,
        Action::CaseDefault => Outline::CaseDefault,
        Action::Assign => Outline::Act(ActionSort::Assign),
        Action::Call => Outline::Act(ActionSort::Call),
        Action::Exit => Outline::Act(ActionSort::Exit),
        Action::Cycle => Outline::Act(ActionSort::Cycle),
        Action::Return => Outline::Act(ActionSort::Return),
        Action::IfThen => Outline::IfThen,
        Action::IfAction => Outline::IfAct(acting(outline)),
        Action::ElseIf => Outline::ElseIf,
        Action::Else => Outline::Else,
        Action::EndIf => Outline::EndIf,
        Action::Do => Outline::Do,
        Action::EndDo => Outline::EndDo,
        Action::Select => Outline::Select,
        Action::EndSelect => Outline::EndSelect,
        _ => outline,
    }
}

impl Build for Outline {
    ghost use Rattle.fort_stmt.specs.Outline.{pass, sketch_on};

    ghost shifted = { λ t o. pass t o };

    ghost applied = { λ x o. sketch_on x o };

    fn shift(&mut self, _alloc: Global, _token: &Token) -> Result<(), NoMemory> {
        Ok(())
    }

    fn build(&mut self, _alloc: Global, action: Action) -> Result<(), NoMemory> {
        *self = sketched(action, *self);
        Ok(())
    }
}

/// The first name among the tokens, where none is reserved.
pub fn first_name(tokens: &[Token]) -> Option<Name>
    ensures { result ≡ first_name_of tokens.now }
{
    for token in tokens {
        if class_of(token).is(Class::Name) {
            return Name::read(token.text());
        }
    }
    None
}

/// The sort that the outline and the name behind a header's word or an END give, or `None` exactly where a header has no name.
pub fn sort_with(outline: Outline, name: Option<Name>) -> Option<Sort>
    ensures { result ≡ sort_by outline name }
{
    match outline {
        Outline::Module => name.map(Sort::Module),
        Outline::Contains => Some(Sort::Contains),
        Outline::End(word) => Some(Sort::End(word, name)),
        Outline::Subroutine => name.map(Sort::Subroutine),
        Outline::Function => name.map(Sort::Function),
        Outline::Use => Some(Sort::Use),
        Outline::ImplicitNone => Some(Sort::ImplicitNone),
        Outline::Declare => Some(Sort::Declare),
        Outline::Act(action) => Some(Sort::Act(action)),
        Outline::IfAct(action) => Some(Sort::IfAct(action)),
        Outline::IfThen => Some(Sort::IfThen),
        Outline::ElseIf => Some(Sort::ElseIf),
        Outline::Else => Some(Sort::Else),
        Outline::EndIf => Some(Sort::EndIf),
        Outline::Do => Some(Sort::Do),
        Outline::EndDo => Some(Sort::EndDo),
        Outline::Select => Some(Sort::Select),
        Outline::EndSelect => Some(Sort::EndSelect),
        Outline::Case => Some(Sort::Case),
        Outline::CaseDefault => Some(Sort::CaseDefault),
    }
}
