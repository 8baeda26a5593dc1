//! Types before names, and intents.
ghost use Rattle.std.specs.Prelude.{◌≡◌, OnOk};
ghost use Rattle.fort_expr.specs.Values.{word};
ghost use Rattle.fort_grammar.specs.declared.table.Action.TheVariants as act;
ghost use Rattle.fort_stmt.specs.Form.{kind_by_text as kind_of_text};
ghost use Rattle.fort_stmt.specs.Values.{kind_in, type_on};

use crate::build::declarations;
use crate::build::pops::drop_two;
use crate::value::Draft;
use fort_expr::{Word, place_of, pop_word};
use fort_grammar::Action;
use fort_tree::{Intent, Kind, NoMemory};
use std::alloc::Global;

fn kind_by_text(text: &[u8]) -> Kind
    ensures { result ≡ kind_of_text text.now }
{
    if text == b"1".as_slice() {
        Kind::I1
    } else if text == b"2".as_slice() {
        Kind::I2
    } else if text == b"8".as_slice() {
        Kind::I8
    } else {
        Kind::I4
    }
}

fn kind_of(word: &Option<Word>) -> Kind
    ensures { result ≡ kind_in word.now }
{
    match word {
        None => Kind::I4,
        Some(word) => kind_by_text(word.text.items()),
    }
}

fn integer(draft: &mut Draft)
    ensures { draft.new ≡ type_on act.Integer draft.old }
{
    draft.type_at = place_of(&pop_word(&mut draft.values));
}

fn logical(draft: &mut Draft)
    ensures { draft.new ≡ type_on act.Logical draft.old }
{
    integer(draft);
    draft.kind = Kind::Logical;
}

fn kind(draft: &mut Draft)
    ensures { draft.new ≡ type_on act.Kind draft.old }
{
    draft.kind = kind_of(&pop_word(&mut draft.values));
}

fn keyword_kind(draft: &mut Draft)
    ensures { draft.new ≡ type_on act.KeywordKind draft.old }
{
    kind(draft);
    drop_two(&mut draft.values);
}

/// Does an action of a type or an intent, or what another action does.
pub fn build(alloc: Global, action: Action, draft: &mut Draft) -> Result<(), NoMemory>
    ensures { OnOk result (draft.new ≡ type_on action draft.old) }
{
    match action {
        Action::Integer => {
            integer(draft);
            Ok(())
        }
        Action::Logical => {
            logical(draft);
            Ok(())
        }
        Action::SomeKind => {
            drop_two(&mut draft.values);
            Ok(())
        }
        Action::NoKind => {
            draft.kind = Kind::I4;
            Ok(())
        }
        Action::KeywordKind => {
            keyword_kind(draft);
            Ok(())
        }
        Action::Kind => {
            kind(draft);
            Ok(())
        }
        Action::In => {
            draft.intent = Intent::In;
            Ok(())
        }
        Action::Out => {
            draft.intent = Intent::Out;
            Ok(())
        }
        Action::InOut => {
            draft.intent = Intent::InOut;
            Ok(())
        }
        Action::Inout => {
            draft.intent = Intent::InOut;
            Ok(())
        }
        _ => declarations::build(alloc, action, draft),
    }
}
