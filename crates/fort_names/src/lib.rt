//! What each name of a program is: lists of different names, the entity that a name is in each scope, and the faults of names.
#![tactic(auto)]

mod callee;
mod clashes;
mod columns;
mod cycles;
mod declarations;
mod double_uses;
mod doubles;
mod entity;
mod firsts;
mod homes;
mod intents;
mod laws;
mod least;
mod links;
mod meaning;
mod name_set;
mod rows;
mod scope;
mod shared;
mod sight;
mod spot;
mod symbols;
mod table;
#[cfg(test)]
mod tests;
mod used_names;
mod uses;

pub use callee::Callee;
pub use clashes::{note_clashes, note_dummies, note_headers};
pub use columns::{declares_scalar_in, is_column_dummy, is_named};
pub use cycles::note_cycles;
pub use declarations::{note_declarations, note_declared_twice, note_module_faults};
pub use doubles::note_seconds;
pub use entity::{Entity, Home, Sort};
pub use firsts::Firsts;
pub use homes::Declared;
pub use intents::{first_intent_fault, note_intents};
pub use laws::nothing_where_nothing_is_seen;
pub use least::{At, Least, is_earlier};
pub use meaning::Meaning;
pub use name_set::NameSet;
pub use rows::origins;
pub use scope::{Own, Scope};
pub use shared::Shared;
pub use sight::Sight;
pub use symbols::{Symbols, symbols_of};
pub use table::Table;
pub use uses::note_uses;
