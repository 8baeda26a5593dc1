//! Expressions: the tree that tokens are, or the first fault, at its place.
#![tactic(auto)]

mod build;
mod depth;
mod outside;
mod parsing;
mod value;
mod words;

pub use build::{
    Tracked, built, name_of, place_of, pop_bound, pop_operand, pop_subscripts, pop_word,
    reference_to,
};
pub use depth::{is_leaf, is_too_deep, shape_of};
pub use parsing::{Outcome, depth_limit, expression, token_limit};
pub use value::{Shape, Value, Word};

#[cfg(test)]
mod tests;
