//! Fixed lists of words, which are found by halving.
#![tactic(auto)]

mod table;
mod words;

pub use table::Table;
pub use words::{
    INTRINSICS, KEYWORDS, OPERATORS, REFUSED, intrinsics, keywords, operators, refused,
};

#[cfg(test)]
mod tests;
