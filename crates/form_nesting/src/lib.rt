//! From the forms of a text, which nest, the file that they nest into.
//!
//! One pass over the forms keeps the constructs that are open on a stack. Whether the forms nest is the caller's to judge beforehand.
#![tactic(auto)]

mod construct;
mod form;
mod header;
mod nest;
mod reading;
mod role;
mod statements;

pub use form::Form;
pub use reading::nested;

#[cfg(test)]
mod tests;
