//! What reaches outside the program: files that are loaded by name, and bytes that are put out.
//!
//! A [`Shelf`] has files and a [`Sink`] takes bytes. Each counts its faults, so that a caller can
//! promise to report a failure only where there was one. [`MemShelf`] and [`MemSink`] tell what they
//! hold and fail where they are asked to. [`DirShelf`] and [`StdSink`] are the real edge: they stand
//! over the runtime's files and writers, and tell nothing of what is there.
//!
//! All rules here are this project's own.
#![tactic(auto)]

mod count;
mod dir_shelf;
mod file_list;
mod mem_shelf;
mod mem_sink;
mod numbers;
mod shelf;
mod sink;
mod std_sink;

pub use dir_shelf::DirShelf;
pub use file_list::FileList;
pub use mem_shelf::MemShelf;
pub use mem_sink::MemSink;
pub use numbers::Numbers;
pub use shelf::{LoadFault, Shelf};
pub use sink::{Failed, Sink, put_all};
pub use std_sink::StdSink;

#[cfg(test)]
mod tests;
