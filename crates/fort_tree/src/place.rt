/// Where a token or a statement stands in the given texts.
#[derive(Clone, Copy, Debug, PartialEq, Eq)]
pub struct Place {
    /// The number of the text among those given, from 0.
    pub file: u32,
    /// The line, from 1.
    pub line: u32,
    /// The column in bytes, from 1. A tab counts as one column.
    pub column: u32,
}
