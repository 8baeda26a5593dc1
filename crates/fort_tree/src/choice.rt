//! What a caller chooses: which texts are read, and what is written.

/// What a text is read as.
#[derive(Clone, Copy, Debug, PartialEq, Eq)]
pub enum Mode {
    /// A program as its author wrote it, with directives and without marks.
    Source,
    /// A program that was made, with marks and without directives.
    Target,
}

/// The processor that a program is made for.
#[derive(Clone, Copy, Debug, PartialEq, Eq)]
pub enum Target {
    Cpu,
    Gpu,
}

/// The marks that a made program has.
#[derive(Clone, Copy, Debug, PartialEq, Eq)]
pub enum Directives {
    /// None.
    Plain,
    /// Lines that begin with `!$omp`.
    OpenMp,
    /// Lines that begin with `!$acc`.
    OpenAcc,
}
