// Why words give no request.

use thiserror::Error;

/// Why the words of a command line gave no request.
#[derive(Clone, Copy, Debug, PartialEq, Eq, Drop, Error)]
pub enum WordsFault {
    /// They are no request.
    #[error("the words are no request")]
    NoRequest,
    /// Memory was refused.
    #[error("no memory is left")]
    NoMemory,
}
