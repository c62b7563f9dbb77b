//! Why the workers of a pulse gave no results.

/// Why the workers of a pulse gave no results.
#[derive(Clone, Copy, Debug, PartialEq, Eq)]
pub enum WorkError {
    /// A thread couldn't be started.
    NoThread,
    /// A gate answered false.
    GateShut,
    Memory,
}
