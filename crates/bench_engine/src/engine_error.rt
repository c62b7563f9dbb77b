//! Why a pulse of a shared bench left no row.
use bench_core::{CloseError, OpenError};
use bench_workers::WorkError;

/// Why a pulse of a shared bench left no row: it wasn't opened, its tasks weren't run, or their results weren't taken.
#[derive(Clone, Copy, Debug, PartialEq, Eq)]
pub enum EngineError {
    Open(OpenError),
    Work(WorkError),
    Close(CloseError),
}
