//! What makes the rows of keys.
ghost use Rattle.std.specs.Prelude.{◌≡◌, IfOk};

use std::alloc::{AllocError, Global};
use std::sync::Wait;
use std::thread::Threads;

/// A maker of rows: one of names, and one for each key.
pub trait RowMaker {
    ghost use Rattle.std.specs.Prelude.{ℕ, List};
    ghost use Rattle.std.specs.Thread.{IsSync};

    /// What it has to be to make rows.
    ghost ready: { Self → Type 0 };

    /// The row of names.
    ghost first_row: { Self → List ℕ };

    /// Which texts are the row of a key.
    ghost is_row: { Self → ℕ → List ℕ → Type 0 };

    /// Returns the row of names.
    fn names_row(&self, alloc: Global) -> Result<Vec<u8>, AllocError>
        ensures { IfOk result (λ text. text.items ≡ first_row self.now) };

    /// Returns the row of a key. Workers share the runtime, which is why the clause says that it is `Sync`.
    fn key_row<T: Threads + Wait + Sync>(
        &self,
        rt: &T,
        alloc: Global,
        key: u64,
    ) -> Result<Vec<u8>, AllocError>
        requires sync { IsSync T.row }
        requires ready { ready self.now }
        ensures { IfOk result (λ text. is_row self.now key text.items) };
}
