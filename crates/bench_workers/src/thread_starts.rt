//! Starts of threads, and whether one of them failed.
ghost use Rattle.std.specs.Prelude.{◌≡◌, IfErr, IfOk, IsTrue, false};
ghost use Rattle.bench_workers.specs.ThreadStarts.{has_failed};

use std::thread::{JoinHandle, Promise, PromisedHandle, Scope, SpawnError};

/// Starts threads, and tells whether a start failed.
#[derive(Clone, Copy, Debug)]
pub struct ThreadStarts {
    has_failed: bool,
}

impl ThreadStarts {
    /// Returns the value before the first start.
    pub fn new() -> ThreadStarts
        ensures { has_failed result ≡ false }
    {
        ThreadStarts { has_failed: false }
    }

    /// Starts a thread of the scope, and keeps whether that failed.
    pub fn start<'s, E, F: FnOnce() -> T + Send + 's, T: Send + Drop + 's>(
        &mut self,
        scope: &Scope<'s, E>,
        job: F,
    ) -> Result<JoinHandle<T>, SpawnError<F>>
        requires { F.pre job }
        ensures failed { IfErr result (λ _. IsTrue (has_failed self.new)) }
        ensures started { IfOk result (λ _. self.new ≡ self.old) }
    {
        let handle = scope.spawn(job);
        if handle.is_err() {
            self.has_failed = true;
        }
        handle
    }

    /// Does as [`start`](Self::start), and the handle has the promise of the thread's result.
    pub fn start_with<
        's,
        E,
        P: Promise<T> + Drop,
        F: FnOnce() -> T + Send + 's,
        T: Send + Drop + 's,
    >(
        &mut self,
        scope: &Scope<'s, E>,
        promise: P,
        job: F,
    ) -> Result<PromisedHandle<T, P>, SpawnError<F>>
        requires runs { F.pre job }
        requires keeps { (r : T) → F.post job r → P.kept_by promise r }
        ensures ok { IfOk result (λ h. h.promise ≡ promise) }
        ensures failed { IfErr result (λ _. IsTrue (has_failed self.new)) }
        ensures started { IfOk result (λ _. self.new ≡ self.old) }
    {
        let handle = scope.spawn_with(promise, job);
        if handle.is_err() {
            self.has_failed = true;
        }
        handle
    }
}

/// A runtime that starts threads, and whether a start failed.
#[derive(Drop)]
pub struct TrackedThreads<'a, R> {
    pub runtime: &'a R,
    pub starts: ThreadStarts,
}

impl<'a, R> TrackedThreads<'a, R> {
    ghost use Rattle.std.specs.Prelude.{◌≡◌, false};
    ghost use Rattle.bench_workers.specs.ThreadStarts.{has_failed};

    /// Returns the runtime before the first start.
    pub fn of(runtime: &'a R) -> TrackedThreads<'a, R>
        ensures { has_failed result.starts ≡ false }
    {
        TrackedThreads {
            runtime,
            starts: ThreadStarts::new(),
        }
    }
}
