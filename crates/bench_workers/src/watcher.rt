//! Who is shown each closed pulse of a run.
ghost use Rattle.std.specs.Prelude.{◌≡◌, OnErr, OnOk};

use crate::event::RunFault;
use bench_core::{Bench, PulseRecord};

/// What a watcher is shown of a closed pulse.
#[derive(Clone, Copy)]
pub struct Shown<'a> {
    /// The bench that the pulse left.
    pub bench: &'a Bench,
    pub coins: &'a [u32],
    pub told: &'a PulseRecord,
    /// The record of the pulse before.
    pub earlier: Option<&'a PulseRecord>,
    /// How many instructions each node ran.
    pub steps: &'a [u32],
}

/// A watcher stops the run that it is shown. It keeps why.
#[derive(Clone, Copy, Debug, PartialEq, Eq)]
pub struct Stop;

/// A watcher of a run, which tells of each closed pulse on a sink.
pub trait Watcher<S> {
    ghost use Rattle.bench_workers.specs.Watching.{Seen, seen_of};

    /// What it and its sink become where it tells of a pulse.
    ghost tells: { Self → S → Seen → Self → S → Type 0 };

    /// And where it stops the run at one.
    ghost stops: { Self → S → Seen → Self → S → Type 0 };

    /// Sees a pulse.
    fn see(&mut self, sink: &mut S, shown: &Shown) -> Result<(), Stop>
        ensures told { OnOk result (tells self.old sink.old (seen_of shown.now) self.new sink.new) }
        ensures stopped { OnErr result (stops self.old sink.old (seen_of shown.now) self.new sink.new) };
}

/// Why a run that is watched has no end: an event is refused, or the watcher stopped it at the event of this place.
#[derive(Clone, Copy, Debug, PartialEq, Eq)]
pub enum WatchFault {
    Run(RunFault),
    Stopped(u32),
}

/// A watcher that looks at nothing.
#[derive(Clone, Copy)]
pub(crate) struct Nobody;

impl Watcher<()> for Nobody {
    ghost tells = { λ _ _ _ _ _. Unit {0} };

    ghost stops = { λ _ _ _ _ _. ⊥ };

    fn see(&mut self, _sink: &mut (), _shown: &Shown) -> Result<(), Stop> {
        Ok(())
    }
}
