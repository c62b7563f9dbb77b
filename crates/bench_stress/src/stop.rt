//! Why hands stop.
ghost use Rattle.std.specs.Prelude.{◌≡◌, ◌≢◌, Some};
ghost use Rattle.bench_stress.specs.declared.stop.Stop.TheVariants.{Thread};

/// Why the hands didn't come to an end that is told by the history. Of several the first is told.
#[derive(Clone, Copy, Debug, PartialEq, Eq)]
pub enum Stop {
    Memory,
    /// A thread could not be started.
    Thread,
    /// The bench refused a call, or the receipts are not its history's.
    Mismatch,
}

/// Returns the one of two that is told.
pub(crate) fn first_of(one: Option<Stop>, other: Option<Stop>) -> Option<Stop>
    ensures { one ≢ Some Thread → other ≢ Some Thread → result ≢ Some Thread }
{
    match (one, other) {
        (None, stop) | (stop, None) => stop,
        (Some(Stop::Memory), _) | (_, Some(Stop::Memory)) => Some(Stop::Memory),
        (Some(Stop::Thread), _) | (_, Some(Stop::Thread)) => Some(Stop::Thread),
        (Some(Stop::Mismatch), Some(Stop::Mismatch)) => Some(Stop::Mismatch),
    }
}
