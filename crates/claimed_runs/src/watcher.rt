//! The watcher of a run that judges properties.
ghost use Rattle.std.specs.Prelude.{◌≡◌, [], OnOk};
ghost use Rattle.bench_workers.specs.Watching.{seen_of};
ghost use Rattle.claimed_runs.specs.inner.Judging.{JudgesPulse};

use crate::nodes::memories;
use crate::pulses::pulse_claims;
use bench_workers::{Shown, Stop, Watcher};
use properties::{Property, PulseClaims};
use rule_syntax::Sizes;
use std::alloc::{AllocError, Global};

/// Judges each pulse that it is shown.
#[derive(Drop)]
pub(crate) struct ClaimsWatcher<'a> {
    alloc: Global,
    properties: &'a [Property],
    sizes: Sizes,
    /// The memories that the pulse before left.
    before: Vec<Vec<u8>>,
    pub(crate) pulses: Vec<PulseClaims>,
}

impl<'a> ClaimsWatcher<'a> {
    /// Returns a watcher that was shown nothing.
    pub(crate) fn new(alloc: Global, properties: &'a [Property], sizes: Sizes) -> ClaimsWatcher<'a>
        ensures properties { result.properties.now ≡ properties.now }
        ensures sizes { result.sizes ≡ sizes }
        ensures before { result.before.items ≡ [] }
        ensures pulses { result.pulses.items ≡ [] }
    {
        ClaimsWatcher {
            alloc,
            properties,
            sizes,
            before: Vec::new(alloc),
            pulses: Vec::new(alloc),
        }
    }

    /// Judges a pulse, and keeps the memories that it left.
    fn judge(&mut self, shown: &Shown) -> Result<(), AllocError>
        ensures { OnOk result (JudgesPulse self.old (seen_of shown.now) self.new) }
    {
        let before = self.before.as_slice();
        let claims = pulse_claims(self.alloc, self.properties, self.sizes, shown, before)?;
        let left = memories(self.alloc, shown.bench)?;
        if self.pulses.push(claims).is_err() {
            return Err(AllocError);
        }
        self.before = left;
        Ok(())
    }
}

impl<'a> Watcher<()> for ClaimsWatcher<'a> {
    ghost use Rattle.claimed_runs.specs.inner.Judging.{JudgesPulse};

    ghost tells = { λ k _ x k2 _. JudgesPulse k x k2 };

    ghost stops = { λ _ _ _ _ _. Unit {0} };

    fn see(&mut self, _sink: &mut (), shown: &Shown) -> Result<(), Stop> {
        match self.judge(shown) {
            Ok(()) => Ok(()),
            Err(_) => Err(Stop),
        }
    }
}
