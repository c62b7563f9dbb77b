//! A gate that each worker enters before its first task of a pulse.
ghost use Rattle.std.specs.Prelude.{◌≡◌, true};

/// A gate for the workers of a pulse. Where it answers false, the pulse is given up.
pub trait Gate {
    ghost use Rattle.std.specs.Prelude.{ℕ, Bool, IsTrue};

    /// Whether the gate promises that it always answers true.
    ghost always: { Self → Bool };

    /// What only this gate's answer tells: that it let the worker of this number in. A gate may say so of all.
    ghost lets_in: { Self → ℕ → Bool };

    /// Lets a worker in, by its number from 0, or not.
    fn enter(&self, worker: u32) -> bool
        ensures open { always self.now ≡ true → result ≡ true }
        ensures let_in { IsTrue result → lets_in self.now worker ≡ true };
}

/// A gate that is always open.
#[derive(Clone, Copy, Debug)]
pub struct Open;

impl Gate for Open {
    ghost always = { λ _. true };

    ghost lets_in = { λ _ _. true };

    fn enter(&self, _worker: u32) -> bool {
        true
    }
}
