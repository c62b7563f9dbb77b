//! Which of the inputs of a pulse are compared.

/// How many of the inputs that were run last are compared with the next one.
const REMEMBERED: usize = 4;

/// A pulse gets one more comparison in vain for this many inputs.
const INPUTS_A_TRY: usize = 16;

/// After a pulse that used up its comparisons in vain, this many pulses compare nothing.
const PULSES_OF_REST: u32 = 15;

/// The places of the results that were run last. It is untrusted: a wrong place costs time, not soundness. A comparison
/// in vain takes one of `tries`, a shared result gives one, and without any no more inputs are compared, nor in the
/// pulses of `rest`.
#[derive(Drop)]
pub struct Recent {
    places: [usize; REMEMBERED],
    next: usize,
    tries: usize,
    rest: u32,
}

/// Returns how many comparisons in vain this many inputs get.
fn tries_of(inputs: usize) -> usize {
    1_usize.saturating_add(inputs / INPUTS_A_TRY)
}

impl Recent {
    /// Returns no places, before this many inputs.
    pub fn none(inputs: usize) -> Recent {
        Recent {
            places: [usize::MAX; REMEMBERED],
            next: 0,
            tries: tries_of(inputs),
            rest: 0,
        }
    }

    /// Forgets all places, before the inputs of the next pulse.
    pub fn begin(&mut self, inputs: usize) {
        self.places = [usize::MAX; REMEMBERED];
        self.next = 0;
        self.tries = if self.rest == 0 { tries_of(inputs) } else { 0 };
        self.rest = self.rest.saturating_sub(1);
    }

    /// Returns no places, before inputs of which none is compared.
    pub fn never() -> Recent {
        Recent {
            places: [usize::MAX; REMEMBERED],
            next: 0,
            tries: 0,
            rest: 0,
        }
    }

    /// Returns whether more inputs are compared.
    #[inline(always)]
    pub fn is_patient(&self) -> bool {
        self.tries > 0
    }

    /// Returns the places of the results that were run last. Where there are fewer, no list has the place.
    #[inline(always)]
    pub fn places(&self) -> [usize; REMEMBERED] {
        self.places
    }

    /// Counts a shared result.
    #[inline(always)]
    pub fn hit(&mut self) {
        self.tries = self.tries.saturating_add(1);
    }

    /// Puts the place of a new result in that of the oldest, after a comparison in vain or without one.
    #[inline(always)]
    pub fn miss(&mut self, place: usize, is_compared: bool) {
        if is_compared {
            self.tries = self.tries.saturating_sub(1);
            if self.tries == 0 {
                self.rest = PULSES_OF_REST;
            }
        }
        self.places[self.next % REMEMBERED] = place;
        self.next = self.next.wrapping_add(1) % REMEMBERED;
    }
}
