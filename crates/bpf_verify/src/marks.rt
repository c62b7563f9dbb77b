//! Sets of stack bytes.

ghost use Rattle.std.specs.Prelude.{◌≡◌, ℕ, ◌+◌, ◌<◌, ◌≤◌, ◌==◌, false, not, ◌||◌, ◌&&◌};
ghost use Rattle.bpf_verify.specs.inner.Marks.{is_marked};
ghost use Rattle.bpf_verify.specs.Outcomes.{is_between};

use node_env::STACK_BYTES;

/// The bits of a word.
pub(crate) const WORD_BITS: u32 = 64;

const WORDS: usize = (STACK_BYTES / WORD_BITS) as usize;

/// A set of stack bytes: a bit for each.
#[derive(Clone, Copy, Debug)]
pub(crate) struct Marks {
    pub(crate) words: [u64; WORDS],
}

impl Marks {
    /// No byte.
    pub(crate) fn none() -> Marks
        ensures { (byte : ℕ) → is_marked result.words byte ≡ false }
    {
        Marks { words: [0; WORDS] }
    }

    /// Whether a byte is in the set.
    #[inline(always)]
    pub(crate) fn has(&self, byte: u32) -> bool
        requires { byte < STACK_BYTES }
        ensures { result ≡ is_marked self.now.words byte }
    {
        (self.words[(byte / WORD_BITS) as usize] >> (byte % WORD_BITS)) & 1 == 1
    }

    #[inline(always)]
    fn add(&mut self, byte: u32)
        requires { byte < STACK_BYTES }
        ensures { (other : ℕ) → is_marked self.new.words other ≡ ((other == byte) || is_marked self.old.words other) }
    {
        self.words[(byte / WORD_BITS) as usize] |= 1 << (byte % WORD_BITS);
    }

    /// Adds this many bytes.
    #[inline(always)]
    pub(crate) fn add_all(&mut self, first: u32, count: u32)
        requires { first + count ≤ STACK_BYTES }
        ensures { (byte : ℕ) → is_marked self.new.words byte
            ≡ (is_between first (first + count) byte || is_marked self.old.words byte) }
    {
        for byte in first..first + count {
            self.add(byte);
        }
    }

    #[inline(always)]
    fn take(&mut self, byte: u32)
        requires { byte < STACK_BYTES }
        ensures { (other : ℕ) → is_marked self.new.words other
            ≡ (not (other == byte) && is_marked self.old.words other) }
    {
        self.words[(byte / WORD_BITS) as usize] &= !(1 << (byte % WORD_BITS));
    }

    /// Takes this many bytes out.
    #[inline(always)]
    pub(crate) fn take_all(&mut self, first: u32, count: u32)
        requires { first + count ≤ STACK_BYTES }
        ensures { (byte : ℕ) → is_marked self.new.words byte
            ≡ (not (is_between first (first + count) byte) && is_marked self.old.words byte) }
    {
        for byte in first..first + count {
            self.take(byte);
        }
    }

    /// Leaves the bytes that are in the other set too.
    #[inline(always)]
    pub(crate) fn keep_common(&mut self, other: &Marks)
        ensures { (byte : ℕ) → is_marked self.new.words byte
            ≡ (is_marked self.old.words byte && is_marked other.now.words byte) }
    {
        for place in 0..WORDS {
            self.words[place] &= other.words[place];
        }
    }
}
