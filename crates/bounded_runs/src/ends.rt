//! How runs from alike inputs end.
ghost use Rattle.std.specs.Prelude.{◌≡◌};
ghost use Rattle.bounded_runs.specs.Bounded.{both_ends, is_known};

/// How runs from alike inputs end.
#[derive(Clone, Copy, Debug, PartialEq, Eq)]
pub enum Ends {
    /// All as one, but for bytes of kept words that none of them stores.
    AsOne,
    /// Those with one memory as one. Some run doesn't store this byte of memory.
    ByMemory { byte: u32 },
    /// Not known: a run loads this byte, whose word was to be kept, before it stores it.
    Touches { byte: u32 },
    /// Not known.
    Unknown,
}

impl Ends {
    /// Returns true if it says how runs end.
    pub fn is_known(self) -> bool
        ensures { result ≡ is_known self }
    {
        match self {
            Ends::AsOne | Ends::ByMemory { .. } => true,
            Ends::Touches { .. } | Ends::Unknown => false,
        }
    }

    /// Returns what is known of runs of which some end so and the others so.
    pub fn and(self, other: Ends) -> Ends
        ensures { result ≡ both_ends self other }
    {
        match (self, other) {
            (Ends::AsOne, ends) => ends,
            (Ends::ByMemory { .. }, Ends::Touches { .. } | Ends::Unknown) => other,
            (Ends::ByMemory { .. }, Ends::AsOne | Ends::ByMemory { .. }) => self,
            (Ends::Touches { .. } | Ends::Unknown, _) => self,
        }
    }
}
