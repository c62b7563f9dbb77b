//! The limits of scenarios (docs/SCENARIOS.md, "Keys").

/// The version of a scenario that tells none.
pub const FIRST_VERSION: u64 = 1;

/// The greatest version.
pub const LAST_VERSION: u64 = 5;

/// The first version in which a scenario may have a clock of its own, and in which its report judges more.
pub const CLOCK_VERSION: u64 = 3;

/// The first version in which a clock, or the program of a load, may be a rule.
pub const RULE_VERSION: u64 = 4;

/// The first version in which a load may be noise.
pub const NOISE_VERSION: u64 = 4;

/// The first version in which a scenario may say that a clock of 0 agrees with every clock.
pub const ZERO_VERSION: u64 = 5;

/// The most nodes of a scenario of the first version.
pub const FIRST_MAX_NODES: u64 = 32;

/// The most pulses.
pub const MAX_PULSES: u64 = 1_000;

/// The greatest key of coins.
pub const MAX_KEY: u64 = 9_223_372_036_854_775_807;

/// The greatest number that a node says.
pub const MAX_SAID: u64 = 4_294_967_295;

/// The most changes; a load counts once for each of its nodes.
pub const MAX_CHANGES: usize = 4_096;

/// The most pulses of noise, from each load of noise to the last pulse, each counted once for each node of the load.
pub const MAX_NOISE: usize = 32_768;

/// The most entries that replace a coin.
pub const MAX_COIN_ENTRIES: usize = 4_096;

/// The most bytes of a text: 1 MiB.
pub const MAX_TEXT: usize = 1_048_576;
