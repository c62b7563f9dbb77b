//! The limits of a bench.

/// The most entries of a history. An open pulse holds one more place for its end.
pub const MAX_ENTRIES: usize = 65_536;

/// The most closed pulses of a bench.
pub const MAX_BENCH_PULSES: u32 = 32_768;

/// What a row tells for clocks of which two differ.
pub const CLOCKS_DIFFER: u32 = 4_294_967_295;

/// The most settled nodes that a row can tell.
pub const MAX_COUNTED: u32 = 64;
