//! The keys of each table (docs/SCENARIOS.md, "Keys"). The reader, the notes and the definitions use these lists.

/// A key.
#[derive(Clone, Copy, Debug, PartialEq, Eq)]
pub enum Key {
    Version,
    Nodes,
    Faults,
    Modulus,
    Memory,
    Pulses,
    Coins,
    Key,
    Clock,
    Rule,
    ZeroAgrees,
    Load,
    Unload,
    Corrupt,
    Coin,
    Pulse,
    Program,
    Values,
    Text,
    Node,
    Image,
    Value,
}

impl Key {
    ghost use Rattle.std.specs.Prelude.{◌≡◌};
    ghost use Rattle.scenario_text.specs.Keys.{key_name};

    /// Returns the key as a scenario spells it.
    pub fn name(self) -> &'static str
        ensures { result.now ≡ key_name self }
    {
        match self {
            Key::Version => "version",
            Key::Nodes => "nodes",
            Key::Faults => "faults",
            Key::Modulus => "modulus",
            Key::Memory => "memory",
            Key::Pulses => "pulses",
            Key::Coins => "coins",
            Key::Key => "key",
            Key::Clock => "clock",
            Key::Rule => "rule",
            Key::ZeroAgrees => "zero_agrees",
            Key::Load => "load",
            Key::Unload => "unload",
            Key::Corrupt => "corrupt",
            Key::Coin => "coin",
            Key::Pulse => "pulse",
            Key::Program => "program",
            Key::Values => "values",
            Key::Text => "text",
            Key::Node => "node",
            Key::Image => "image",
            Key::Value => "value",
        }
    }
}

/// The top keys of the versions before `ZERO_VERSION`.
pub const TOP_KEYS: [Key; 12] = [
    Key::Version,
    Key::Nodes,
    Key::Faults,
    Key::Modulus,
    Key::Memory,
    Key::Pulses,
    Key::Coins,
    Key::Key,
    Key::Load,
    Key::Unload,
    Key::Corrupt,
    Key::Coin,
];

/// The top keys from `ZERO_VERSION` on.
pub const LATER_TOP_KEYS: [Key; 13] = [
    Key::Version,
    Key::Nodes,
    Key::Faults,
    Key::Modulus,
    Key::Memory,
    Key::Pulses,
    Key::Coins,
    Key::Key,
    Key::ZeroAgrees,
    Key::Load,
    Key::Unload,
    Key::Corrupt,
    Key::Coin,
];

/// The top keys that only some versions know.
pub const BESIDE_KEYS: [Key; 3] = [Key::Clock, Key::Rule, Key::ZeroAgrees];

/// The keys of every load.
pub const LOAD_KEYS: [Key; 3] = [Key::Pulse, Key::Nodes, Key::Program];

/// The keys of which a load has at most one, by its program.
pub const SOURCE_KEYS: [Key; 2] = [Key::Values, Key::Text];

/// The keys of an unload.
pub const UNLOAD_KEYS: [Key; 2] = [Key::Pulse, Key::Node];

/// The keys of a corruption.
pub const CORRUPT_KEYS: [Key; 3] = [Key::Pulse, Key::Node, Key::Image];

/// The keys of a coin entry.
pub const COIN_KEYS: [Key; 3] = [Key::Pulse, Key::Node, Key::Value];
