//! The functions that a program can call.
ghost use Rattle.std.specs.Prelude.{◌≡◌, ◌≤◌};
ghost use Rattle.node_env.specs.Helpers.{arguments_of};

/// A helper function that a program calls by its number (RFC 9669 section 4.3.1; docs/MACHINE.md, "Helpers").
#[derive(Clone, Copy, Debug, PartialEq, Eq)]
pub enum Helper {
    /// 1: the node's number.
    Id,
    /// 2: the message from the node whose number is in r1.
    Recv,
    /// 3: sends the number in r2 to the node whose number is in r1.
    Send,
    /// 4: the pulse's coin.
    Coin,
}

/// Every helper, once.
pub const HELPERS: [Helper; 4] = [Helper::Id, Helper::Recv, Helper::Send, Helper::Coin];

impl Helper {
    ghost use Rattle.std.specs.Prelude.{◌≡◌, ◌≤◌};
    ghost use Rattle.node_env.specs.Helpers.{argument_count, helper_by_word, helper_number, helper_of, helper_word};

    /// Returns the helper of a number, which is a call's immediate.
    pub fn of(id: i32) -> Option<Helper>
        ensures { result ≡ helper_of id }
    {
        match id {
            1 => Some(Helper::Id),
            2 => Some(Helper::Recv),
            3 => Some(Helper::Send),
            4 => Some(Helper::Coin),
            _ => None,
        }
    }

    /// Returns the helper that a word names.
    pub fn named(word: &[u8]) -> Option<Helper>
        ensures { result ≡ helper_by_word word.now }
    {
        HELPERS
            .iter()
            .copied()
            .find(|helper| helper.word().as_bytes() == word)
    }

    /// Its number, which is the call's immediate.
    pub fn number(self) -> i32
        ensures { result ≡ helper_number self }
    {
        match self {
            Helper::Id => 1,
            Helper::Recv => 2,
            Helper::Send => 3,
            Helper::Coin => 4,
        }
    }

    /// Its word in a text (docs/ASSEMBLER.md, "Words").
    pub fn word(self) -> &'static str
        ensures { result.now ≡ helper_word self }
    {
        match self {
            Helper::Id => "id",
            Helper::Recv => "recv",
            Helper::Send => "send",
            Helper::Coin => "coin",
        }
    }

    /// Returns how many of r1 to r5 it reads.
    pub fn arguments(self) -> u32
        ensures count { result ≡ argument_count self }
        ensures few { result ≤ 2 }
    {
        match self {
            Helper::Id => 0,
            Helper::Recv => 1,
            Helper::Send => 2,
            Helper::Coin => 0,
        }
    }
}

/// Returns how many of r1 to r5 a call reads, by its immediate: none if that names no helper.
pub fn arguments_of(id: i32) -> u32
    ensures count { result ≡ arguments_of id }
    ensures few { result ≤ 2 }
{
    match Helper::of(id) {
        Some(helper) => helper.arguments(),
        None => 0,
    }
}
