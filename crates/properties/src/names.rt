//! The names of a property's term, as locals of a rule's term.
ghost use Rattle.std.specs.Prelude.{◌≡◌, ◌<◌};
ghost use Rattle.properties.specs.Names.{local_of_name, name_of_local, name_of_word, word_of_name};

/// The most words of a memory that names can have.
pub const MAX_NAMED_WORDS: u32 = 64;

/// One of the two nodes of a property: p or q.
#[derive(Clone, Copy, Debug, PartialEq, Eq)]
pub enum Side {
    First,
    Second,
}

/// A name of a property's term: a node's number, or a word of its memory after a pulse or before it.
#[derive(Clone, Copy, Debug, PartialEq, Eq)]
pub enum PairName {
    Number(Side),
    After(Side, u32),
    Before(Side, u32),
}

/// Returns the local of a name.
pub fn local_of(name: PairName) -> u32
    requires { word_of_name name < MAX_NAMED_WORDS }
    ensures { result ≡ local_of_name name }
{
    match name {
        PairName::Number(Side::First) => 0,
        PairName::Number(Side::Second) => 1,
        PairName::After(Side::First, word) => 2 + 4 * word,
        PairName::Before(Side::First, word) => 3 + 4 * word,
        PairName::After(Side::Second, word) => 4 + 4 * word,
        PairName::Before(Side::Second, word) => 5 + 4 * word,
    }
}

/// Returns a word's name by its place among the four of that word.
fn name_of_word(place: u32, word: u32) -> PairName
    ensures { result ≡ name_of_word place word }
{
    if place == 0 {
        PairName::After(Side::First, word)
    } else if place == 1 {
        PairName::Before(Side::First, word)
    } else if place == 2 {
        PairName::After(Side::Second, word)
    } else {
        PairName::Before(Side::Second, word)
    }
}

/// Returns the name that has a local.
pub fn name_of(local: u32) -> PairName
    ensures { result ≡ name_of_local local }
{
    if local == 0 {
        PairName::Number(Side::First)
    } else if local == 1 {
        PairName::Number(Side::Second)
    } else {
        name_of_word((local - 2) % 4, (local - 2) / 4)
    }
}
