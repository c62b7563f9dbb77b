//! The lines of a text.
ghost use Rattle.std.specs.Prelude.{◌≡◌};
ghost use Rattle.std.specs.List.{after_first, before_first, position_or_len};
ghost use Rattle.rule_listing.specs.Listing.{is_line_end, line_after};

/// Returns how many bytes the first line of a text has, without its LF.
#[tactic(auto, using(std::proofs::lemmas::List::Sums::position_or_len_is))]
fn line_len(text: &[u8]) -> usize
    ensures { result ≡ position_or_len is_line_end text.now }
{
    for (at, byte) in text.iter().enumerate() {
        if *byte == b'\n' {
            return at;
        }
    }
    text.len()
}

/// Returns the first line of a text, without its LF.
fn first_line(text: &[u8]) -> &[u8]
    ensures { result.now ≡ before_first is_line_end text.now }
{
    let (line, _) = text.split_at(line_len(text).min(text.len()));
    line
}

/// Returns what comes after the first line of a text and its LF.
fn after_line(text: &[u8]) -> &[u8]
    ensures { result.now ≡ after_first is_line_end text.now }
{
    let (_, rest) = text.split_at(line_len(text).saturating_add(1).min(text.len()));
    rest
}

/// Returns the line of a text with this many lines before it; no bytes if there is none.
pub(crate) fn line_after(text: &[u8], before: usize) -> &[u8]
    ensures { result.now ≡ line_after before text.now }
{
    let mut rest = text;
    for _line in 0..before {
        rest = after_line(rest);
    }
    first_line(rest)
}
