//! A text in pieces.

ghost use Rattle.std.specs.Prelude.{◌≡◌, ◌==◌, ◌∷◌, ◌≤◌, ◌<◌, length, IfSome};
ghost use Rattle.bpf_asm.specs.Pieces.{pieces_of, front_of, rest_of, before_blanks, trimmed};
ghost use Rattle.bpf_asm.specs.inner.Pieces.{pieces_left, is_among};
ghost use Rattle.bpf_asm.specs.Pieces.{begins_name, is_blank};

/// Bytes that are together: blanks, or the letters, digits and `_` of words.
#[derive(Clone, Copy, Debug, PartialEq, Eq)]
pub enum Letters {
    Blank,
    Word,
}

/// Returns whether a byte is a letter or `_`.
pub fn begins_name(byte: u8) -> bool
    ensures { result ≡ begins_name byte }
{
    matches!(byte, b'a'..=b'z' | b'A'..=b'Z' | b'_')
}

impl Letters {
    ghost use Rattle.std.specs.Prelude.{◌≡◌};
    ghost use Rattle.bpf_asm.specs.inner.Pieces.{is_among};

    /// Returns whether a byte is among them.
    pub fn has(self, byte: u8) -> bool
        ensures { result ≡ is_among self byte }
    {
        match self {
            Letters::Blank => matches!(byte, b' ' | b'\t' | b'\r'),
            Letters::Word => begins_name(byte) || byte.is_ascii_digit(),
        }
    }
}

/// Returns the piece before the first mark, and what comes after that mark.
pub fn first_piece(text: &[u8], mark: u8) -> (&[u8], Option<&[u8]>)
    ensures pieces { pieces_of (λ c. c == mark) text.now ≡ result.0.now ∷ pieces_left (λ c. c == mark) result.1 }
    ensures shorter { IfSome result.1 (λ rest. length rest.now < length text.now) }
{
    for (i, byte) in text.iter().enumerate() {
        if *byte == mark {
            return (&text[..i], Some(&text[i + 1..]));
        }
    }
    (text, None)
}

#[tactic(auto, using(crate::proofs::RunLemmas::front_more, crate::proofs::RunLemmas::front_ends))]
/// Returns the longest front of such bytes, and what comes after it.
pub fn split_front(text: &[u8], letters: Letters) -> (&[u8], &[u8])
    ensures front { result.0.now ≡ front_of (is_among letters) text.now }
    ensures rest { result.1.now ≡ rest_of (is_among letters) text.now }
{
    for (i, byte) in text.iter().enumerate() {
        if !letters.has(*byte) {
            return text.split_at(i);
        }
    }
    text.split_at(text.len())
}

#[tactic(auto, using(crate::proofs::RunLemmas::next_blank, crate::proofs::RunLemmas::next_byte))]
/// The text without the blanks at its end.
fn before_blanks(text: &[u8]) -> &[u8]
    ensures { result.now ≡ before_blanks text.now }
{
    let mut end = 0;
    for (i, byte) in text.iter().enumerate() {
        if !Letters::Blank.has(*byte) {
            end = i + 1;
        }
    }
    &text[..end]
}

/// Returns the text without the blanks at its ends.
pub fn trimmed(text: &[u8]) -> &[u8]
    ensures { result.now ≡ trimmed text.now }
{
    let (_, rest) = split_front(text, Letters::Blank);
    before_blanks(rest)
}
