//! Numbers of the text: an optional `-`, then decimal digits, or `0x` and hexadecimal digits.
ghost use Rattle.std.specs.Prelude.{◌≡◌, ◌≤◌, ◌<◌, ◌^◌, MatchOption, MatchResult, IsSomeAnd, IfSome, ⊤, ◌+◌, ◌*◌, ℤ};
ghost use Rattle.std.specs.Prelude.{pos, neg_ℤ, ◌≤ℤ◌, ℕ, Option, Some, None, option_map};
ghost use Rattle.bpf_asm.specs.Numbers.{magnitude_of, numeral_of, number_of, signed_number_of, in_field, wide_of};
ghost use Rattle.bpf_asm.specs.Numbers.{Written, written};
ghost use Rattle.bpf_asm.specs.inner.Numbers.{CountsTo, CountsSigned};

/// The greatest immediate and distance of 32 bits; below zero it goes one further.
pub const GREATEST_IMMEDIATE: u32 = 0x7fff_ffff;

/// The greatest offset and distance of 16 bits; below zero it goes one further.
pub const GREATEST_OFFSET: u32 = 0x7fff;

/// A whole number without its sign, as far as 64 bits count.
#[derive(Clone, Copy, Debug, PartialEq, Eq)]
pub enum Magnitude {
    Fits(u64),
    TooGreat,
}

/// A whole number.
#[derive(Clone, Copy, Debug, PartialEq, Eq)]
pub struct Number {
    pub below_zero: bool,
    pub magnitude: Magnitude,
}

/// Returns the number that digits write.
pub fn numeral(digits: &[u8], radix: u32) -> Option<Magnitude>
    requires least { 2 ≤ radix }
    requires most { radix ≤ 16 }
    ensures { CountsTo (numeral_of radix digits.now) result }
{
    if digits.is_empty() {
        return None;
    }
    let mut total = Some(0u64);
    for byte in digits {
        let digit = char::from(*byte).to_digit(radix)?;
        total = next_total(total, radix, digit);
    }
    match total {
        Some(number) => Some(Magnitude::Fits(number)),
        None => Some(Magnitude::TooGreat),
    }
}

/// A total with one more digit after it, as long as it fits.
fn next_total(total: Option<u64>, radix: u32, digit: u32) -> Option<u64>
    ensures { MatchOption result
        (MatchOption total (⊤) (λ t. 2 ^ 64 ≤ t * radix + digit))
        (λ sum. IsSomeAnd total (λ t. sum ≡ t * radix + digit)) }
{
    let product = total?.checked_mul(u64::from(radix))?;
    product.checked_add(u64::from(digit))
}

/// The number that a text writes without a sign.
fn unsigned_number(text: &[u8]) -> Option<Magnitude>
    ensures { CountsTo (magnitude_of text.now) result }
{
    match text {
        [b'0', b'x', digits @ ..] => numeral(digits, 16),
        _ => numeral(text, 10),
    }
}

/// The number with its sign.
fn with_sign(below_zero: bool, magnitude: Option<Magnitude>) -> Option<Number>
    ensures { (size : Option ℕ) → CountsTo size magnitude → CountsSigned (option_map (written below_zero) size) result }
{
    Some(Number {
        below_zero,
        magnitude: magnitude?,
    })
}

/// Returns the number that a text writes, with `-` before it if it is below zero.
pub fn whole_number(text: &[u8]) -> Option<Number>
    ensures { CountsSigned (number_of text.now) result }
{
    match text {
        [b'-', size @ ..] => with_sign(true, unsigned_number(size)),
        _ => with_sign(false, unsigned_number(text)),
    }
}

/// Returns the number that a text writes after a sign.
pub fn signed_number(text: &[u8]) -> Option<Number>
    ensures { CountsSigned (signed_number_of magnitude_of text.now) result }
{
    match text {
        [b'+', size @ ..] => with_sign(false, unsigned_number(size)),
        [b'-', size @ ..] => with_sign(true, unsigned_number(size)),
        _ => None,
    }
}

/// Returns the number that a text writes in decimal digits after a sign.
pub fn signed_decimal(text: &[u8]) -> Option<Number>
    ensures { CountsSigned (signed_number_of (numeral_of 10) text.now) result }
{
    match text {
        [b'+', size @ ..] => with_sign(false, numeral(size, 10)),
        [b'-', size @ ..] => with_sign(true, numeral(size, 10)),
        _ => None,
    }
}

impl Number {
    ghost use Rattle.std.specs.Prelude.{◌≡◌, ◌<◌, ◌^◌, ◌+◌, ◌≤ℤ◌, ℕ, pos, neg_ℤ, Some, IfSome};
    ghost use Rattle.bpf_asm.specs.Numbers.{in_field, wide_of, Written};
    ghost use Rattle.bpf_asm.specs.inner.Numbers.{CountsSigned};

    /// Returns the number, where a signed field holds it whose greatest number is `most`.
    pub fn in_field(self, most: u32) -> Option<i64>
        ensures value { (w : Written) → CountsSigned (Some w) (Some self) → result ≡ in_field most w }
        ensures least { IfSome result (λ z. neg_ℤ (pos (most + 1)) ≤ℤ z) }
        ensures most { IfSome result (λ z. z ≤ℤ pos most) }
    {
        let Magnitude::Fits(size) = self.magnitude else {
            return None;
        };
        if self.below_zero {
            if size <= u64::from(most) + 1 {
                Some(-(size as i64))
            } else {
                None
            }
        } else if size <= u64::from(most) {
            Some(size as i64)
        } else {
            None
        }
    }

    /// Returns the number as 64 bits, those below zero modulo 2^64.
    pub fn wide(self) -> Option<u64>
        ensures { (w : Written) → CountsSigned (Some w) (Some self) → result ≡ wide_of w }
    {
        let Magnitude::Fits(size) = self.magnitude else {
            return None;
        };
        if !self.below_zero {
            Some(size)
        } else if size <= 1 << 63 {
            Some(0u64.wrapping_sub(size))
        } else {
            None
        }
    }
}
