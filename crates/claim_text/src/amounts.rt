//! Sums of quantities, with whole numbers as coefficients.

use claim_tokens::ClaimError;
use std::alloc::{AllocError, Global};
use step_searches::{Quantity, Total};

/// The most quantities of a sum, each as often as it counts.
const MAX_QUANTITIES: u64 = 4000;

/// Why there is no sum: memory ran out, or this error of the text.
#[derive(Clone, Copy)]
pub(crate) enum NoAmount {
    Memory,
    Error(ClaimError),
}

impl From<AllocError> for NoAmount {
    fn from(_e: AllocError) -> NoAmount {
        NoAmount::Memory
    }
}

impl<T: Drop> From<std::alloc::AllocFailed<T>> for NoAmount {
    fn from(_e: std::alloc::AllocFailed<T>) -> NoAmount {
        NoAmount::Memory
    }
}

const OUT_OF_RANGE: NoAmount = NoAmount::Error(ClaimError::OutOfRange);

/// A quantity, so many times.
#[derive(Clone, Copy)]
struct Part {
    quantity: Quantity,
    times: i64,
}

/// A sum of quantities and a constant.
#[derive(Drop)]
pub(crate) struct Amount {
    parts: Vec<Part>,
    constant: i64,
}

impl Amount {
    /// Returns a constant.
    pub(crate) fn constant(alloc: Global, constant: i64) -> Amount {
        Amount {
            parts: Vec::new(alloc),
            constant,
        }
    }

    /// Returns a quantity.
    pub(crate) fn of(alloc: Global, quantity: Quantity) -> Result<Amount, AllocError> {
        let mut amount = Amount::constant(alloc, 0);
        amount.parts.push(Part { quantity, times: 1 })?;
        Ok(amount)
    }

    /// Returns the constant that the sum is, if it has no quantity.
    pub(crate) fn known(&self) -> Option<i64> {
        for part in &self.parts {
            if part.times != 0 {
                return None;
            }
        }
        Some(self.constant)
    }

    /// Returns the quantity that the sum is, if it is one.
    pub(crate) fn only(&self) -> Option<Quantity> {
        match self.parts.as_slice() {
            [part] if part.times == 1 && self.constant == 0 => Some(part.quantity),
            _ => None,
        }
    }

    /// Adds a quantity, so many times.
    fn add_part(&mut self, quantity: Quantity, times: i64) -> Result<(), NoAmount> {
        for part in &mut self.parts {
            if part.quantity == quantity {
                match part.times.checked_add(times) {
                    Some(sum) => part.times = sum,
                    None => return Err(OUT_OF_RANGE),
                }
                return Ok(());
            }
        }
        self.parts.push(Part { quantity, times })?;
        Ok(())
    }

    /// Adds another sum, so many times.
    pub(crate) fn add(&mut self, other: &Amount, times: i64) -> Result<(), NoAmount> {
        for part in &other.parts {
            match part.times.checked_mul(times) {
                Some(product) => self.add_part(part.quantity, product)?,
                None => return Err(OUT_OF_RANGE),
            }
        }
        self.add_constant(other.constant, times)
    }

    /// Adds a number, so many times.
    pub(crate) fn add_constant(&mut self, number: i64, times: i64) -> Result<(), NoAmount> {
        let product = match number.checked_mul(times) {
            Some(product) => product,
            None => return Err(OUT_OF_RANGE),
        };
        match self.constant.checked_add(product) {
            Some(sum) => {
                self.constant = sum;
                Ok(())
            }
            None => Err(OUT_OF_RANGE),
        }
    }

    /// Returns the sum of what counts more than 0 times, or with `is_less` of what counts less than that.
    pub(crate) fn side(&self, alloc: Global, is_less: bool) -> Result<Total, NoAmount> {
        let mut total = Total::Zero;
        let mut left = MAX_QUANTITIES;
        for part in &self.parts {
            if (part.times < 0) == is_less {
                let times = part.times.unsigned_abs();
                left = left.checked_sub(times).ok_or(OUT_OF_RANGE)?;
                total = repeated(alloc, total, part.quantity, times)?;
            }
        }
        if (self.constant < 0) == is_less {
            total = with_constant(alloc, total, self.constant.unsigned_abs())?;
        }
        Ok(total)
    }
}

/// Returns a sum with a quantity added so many times.
fn repeated(
    alloc: Global,
    total: Total,
    quantity: Quantity,
    times: u64,
) -> Result<Total, NoAmount> {
    if times > MAX_QUANTITIES {
        return Err(OUT_OF_RANGE);
    }
    let mut total = total;
    for _ in 0..times {
        total = Total::Plus(quantity, Box::new(alloc, total)?);
    }
    Ok(total)
}

/// Returns a sum with a number added.
fn with_constant(alloc: Global, total: Total, number: u64) -> Result<Total, NoAmount> {
    let largest = u64::from(u32::MAX);
    let whole = repeated(alloc, total, Quantity::Number(u32::MAX), number / largest)?;
    match u32::try_from(number % largest) {
        Ok(0) => Ok(whole),
        Ok(rest) => repeated(alloc, whole, Quantity::Number(rest), 1),
        Err(_) => Err(OUT_OF_RANGE),
    }
}
