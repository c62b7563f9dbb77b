//! Which known name an unknown one is near to.

use std::alloc::{AllocError, Global};
use strsim::osa_distance;

/// The longest name that is compared, in bytes.
const LONGEST_NAME: usize = 64;

/// One letter in three may be wrong.
const LETTERS_AN_EDIT: usize = 3;

/// Returns how many edits lead from one name to the other, if these are few; a swap of two letters is one. Equal names
/// have none.
fn edits(alloc: Global, name: &str, known: &str) -> Result<Option<usize>, AllocError> {
    let distance = osa_distance(alloc, name, known)?;
    let is_near = 0 < distance && distance <= name.len().max(known.len()) / LETTERS_AN_EDIT;
    if is_near {
        Ok(Some(distance))
    } else {
        Ok(None)
    }
}

/// Returns the nearest of the known names, the first of several, if one is near.
pub fn nearest<'a>(
    alloc: Global,
    name: &str,
    known: &[&'a str],
) -> Result<Option<&'a str>, AllocError> {
    if name.len() > LONGEST_NAME {
        return Ok(None);
    }
    let mut best: Option<(&'a str, usize)> = None;
    for other in known {
        if let Some(distance) = edits(alloc, name, other)? {
            let is_nearer = match best {
                None => true,
                Some((_, least)) => distance < least,
            };
            if is_nearer {
                best = Some((other, distance));
            }
        }
    }
    Ok(best.map(|(other, _)| other))
}
