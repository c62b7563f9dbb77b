//! Loads and stores.

ghost use Rattle.std.specs.Prelude.{◌≡◌, ◌≤◌, ◌+◌, IfSome};
ghost use Rattle.bpf_explain.specs.Known.{stack_bytes};

use bpf_verify::{AbstractValue, bytes_taken};
use node_env::{Region, STACK_BYTES, Shape};

/// The first of the stack bytes that an access may take, and their end. None where it goes elsewhere, or may leave the
/// stack.
pub(crate) fn stack_bytes(
    shape: Shape,
    base: AbstractValue,
    off: i16,
    count: u32,
) -> Option<(u32, u32)>
    requires { count ≤ 8 }
    ensures bytes { result ≡ stack_bytes shape base off count }
    ensures within { IfSome result (λ p. (p.0 + count ≤ p.1) × (p.1 ≤ STACK_BYTES)) }
{
    match base {
        AbstractValue::Unset | AbstractValue::Number(_) => None,
        AbstractValue::Pointer(region, a) => match region {
            Region::Mem => None,
            Region::Stack => bytes_taken(shape, region, a, off, count),
        },
    }
}
