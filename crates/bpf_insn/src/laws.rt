//! Laws of spellings and images: what these contracts say holds of every instruction and program.

ghost use Rattle.std.specs.Prelude.{◌≡◌, ◌≢◌, ◌*◌, ◌++◌, ℕ, List, length, MatchResult};
ghost use Rattle.bpf_insn.specs.declared.forms.Insn.{Insn};
ghost use Rattle.bpf_insn.specs.Encoding.{InRange, slots_taken, spelling};
ghost use Rattle.bpf_insn.specs.Programs.{IsProgram, image_of, slots_of};
ghost use Rattle.bpf_insn.specs.Images.{RefusesImage};

use crate::image::{ImageError, decode, encode};
use crate::listing::Program;
use std::alloc::Global;

/// States that no spelling begins another, so each instruction has one.
pub fn one_spelling()
    ensures { (i j : Insn) (x y : List ℕ) → InRange i → InRange j → spelling i ++ x ≡ spelling j ++ y →
        (i ≡ j) × (x ≡ y) }
{}

/// States that a slot is eight bytes.
pub fn spelling_length()
    ensures spelling { (i : Insn) → length (spelling i) ≡ 8 * slots_taken i }
    ensures image { (p : List Insn) → length (image_of p) ≡ 8 * slots_of p }
{}

/// Bytes are the image of one program or have one refusal, lack of memory aside.
pub fn one_reading()
    ensures program { (p q : List Insn) → IsProgram p → IsProgram q → image_of p ≡ image_of q → p ≡ q }
    ensures refusal { (bytes : List ℕ) (e d : ImageError) → RefusesImage bytes e → RefusesImage bytes d →
        e ≢ ImageError.Memory → d ≢ ImageError.Memory → e ≡ d }
    ensures apart { (p : List Insn) (e : ImageError) → IsProgram p → RefusesImage (image_of p) e →
        e ≡ ImageError.Memory }
{}

/// Encodes a program, and decodes its image: that gives the program back. Fails only for lack of memory.
pub fn round_trip(alloc: Global, program: &Program) -> Result<Program, ImageError>
    ensures { MatchResult result (λ p. p ≡ program.now) (λ e. e ≡ ImageError.Memory) }
{
    let image = encode(alloc, program)?;
    decode(alloc, &image)
}
