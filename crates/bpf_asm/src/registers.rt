//! The registers by their words (docs/ASSEMBLER.md, "Words").

ghost use Rattle.std.specs.Prelude.{◌≡◌};
ghost use Rattle.bpf_asm.specs.Words.{register_word, register_by_word};

use bpf_insn::Reg;

/// Every register, once.
pub const REGISTERS: [Reg; 11] = [
    Reg::R0,
    Reg::R1,
    Reg::R2,
    Reg::R3,
    Reg::R4,
    Reg::R5,
    Reg::R6,
    Reg::R7,
    Reg::R8,
    Reg::R9,
    Reg::R10,
];

/// Returns the word of a register.
pub fn register_word(register: Reg) -> &'static str
    ensures { result.now ≡ register_word register }
{
    match register {
        Reg::R0 => "r0",
        Reg::R1 => "r1",
        Reg::R2 => "r2",
        Reg::R3 => "r3",
        Reg::R4 => "r4",
        Reg::R5 => "r5",
        Reg::R6 => "r6",
        Reg::R7 => "r7",
        Reg::R8 => "r8",
        Reg::R9 => "r9",
        Reg::R10 => "r10",
    }
}

/// Returns the register that a word names.
pub fn register_by_word(word: &[u8]) -> Option<Reg>
    ensures { result ≡ register_by_word word.now }
{
    REGISTERS
        .iter()
        .copied()
        .find(|register| register_word(*register).as_bytes() == word)
}
