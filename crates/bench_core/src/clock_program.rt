//! The program that counts as the clock of a bench.
ghost use Rattle.std.specs.Prelude.{◌≡◌, IfOk};

use bpf_insn::Program;
use std::alloc::{AllocError, Global};
use std::marker::Model;

/// The instructions that make a program the clock of a bench.
#[derive(Drop)]
pub struct ClockProgram {
    program: Program,
}

impl Model for ClockProgram {
    ghost use Rattle.std.specs.Prelude.{List};
    ghost use Rattle.bpf_insn.specs.declared.forms.Insn.{Insn};
    ghost use Rattle.bpf_insn.specs.Programs.{IsProgram};

    ghost Value = { List Insn };

    ghost view = { λ c. c.program };

    ghost invariant = { λ c. IsProgram c.program };
}

impl ClockProgram {
    ghost use Rattle.std.specs.Prelude.{◌↔◌, IsTrue};
    ghost use Rattle.bpf_insn.specs.Programs.{IsProgram};

    /// Returns a program as a clock.
    pub(crate) fn of(program: Program) -> ClockProgram
        ensures { result ≡ program }
    {
        let _count = program.slot_count(); // brings its range
        ClockProgram { program }
    }

    /// Returns its instructions.
    pub fn program(&self) -> &Program
        ensures value { result.now ≡ self.now }
        ensures program { IsProgram self.now }
    {
        &self.program
    }

    /// Returns whether the other has the same instructions.
    pub fn same(&self, other: &ClockProgram) -> bool
        ensures { IsTrue result ↔ (self.now ≡ other.now) }
    {
        self.program.same(&other.program)
    }

    /// Returns an equal clock.
    pub fn copy(&self, alloc: Global) -> Result<ClockProgram, AllocError>
        ensures { IfOk result (λ c. c ≡ self.now) }
    {
        let program = self.program.copy(alloc)?;
        Ok(ClockProgram::of(program))
    }
}
