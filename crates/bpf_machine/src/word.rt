//! What a register holds, and how a run can end.

ghost use Rattle.std.specs.Prelude.{Some};
ghost use Rattle.bpf_machine.specs.Traps.{trap_name};

use node_env::Region;
use std::fmt;

/// What a register holds: a number, or a pointer into a region, by its offset from the region's first byte.
#[derive(Clone, Copy, Debug, PartialEq, Eq)]
pub enum Word {
    /// A number.
    Num(u64),
    /// A pointer: a region and an offset.
    Ptr(Region, u32),
}

/// Why a state is stuck (docs/MACHINE.md, "Traps"). Of the traps that apply the one of the lowest number is told.
#[derive(Clone, Copy, Debug, PartialEq, Eq)]
pub enum TrapKind {
    /// No instruction begins at the slot to go on to.
    BadJump,
    /// A call of a number that is no helper's.
    BadHelper,
    /// A register that the instruction reads isn't set.
    Unset,
    /// The instruction writes r10.
    FrameWrite,
    /// A pointer if a number is needed.
    NotNumber,
    /// A pointer or an access leaves its region.
    OutOfRegion,
    /// A load of a stack byte that isn't written in this run.
    UnsetByte,
    /// An argument of a helper is a pointer or too great.
    BadArgument,
    /// The base of an access is a number.
    NotPointer,
    /// Exit with a pointer in r0.
    ExitNotNumber,
}

impl TrapKind {
    ghost use Rattle.std.specs.Prelude.{◌≡◌};
    ghost use Rattle.bpf_machine.specs.Traps.{trap_number};

    /// Returns the number by which a trap is told, 1 to 10.
    pub fn number(self) -> u32
        ensures { result ≡ trap_number self }
    {
        match self {
            TrapKind::BadJump => 1,
            TrapKind::BadHelper => 2,
            TrapKind::Unset => 3,
            TrapKind::FrameWrite => 4,
            TrapKind::NotNumber => 5,
            TrapKind::OutOfRegion => 6,
            TrapKind::UnsetByte => 7,
            TrapKind::BadArgument => 8,
            TrapKind::NotPointer => 9,
            TrapKind::ExitNotNumber => 10,
        }
    }
}

impl fmt::Display for TrapKind {
    ghost output = { λ kind. Some (trap_name kind) };

    fn fmt<W: fmt::Write>(&self, f: &mut fmt::Formatter<W>) -> fmt::Result {
        match self {
            TrapKind::BadJump => write!(f, "BadJump"),
            TrapKind::BadHelper => write!(f, "BadHelper"),
            TrapKind::Unset => write!(f, "Unset"),
            TrapKind::FrameWrite => write!(f, "FrameWrite"),
            TrapKind::NotNumber => write!(f, "NotNumber"),
            TrapKind::OutOfRegion => write!(f, "OutOfRegion"),
            TrapKind::UnsetByte => write!(f, "UnsetByte"),
            TrapKind::BadArgument => write!(f, "BadArgument"),
            TrapKind::NotPointer => write!(f, "NotPointer"),
            TrapKind::ExitNotNumber => write!(f, "ExitNotNumber"),
        }
    }
}

/// What one step came to.
#[derive(Clone, Copy, Debug, PartialEq, Eq)]
pub enum Turn {
    /// The run goes on.
    Next,
    /// The run ended, with r0.
    Ended(u64),
    /// The state is stuck.
    Trap(TrapKind),
}

/// What a run came to: its end, with r0 and the steps that it took (EXIT counts as one), or the slot at which it got
/// stuck, or that its fuel ran out.
#[derive(Clone, Copy, Debug, PartialEq, Eq)]
pub enum Outcome {
    Ended { r0: u64, steps: u64 },
    Trap { slot: u32, kind: TrapKind },
    OutOfFuel,
}
