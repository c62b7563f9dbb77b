//! The rules of the verifier.

ghost use Rattle.std.specs.Prelude.{◌≡◌};
ghost use Rattle.bpf_verify.specs.Rules.{rule_name, rule_number};

/// A rule that a program can break (docs/VERIFIER.md, "Rules"). Of the rules that an instruction breaks the one of the
/// lowest number is told.
#[derive(Clone, Copy, Debug, PartialEq, Eq)]
pub enum Rule {
    /// 1: a jump goes back.
    NotForward,
    /// 2: no instruction begins where a way leads.
    BadTarget,
    /// 3: a call names no helper.
    UnknownHelper,
    /// 4: a register that is read is unset.
    UnsetRegister,
    /// 5: r10 is written.
    FrameWrite,
    /// 6: a pointer is used as a number, or moved out of its region.
    PointerMisuse,
    /// 7: an access may leave its region.
    OutOfRegion,
    /// 8: a load may take a stack byte that isn't written.
    UnsetStackByte,
    /// 9: a helper's argument is a pointer, or may be too great.
    BadArgument,
    /// 10: the program ends with a pointer in r0.
    ExitNotNumber,
    /// 11: the base of an access is a number.
    NotPointer,
}

impl Rule {
    /// Returns the number by which a rule is told, 1 to 11.
    pub fn number(self) -> u32
        ensures { result ≡ rule_number self }
    {
        match self {
            Rule::NotForward => 1,
            Rule::BadTarget => 2,
            Rule::UnknownHelper => 3,
            Rule::UnsetRegister => 4,
            Rule::FrameWrite => 5,
            Rule::PointerMisuse => 6,
            Rule::OutOfRegion => 7,
            Rule::UnsetStackByte => 8,
            Rule::BadArgument => 9,
            Rule::ExitNotNumber => 10,
            Rule::NotPointer => 11,
        }
    }
    /// Returns the name by which a rule is told.
    pub fn name(self) -> &'static str
        ensures { result.now ≡ rule_name self }
    {
        match self {
            Rule::NotForward => "NotForward",
            Rule::BadTarget => "BadTarget",
            Rule::UnknownHelper => "UnknownHelper",
            Rule::UnsetRegister => "UnsetRegister",
            Rule::FrameWrite => "FrameWrite",
            Rule::PointerMisuse => "PointerMisuse",
            Rule::OutOfRegion => "OutOfRegion",
            Rule::UnsetStackByte => "UnsetStackByte",
            Rule::BadArgument => "BadArgument",
            Rule::ExitNotNumber => "ExitNotNumber",
            Rule::NotPointer => "NotPointer",
        }
    }
}
