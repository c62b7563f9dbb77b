//! How a command ends that wrote its whole answer.

/// Whether the answer is a result, a refusal of what was read, that a bench's history isn't what its hands did, that
/// what was asked is violated (agreement or stabilisation), or that a limit was reached before there was a result.
#[derive(Clone, Copy, Debug, PartialEq, Eq)]
pub enum Ending {
    Done,
    Refused,
    Mismatched,
    Violated,
    Unfinished,
}

impl Ending {
    ghost use Rattle.std.specs.Prelude.{◌≡◌};
    ghost use Rattle.command_answers.specs.Ending.{status_of};

    /// Returns the exit status of the program.
    pub fn status(self) -> u8
        ensures { result ≡ status_of self }
    {
        match self {
            Ending::Done => 0,
            Ending::Refused => 2,
            Ending::Mismatched => 1,
            Ending::Violated => 3,
            Ending::Unfinished => 4,
        }
    }
}
