//! Why a run wasn't told whole.
use bench_workers::RunFault;
use stream_io::PartFault;
use thiserror::Error;

/// Why not all lines of a run were written.
#[derive(Clone, Copy, Debug, Drop, Error, PartialEq, Eq)]
pub enum LinesFault {
    #[error("the run stopped at event {}", .0.event)]
    Run(RunFault),
    #[error(transparent)]
    Part(PartFault),
}

impl From<PartFault> for LinesFault {
    ghost use Rattle.std.specs.Prelude.{◌≡◌};
    ghost use Rattle.run_lines.specs.declared.fault.LinesFault.TheVariants.{Part};

    ghost from_gives = { λ part e. e ≡ Part part };

    fn from(part: PartFault) -> LinesFault {
        LinesFault::Part(part)
    }
}
