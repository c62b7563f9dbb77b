//! How a run is told line by line.

use crate::pulses::PulseSpan;

/// A format of lines. It has a first line, a line for each pulse, and a last.
#[derive(Clone, Copy, Debug, PartialEq, Eq)]
pub enum LineFormat {
    /// An object of JSON in each line.
    Json,
}

/// How a run is told: in which format, and which of its pulses.
#[derive(Clone, Copy, Debug, PartialEq, Eq)]
pub struct LinesForm {
    pub format: LineFormat,
    pub span: PulseSpan,
}
