//! The cases, and their names.

use crate::benches::{self, Kind};
use crate::shared::{self, Deed};
use crate::stop::{Ended, Stop};
use crate::{engine, programs, scenarios};
use std::alloc::Global;
use std::sync::Wait;
use std::thread::Threads;

/// A call, or a few that belong together.
#[derive(Clone, Copy)]
pub enum Case {
    Decode,
    DecodeFault,
    Assemble,
    AssembleFault,
    Verify,
    Judge,
    CopyProgram,
    CopyChange,
    NewBench,
    Stage(Kind),
    Open,
    Close,
    CloseReversed,
    Shared(Deed),
    EventsAlone,
    EventsOnTwo,
    Scenario,
    ScenarioRefusal,
    Schedule,
    Report,
    RunAlone,
    RunOnTwo,
}

/// All cases, in the order in which they are tried.
pub const CASES: [Case; 30] = [
    Case::Decode,
    Case::DecodeFault,
    Case::Assemble,
    Case::AssembleFault,
    Case::Verify,
    Case::Judge,
    Case::CopyProgram,
    Case::CopyChange,
    Case::NewBench,
    Case::Stage(Kind::Load),
    Case::Stage(Kind::Unload),
    Case::Stage(Kind::Corrupt),
    Case::Open,
    Case::Close,
    Case::CloseReversed,
    Case::Shared(Deed::Stage(Kind::Load)),
    Case::Shared(Deed::Stage(Kind::Unload)),
    Case::Shared(Deed::Stage(Kind::Corrupt)),
    Case::Shared(Deed::Open),
    Case::Shared(Deed::Close),
    Case::Shared(Deed::PulseAlone),
    Case::Shared(Deed::PulseOnTwo),
    Case::EventsAlone,
    Case::EventsOnTwo,
    Case::Scenario,
    Case::ScenarioRefusal,
    Case::Schedule,
    Case::Report,
    Case::RunAlone,
    Case::RunOnTwo,
];

impl Case {
    /// Returns the name of a case.
    pub fn name(self) -> &'static str {
        match self {
            Case::Decode => "decode",
            Case::DecodeFault => "decode, a fault",
            Case::Assemble => "assemble",
            Case::AssembleFault => "assemble, a fault",
            Case::Verify => "verify",
            Case::Judge => "judge",
            Case::CopyProgram => "copy of a program",
            Case::CopyChange => "copy of a change",
            Case::NewBench => "new bench",
            Case::Stage(Kind::Load) => "stage, a load",
            Case::Stage(Kind::Unload) => "stage, an unload",
            Case::Stage(Kind::Corrupt) => "stage, a corruption",
            Case::Open => "open a pulse",
            Case::Close => "close a pulse",
            Case::CloseReversed => "close a pulse, results reversed",
            Case::Shared(Deed::Stage(Kind::Load)) => "shared load",
            Case::Shared(Deed::Stage(Kind::Unload)) => "shared unload",
            Case::Shared(Deed::Stage(Kind::Corrupt)) => "shared corruption",
            Case::Shared(Deed::Open) => "shared opening",
            Case::Shared(Deed::Close) => "shared close",
            Case::Shared(Deed::PulseAlone) => "pulse, 1 worker",
            Case::Shared(Deed::PulseOnTwo) => "pulse, 2 workers",
            Case::EventsAlone => "events, 1 worker",
            Case::EventsOnTwo => "events, 2 workers",
            Case::Scenario => "scenario",
            Case::ScenarioRefusal => "scenario, refused",
            Case::Schedule => "events of a scenario",
            Case::Report => "report",
            Case::RunAlone => "scenario's run, 1 worker",
            Case::RunOnTwo => "scenario's run, 2 workers",
        }
    }

    /// Tries the case.
    pub fn run<R: Threads + Wait + Sync>(self, rt: &R, alloc: Global) -> Result<Ended, Stop> {
        match self {
            Case::Decode => programs::decodes(alloc),
            Case::DecodeFault => programs::decodes_a_fault(alloc),
            Case::Assemble => programs::assembles(alloc),
            Case::AssembleFault => programs::assembles_a_fault(alloc),
            Case::Verify => programs::verifies(alloc),
            Case::Judge => programs::judges(alloc),
            Case::CopyProgram => programs::copies_a_program(alloc),
            Case::CopyChange => programs::copies_changes(alloc),
            Case::NewBench => benches::makes(alloc),
            Case::Stage(kind) => benches::stages(alloc, kind),
            Case::Open => benches::opens(alloc),
            Case::Close => benches::closes(alloc, false),
            Case::CloseReversed => benches::closes(alloc, true),
            Case::Shared(deed) => shared::does(rt, alloc, deed),
            Case::EventsAlone => engine::runs_events(rt, alloc, 1),
            Case::EventsOnTwo => engine::runs_events(rt, alloc, 2),
            Case::Scenario => scenarios::reads(alloc),
            Case::ScenarioRefusal => scenarios::refuses(alloc),
            Case::Schedule => scenarios::schedules(alloc),
            Case::Report => scenarios::reports(rt, alloc),
            Case::RunAlone => scenarios::runs(rt, alloc, 1),
            Case::RunOnTwo => scenarios::runs(rt, alloc, 2),
        }
    }
}
