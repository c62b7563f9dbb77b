//! What each loader of `bench_stress` stages.
use bench_core::{Actor, Change, Entry};
use bench_stress::{StressOptions, stress_bench};
use std::alloc::Global;
use std::test::Fail;

/// The slots of the clock program of four nodes (docs/CLOCK.md).
const CLOCK_SLOTS: u32 = 55;

/// The node of each of the loader's loads, and whether it loads the clock.
fn loads_of(alloc: Global, history: &[Entry], loader: u32) -> Result<Vec<(u32, bool)>, Fail> {
    let mut loads = Vec::new(alloc);
    for entry in history {
        if entry.is_by(Actor::Loader(loader)) {
            match entry {
                Entry::Staged {
                    actor: _,
                    change: Change::Load { node, program },
                } => loads.push((*node, program.program().slot_count() == CLOCK_SLOTS))?,
                _ => Err("no load")?,
            }
        }
    }
    Ok(loads)
}

/// Loaders that all begin at node 0 keep every clause, and fail here.
#[test]
fn each_loader_begins_at_its_own_node(rt: HostRuntime) -> Result<(), Fail> {
    let alloc = rt.alloc();
    let options = StressOptions {
        loaders: 3,
        loads: 5,
        pulses: 2,
        workers: 1,
    };
    let Ok(finished) = stress_bench(&rt, alloc, options) else {
        return Err("stopped")?;
    };
    let nodes = [[0, 1, 2, 3, 0], [1, 2, 3, 0, 1], [2, 3, 0, 1, 2]];
    for loader in 0..3u32 {
        let loads = loads_of(alloc, finished.history(), loader)?;
        assert_eq!(rt; loads.len(), 5);
        for (turn, (node, is_clock)) in loads.iter().enumerate() {
            assert_eq!(rt; *node, nodes[loader as usize][turn]);
            assert_eq!(rt; *is_clock, turn % 2 == 0);
        }
    }
    Ok(())
}
