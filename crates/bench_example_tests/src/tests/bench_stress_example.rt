use bench_stress::{StressOptions, stress_bench};
use std::test::Fail;

#[test]
fn bench_stress_example(rt: HostRuntime) -> Result<(), Fail> {
    let options = StressOptions {
        loaders: 2,
        loads: 3,
        pulses: 2,
        workers: 1,
    };
    let finished = stress_bench(&rt, rt.alloc(), options).map_err(|_| "stopped")?;
    assert_eq!(rt; (finished.loads(), finished.closes()), (6, 2));
    Ok(())
}
