use bench_core::{Actor, Bench, Change};
use bpf_verify::verify;
use clock_nodes::{ClockRule, dolev_welch};
use node_env::Shape;
use std::test::Fail;

#[test]
fn bench_core_example(rt: HostRuntime) -> Result<(), Fail> {
    let shape = Shape::of(1, 8).ok_or("no shape")?;
    let rule = ClockRule::of(1, 0, 2).ok_or("no rule")?;
    let clock = dolev_welch(rt.alloc(), shape, rule)?;
    let program = verify(rt.alloc(), &clock, shape).map_err(|_| "not accepted")?;
    let mut bench = Bench::new(rt.alloc(), shape, rule)?;
    let load = Change::Load { node: 0, program };
    assert!(rt; bench.stage(Actor::Engine, load).is_ok());
    let tasks = bench
        .open_pulse(rt.alloc(), &[1])
        .map_err(|_| "not opened")?;
    let dones = tasks
        .into_iter()
        .map(|task| task.run())
        .collect(rt.alloc())?;
    let record = bench
        .close_pulse(rt.alloc(), dones)
        .map_err(|_| "not closed")?;
    assert_eq!(rt; record.clocks.as_slice(), [Some(0)].as_slice());
    Ok(())
}
