use bench_workers::{Event, Open, run_events};
use clock_nodes::ClockRule;
use node_env::Shape;
use std::test::Fail;

#[test]
fn bench_workers_example(rt: HostRuntime) -> Result<(), Fail> {
    let shape = Shape::of(4, 8).ok_or("no shape")?;
    let rule = ClockRule::of(4, 1, 8).ok_or("no rule")?;
    let coins = vec![in rt.alloc(); 0; 4]?;
    let events = vec![in rt.alloc(); Event::Pulse(coins)]?;
    let run = run_events(&rt, rt.alloc(), &Open, 2, shape, rule, events).map_err(|_| "no run")?;
    assert_eq!(rt; run.records.len(), 1);
    Ok(())
}
