use clock_nodes::{ClockRule, dolev_welch};
use node_env::Shape;
use std::test::Fail;

#[test]
fn clock_nodes_example(rt: HostRuntime) -> Result<(), Fail> {
    let shape = Shape::of(4, 16).ok_or("no shape")?;
    let rule = ClockRule::of(4, 1, 8).ok_or("no rule")?;
    assert_eq!(rt; rule.quorum(), 3);
    let clock = dolev_welch(rt.alloc(), shape, rule)?;
    assert_eq!(rt; clock.slot_count(), 55);
    Ok(())
}
