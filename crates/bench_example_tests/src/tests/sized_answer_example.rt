use bench_moves::{Bed, BedSetup, Messages};
use bpf_verify::verify;
use clock_nodes::{ClockRule, dolev_welch};
use node_env::Shape;
use sized_answer::may_stabilise_within;
use std::test::Fail;

#[test]
fn sized_answer_example(rt: HostRuntime) -> Result<(), Fail> {
    let shape = Shape::of(1, 8).ok_or("no shape")?;
    let rule = ClockRule::of(1, 0, 2).ok_or("no rule")?;
    let clock = dolev_welch(rt.alloc(), shape, rule)?;
    let program = verify(rt.alloc(), &clock, shape).map_err(|_| "not accepted")?;
    let setup = BedSetup {
        shape,
        rule,
        clock,
        own: false,
        aim: None,
    };
    let programs = vec![in rt.alloc(); Some(program)]?;
    let bed = Bed::new(rt.alloc(), setup, programs, Messages::All)?;

    assert_eq!(rt; may_stabilise_within(rt.alloc(), &bed, rule)?, Some(4));
    Ok(())
}
