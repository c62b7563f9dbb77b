use bench_moves::{Bed, BedSetup, Config, Messages, outcomes};
use bpf_verify::verify;
use clock_nodes::{ClockRule, dolev_welch};
use node_env::Shape;
use std::test::Fail;

#[test]
fn bench_moves_example(rt: HostRuntime) -> Result<(), Fail> {
    let shape = Shape::of(1, 8).ok_or("no shape")?;
    let rule = ClockRule::of(1, 0, 2).ok_or("no rule")?;
    let clock = dolev_welch(rt.alloc(), shape, rule)?;
    let program = verify(rt.alloc(), &clock, shape).map_err(|_| "not accepted")?;
    let setup = BedSetup {
        shape,
        rule,
        clock,
        own: false,
        aim: None,
    };
    let programs = vec![in rt.alloc(); Some(program)]?;
    let bed = Bed::new(rt.alloc(), setup, programs, Messages::All)?;

    let start = Config::zeros(rt.alloc(), &bed)?;
    let found = outcomes(rt.alloc(), &bed, &start)?.ok_or("too many")?;
    assert_eq!(rt; found.len(), 1);
    Ok(())
}
