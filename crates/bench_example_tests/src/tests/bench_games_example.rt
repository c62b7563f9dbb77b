use bench_games::{Bounds, Limits, all_turns};
use bench_moves::{Bed, BedSetup, Config, Messages, Space};
use bpf_verify::verify;
use clock_nodes::{ClockRule, dolev_welch};
use node_env::Shape;
use std::test::Fail;

#[test]
fn bench_games_example(rt: HostRuntime) -> Result<(), Fail> {
    let shape = Shape::of(1, 8).ok_or("no shape")?;
    let rule = ClockRule::of(1, 0, 2).ok_or("no rule")?;
    let clock = dolev_welch(rt.alloc(), shape, rule)?;
    let program = verify(rt.alloc(), &clock, shape).map_err(|_| "not accepted")?;
    let setup = BedSetup {
        shape,
        rule,
        clock,
        own: false,
        aim: None,
    };
    let programs = vec![in rt.alloc(); Some(program)]?;
    let bed = Bed::new(rt.alloc(), setup, programs, Messages::All)?;

    let mut space = Space::new(rt.alloc(), 1);
    space.add(rt.alloc(), &Config::zeros(rt.alloc(), &bed)?, None)?;
    let mut limits = Limits::new(
        Bounds {
            states: 9,
            pulses: 9,
            bytes: 1 << 20,
        },
        space.bytes(),
    );
    let turns = all_turns(rt.alloc(), &bed, &space, &mut limits)?;
    assert!(rt; turns.is_none());
    Ok(())
}
