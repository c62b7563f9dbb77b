use bench_games::{Bounds, Query};
use bench_moves::{Bed, BedSetup, Messages, Start};
use bench_space::{Explored, Silent, explore};
use bpf_verify::verify;
use clock_nodes::{ClockRule, dolev_welch};
use explored::Question;
use node_env::Shape;
use std::test::Fail;

#[test]
fn bench_space_example(rt: HostRuntime) -> Result<(), Fail> {
    let shape = Shape::of(1, 8).ok_or("no shape")?;
    let rule = ClockRule::of(1, 0, 2).ok_or("no rule")?;
    let clock = dolev_welch(rt.alloc(), shape, rule)?;
    let program = verify(rt.alloc(), &clock, shape).map_err(|_| "not accepted")?;
    let setup = BedSetup {
        shape,
        rule,
        clock,
        own: false,
        aim: None,
    };
    let programs = vec![in rt.alloc(); Some(program)]?;
    let bed = Bed::new(rt.alloc(), setup, programs, Messages::All)?;

    let bounds = Bounds {
        states: 100,
        pulses: 100,
        bytes: 1 << 20,
    };
    let query = Query {
        question: Question::Agreement,
        bounds,
        odds: None,
        graph: false,
    };
    let explored = explore(rt.alloc(), &bed, &Start::Zero, query, &mut Silent)?;
    assert!(rt; matches!(explored, Explored::Closed { .. }));
    Ok(())
}
