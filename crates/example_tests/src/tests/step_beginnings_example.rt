use std::test::Fail;
use step_beginnings::{Beginning, begins};
use step_searches::{Coins, Condition, Step};

#[test]
fn step_beginnings_example(rt: HostRuntime) -> Result<(), Fail> {
    let step = Step {
        words: 1,
        names: 0,
        coins: Coins::Fixed(1),
        before: Condition::Anything,
        after: Condition::Anything,
    };
    let beginning = Beginning {
        nodes: 4,
        faults: 1,
        modulus: 8,
        free: Vec::new(rt.alloc()),
        sent: 0,
        memory: Vec::from_slice(rt.alloc(), &[0; 8])?,
    };
    assert!(rt; begins(&step, &beginning));
    Ok(())
}
