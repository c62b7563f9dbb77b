use scenario_text::{Coins, scenario_in};
use std::test::Fail;

#[test]
fn scenario_text_example(rt: HostRuntime) -> Result<(), Fail> {
    let text = b"nodes = 4\nfaults = 1\nmodulus = 8\nmemory = 8\npulses = 1\ncoins = \"ones\"\n";
    let scenario = scenario_in(rt.alloc(), text).map_err(|_| "no scenario")?;

    assert_eq!(rt; (scenario.nodes, scenario.pulses), (4, 1));
    assert_eq!(rt; scenario.coins, Coins::Ones);
    Ok(())
}
