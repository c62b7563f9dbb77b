use key_sweep::{KeySpan, sweep};
use scenario_text::scenario_in;
use std::test::Fail;
use stream_io::Tracked;

#[test]
fn key_sweep_example(rt: HostRuntime) -> Result<(), Fail> {
    let text = b"version = 2
    nodes = 4
    faults = 1
    modulus = 8
    memory = 8
    pulses = 1
    coins = \"chacha\"
    key = 1
    ";
    let scenario = scenario_in(rt.alloc(), text).map_err(|_| "no scenario")?;
    let keys = KeySpan::of(1, 3).ok_or("no keys")?;
    let mut rows = Tracked::of(Vec::new(rt.alloc()));
    assert!(rt; sweep(&rt, rt.alloc(), &scenario, keys, 2, &mut rows).is_ok());
    assert_eq!(rt; rows.stream.as_slice().split(|byte| *byte == 10).count(), 5);
    Ok(())
}
