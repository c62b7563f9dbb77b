use claimed_sweeps::{ClaimedSweep, claimed_sweep};
use key_sweep::KeySpan;
use scenario_text::scenario_in;
use std::test::Fail;
use stream_io::Tracked;

#[test]
fn claimed_sweeps_example(rt: HostRuntime) -> Result<(), Fail> {
    let text = b"version = 2
    nodes = 4
    faults = 1
    modulus = 8
    memory = 8
    pulses = 1
    coins = \"chacha\"
    key = 1
    ";
    let scenario = scenario_in(rt.alloc(), text).map_err(|_| "no scenario")?;

    let asked = ClaimedSweep {
        scenario: &scenario,
        properties: &[],
        keys: KeySpan::of(1, 3).ok_or("no keys")?,
        workers: 2,
    };
    let mut rows = Tracked::of(Vec::new(rt.alloc()));
    assert!(rt; claimed_sweep(&rt, rt.alloc(), &asked, &mut rows).is_ok());
    assert_eq!(rt; rows.stream.as_slice(), b"key\n1\n2\n3\n".as_slice());
    Ok(())
}
