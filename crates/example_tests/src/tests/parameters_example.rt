use parameters::{KeySpan, PulseSpan};
use std::test::Fail;

#[test]
fn parameters_example(rt: HostRuntime) -> Result<(), Fail> {
    let keys = KeySpan::of(1, 20).ok_or("no keys")?;
    assert_eq!(rt; keys.count(), 20);
    let pulses = PulseSpan::of(3, 5).ok_or("no pulses")?;
    assert!(rt; pulses.contains(5) && !pulses.contains(6));
    Ok(())
}
