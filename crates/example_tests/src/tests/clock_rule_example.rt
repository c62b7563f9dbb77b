use clock_rule::{CLOCK_RULE, read_clock_rule};
use std::test::Fail;

#[test]
fn clock_rule_example(rt: HostRuntime) -> Result<(), Fail> {
    let rule = read_clock_rule(rt.alloc()).map_err(|_| "no rule")?;
    assert_eq!(rt; rule.words, 2);
    assert!(rt; CLOCK_RULE.ends_with(b"send clock\n"));
    Ok(())
}
