use exploration::odds_table;
use std::test::Fail;

#[test]
fn exploration_example(rt: HostRuntime) -> Result<(), Fail> {
    let table = odds_table(rt.alloc(), 1, &[0, 1 << 31, 1 << 32])?;
    let rows = "pulses,at_least,of\n1,2147483648,4294967296\n2,4294967296,4294967296\n";
    assert_eq!(rt; table.as_str(), rows);
    Ok(())
}
