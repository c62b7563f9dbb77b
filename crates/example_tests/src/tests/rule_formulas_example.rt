use linear_certificates::{read_certificate, refutes};
use rule_formulas::never;
use std::test::Fail;

#[test]
fn rule_formulas_example(rt: HostRuntime) -> Result<(), Fail> {
    let formula = never(rt.alloc()).map_err(|_| "no formula")?;
    let mut words = "sum 1 0 1".split_whitespace();
    let certificate = read_certificate(rt.alloc(), &mut words)?;
    assert_eq!(rt; refutes(rt.alloc(), &formula, &certificate), Ok(true));
    Ok(())
}
