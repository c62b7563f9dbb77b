use linear_certificates::{at_most_0, read_certificate, refutes};
use std::test::Fail;

#[test]
fn linear_certificates_example(rt: HostRuntime) -> Result<(), Fail> {
    let impossible = at_most_0(rt.alloc(), &[], 1)?;
    let mut words = "sum 1 0 1".split_whitespace();
    let certificate = read_certificate(rt.alloc(), &mut words)?;
    assert_eq!(rt; refutes(rt.alloc(), &impossible, &certificate), Ok(true));
    Ok(())
}
