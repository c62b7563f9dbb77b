use claim_text::read_claims;
use std::test::Fail;

#[test]
fn claim_text_example(rt: HostRuntime) -> Result<(), Fail> {
    let (rule, claims) = (b"send clock\n", b"step any -> any\n");
    let lines = read_claims(rt.alloc(), rule, claims).map_err(|_| "no claims")?;
    assert_eq!(rt; lines.len(), 1);
    Ok(())
}
