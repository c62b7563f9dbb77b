use claim_proofs::{Outcome, prove};
use std::test::Fail;

#[test]
fn claim_proofs_example(rt: HostRuntime) -> Result<(), Fail> {
    let (rule, claims) = (b"send clock\n", b"step any -> any\n");
    let answers = prove(rt.alloc(), rule, claims, b"").map_err(|_| "refused")?;
    for answer in &answers {
        assert_eq!(rt; answer.outcome, Outcome::NoCertificate);
    }
    Ok(())
}
