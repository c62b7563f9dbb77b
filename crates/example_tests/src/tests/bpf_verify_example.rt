use bpf_asm::assemble;
use bpf_verify::{Rule, VerifyError, check, verify};
use node_env::Shape;
use std::test::Fail;

#[test]
fn bpf_verify_example(rt: HostRuntime) -> Result<(), Fail> {
    let shape = Shape::of(4, 16).ok_or("no shape")?;
    let right = assemble(rt.alloc(), b"mov64 r0, 7\nexit").map_err(|_| "no program")?;
    let accepted = verify(rt.alloc(), &right, shape).map_err(|_| "not accepted")?;
    assert_eq!(rt; accepted.budget(), 2);
    let wrong = assemble(rt.alloc(), b"exit").map_err(|_| "no program")?;
    let rejected = VerifyError::Refused {
        slot: 0,
        rule: Rule::UnsetRegister,
    };
    assert_eq!(rt; check(rt.alloc(), &wrong, shape), Err(rejected));
    Ok(())
}
