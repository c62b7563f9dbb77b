use bpf_asm::assemble;
use bpf_record::{is_blind, records_of};
use std::test::Fail;

#[test]
fn bpf_record_example(rt: HostRuntime) -> Result<(), Fail> {
    let program = assemble(rt.alloc(), b"call coin\nexit").map_err(|_| "no program")?;
    let records = records_of(rt.alloc(), &program)?;
    assert_eq!(rt; records.len(), 2);
    assert!(rt; is_blind(rt.alloc(), &program)?);
    Ok(())
}
