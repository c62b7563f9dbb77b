use bpf_insn::{Insn, decode, encode};
use std::test::Fail;

#[test]
fn bpf_insn_example(rt: HostRuntime) -> Result<(), Fail> {
    let exit = [0x95, 0, 0, 0, 0, 0, 0, 0];
    let program = decode(rt.alloc(), &exit).map_err(|_| "no image")?;
    assert_eq!(rt; program.insn_at(0), Some(Insn::Exit));
    assert_eq!(rt; encode(rt.alloc(), &program)?.as_slice(), exit.as_slice());
    Ok(())
}
