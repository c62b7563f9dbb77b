use bpf_asm::{assemble, disassemble};
use std::test::Fail;

#[test]
fn bpf_asm_example(rt: HostRuntime) -> Result<(), Fail> {
    let program = assemble(rt.alloc(), b"ja end\nend: exit").map_err(|_| "no program")?;
    assert_eq!(rt; program.slot_count(), 2);
    assert_eq!(rt;
        disassemble(rt.alloc(), &program)?.as_str(),
        "ja +0\nexit\n"
    );
    Ok(())
}
