use bounded_runs::ends_of;
use bpf_asm::assemble;
use bpf_verify::verify;
use node_env::Shape;
use std::test::Fail;

#[test]
fn bounded_runs_example(rt: HostRuntime) -> Result<(), Fail> {
    let shape = Shape::of(1, 8).ok_or("no shape")?;
    let text = b"mov64 r1, 0\ncall recv\nmov64 r0, 0\nexit";
    let program = assemble(rt.alloc(), text).map_err(|_| "no program")?;
    let accepted = verify(rt.alloc(), &program, shape).map_err(|_| "not accepted")?;
    let ends = ends_of(rt.alloc(), &accepted, 0, 1, &[false; 2])?;
    assert!(rt; ends.is_known());
    Ok(())
}
