use bpf_asm::assemble;
use bpf_explain::reason;
use bpf_verify::explain;
use node_env::Shape;
use std::test::Fail;

#[test]
fn bpf_explain_example(rt: HostRuntime) -> Result<(), Fail> {
    let shape = Shape::of(4, 16).ok_or("no shape")?;
    let program = assemble(rt.alloc(), b"call 5\nexit").map_err(|_| "no program")?;
    let findings = explain(rt.alloc(), &program, shape)?;
    let line = reason(rt.alloc(), &program, shape, &findings)?;
    assert_eq!(rt;
        line.as_str(),
        "rule 3, UnknownHelper: there is no helper 5\n"
    );
    Ok(())
}
