use bpf_insn::{AluOp, Width};
use std::test::Fail;
use value_range::{Range, alu, meet};

#[test]
fn value_range_example(rt: HostRuntime) -> Result<(), Fail> {
    let few = Range::of(1, 4).ok_or("no range")?;
    let sum = alu(AluOp::Add, Width::W64, few, Range::single(10));
    assert_eq!(rt; (sum.lo(), sum.hi()), (11, 14));
    assert!(rt; meet(few, sum).is_none());
    Ok(())
}
