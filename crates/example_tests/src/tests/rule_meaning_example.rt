use rule_meaning::{operate_of, truth_of};
use rule_syntax::{Comparison, Operation, Operator};
use std::test::Fail;

#[test]
fn rule_meaning_example(rt: HostRuntime) -> Result<(), Fail> {
    assert!(rt; operate_of(Operator::Compute(Operation::Difference), 0, 1) == 4294967295);
    assert!(rt; truth_of(operate_of(Operator::Compare(Comparison::Less), 1, 2)));
    Ok(())
}
