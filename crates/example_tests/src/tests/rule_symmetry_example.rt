use rule_symmetry::{is_symmetric_rule, order};
use rule_syntax::{Statement, Term};
use std::test::Fail;

#[test]
fn rule_symmetry_example(rt: HostRuntime) -> Result<(), Fail> {
    assert!(rt; is_symmetric_rule(&Statement::SendAll(Term::Word(0))));
    assert!(rt; !is_symmetric_rule(&Statement::SendAll(Term::Me)));
    let mut numbers = [5, 1, 3];
    order(&mut numbers, &[0, 1, 0]);
    assert_eq!(rt; numbers, [3, 1, 5]);
    Ok(())
}
