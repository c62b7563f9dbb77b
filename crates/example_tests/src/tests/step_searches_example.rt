use rule_syntax::{Statement, Term};
use std::test::Fail;
use step_searches::{Uncovered, always_sends, cover_rule};

#[test]
fn step_searches_example(rt: HostRuntime) -> Result<(), Fail> {
    let rule = Statement::SendAll(Term::Word(0));
    assert!(rt; always_sends(&rule));
    assert_eq!(rt; cover_rule(&rule, 1), Ok(()));
    let to_one = Statement::SendTo(Term::Word(0), Term::Me);
    assert_eq!(rt; cover_rule(&to_one, 1), Err(Uncovered::Receiver));
    Ok(())
}
