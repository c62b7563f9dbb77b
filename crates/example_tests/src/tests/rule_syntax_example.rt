use rule_syntax::{Statement, Target, Term};
use std::test::Fail;

#[test]
fn rule_syntax_example(rt: HostRuntime) -> Result<(), Fail> {
    let send = Statement::SendAll(Term::Word(0));
    assert!(rt; matches!(&send, Statement::SendAll(Term::Word(0))));
    assert!(rt; Target::ToWord(0) != Target::ToLocal(0));
    Ok(())
}
