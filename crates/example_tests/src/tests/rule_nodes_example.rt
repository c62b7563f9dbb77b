use node_env::Shape;
use rule_nodes::compile_rule;
use rule_syntax::{Statement, Term};
use std::test::Fail;

#[test]
fn rule_nodes_example(rt: HostRuntime) -> Result<(), Fail> {
    let shape = Shape::of(4, 16).ok_or("no shape")?;
    let rule = Statement::SendAll(Term::Word(0));
    let program = compile_rule(rt.alloc(), &rule, shape, 1, 8).map_err(|_| "no program")?;
    assert_eq!(rt; program.slot_count(), 15);
    Ok(())
}
