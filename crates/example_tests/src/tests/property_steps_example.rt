use properties::PairTerm;
use property_steps::step_of_property;
use rule_syntax::Term;
use std::test::Fail;
use step_searches::Condition;

#[test]
fn property_steps_example(rt: HostRuntime) -> Result<(), Fail> {
    let term = PairTerm::of(Term::Local(2)).ok_or("no term of two nodes")?;
    let step = step_of_property(rt.alloc(), 1, Condition::Anything, &term)?;
    assert!(rt; step.is_some());
    Ok(())
}
