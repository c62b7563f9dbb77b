use certified_steps::{Plan, Proof, step_holds};
use linear_certificates::read_certificate;
use rule_syntax::{Statement, Term};
use std::test::Fail;
use step_searches::{Coins, Condition, Quantity, Step, Total};

#[test]
fn certified_steps_example(rt: HostRuntime) -> Result<(), Fail> {
    let rule = Statement::SendAll(Term::Word(0));
    let sent = Total::Plus(Quantity::FirstSent, Box::new(rt.alloc(), Total::Zero)?);
    let clock = Total::Plus(Quantity::FirstWord(0), Box::new(rt.alloc(), Total::Zero)?);
    let (before, after) = (Condition::Anything, Condition::AtMost(sent, clock));
    let step = Step {
        words: 1,
        names: 0,
        coins: Coins::Any,
        before,
        after,
    };
    let certificate = read_certificate(rt.alloc(), &mut "sum 1 0 1".split_whitespace())?;
    let proof = Proof {
        uses: Vec::new(rt.alloc()),
        plan: Plan::Refute(certificate),
    };
    assert_eq!(rt; step_holds(rt.alloc(), &rule, &step, &proof), Ok(true));
    Ok(())
}
