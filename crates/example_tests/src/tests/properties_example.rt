use properties::{Answer, Form, PropertyVerdict, PulseVerdict, answer_of};
use std::test::Fail;

#[test]
fn properties_example(rt: HostRuntime) -> Result<(), Fail> {
    let verdicts = [PulseVerdict {
        pulse: 2,
        verdict: PropertyVerdict::Holds,
    }];
    assert!(rt; answer_of(Form::Always, &verdicts) == Answer::Holds { judged: 1 });
    Ok(())
}
