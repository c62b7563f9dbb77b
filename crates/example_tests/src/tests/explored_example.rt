use explored::Question;
use std::test::Fail;

#[test]
fn explored_example(rt: HostRuntime) -> Result<(), Fail> {
    let question = Question::Agreement;
    assert!(rt; question.asks_agreement());
    assert!(rt; !question.asks_stabilisation());
    Ok(())
}
