use claim_tokens::{Kind, Reader, Sign};
use std::test::Fail;

#[test]
fn claim_tokens_example(rt: HostRuntime) -> Result<(), Fail> {
    let mut reader = Reader::new(b"step any -> any");
    assert!(rt; reader.take_word("step"));
    assert!(rt; reader.next().kind == Kind::Name);
    assert!(rt; reader.is_at(Sign::Arrow));
    Ok(())
}
