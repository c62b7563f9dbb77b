use rule_text::{ReadRuleError, RuleError, read_rule};
use std::test::Fail;

#[test]
fn rule_text_example(rt: HostRuntime) -> Result<(), Fail> {
    let rule = read_rule(rt.alloc(), b"state mark\nsend clock + mark").map_err(|_| "no rule")?;
    assert_eq!(rt; rule.words, 2);
    let wrong = read_rule(rt.alloc(), b"send clok").err();
    let (error, line, column) = (RuleError::UnknownName, 1, 6);
    assert_eq!(rt;
        wrong,
        Some(ReadRuleError::At {
            error,
            line,
            column
        })
    );
    Ok(())
}
