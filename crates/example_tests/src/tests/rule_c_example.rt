use rule_c::rule_in_c;
use rule_syntax::Sizes;
use rule_text::{read_rule, statement_lines};
use std::test::Fail;

#[test]
fn rule_c_example(rt: HostRuntime) -> Result<(), Fail> {
    let text = b"send clock";
    let rule = read_rule(rt.alloc(), text).map_err(|_| "no rule")?;
    let lines = statement_lines(rt.alloc(), text)?;
    let sizes = Sizes {
        nodes: 4,
        faults: 1,
        modulus: 8,
        memory: 16,
    };
    let page = rule_in_c(rt.alloc(), text, &lines, &rule.statement, sizes)?;
    assert!(rt; page.as_str().contains("send"));
    Ok(())
}
