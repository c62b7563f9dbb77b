use node_env::Shape;
use rule_listing::list_rule;
use rule_programs::program_with_lines;
use std::test::Fail;

#[test]
fn rule_listing_example(rt: HostRuntime) -> Result<(), Fail> {
    let shape = Shape::of(1, 8).ok_or("no shape")?;
    let made = program_with_lines(rt.alloc(), b"# none", shape, 0, 8)?.map_err(|_| "no rule")?;
    let listing = list_rule(rt.alloc(), b"# none", &made.lines, &made.program)?;
    assert!(rt;
        listing
            .as_slice()
            .starts_with(b"slot 0 bf16000000000000 mov64 r6, r1\n")
    );
    Ok(())
}
