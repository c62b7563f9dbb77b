use node_env::Shape;
use rule_programs::program_with_lines;
use std::test::Fail;

#[test]
fn rule_programs_example(rt: HostRuntime) -> Result<(), Fail> {
    let shape = Shape::of(1, 8).ok_or("no shape")?;
    let text = b"clock = 3\nsend clock";
    let made = program_with_lines(rt.alloc(), text, shape, 0, 8)?.map_err(|_| "no rule")?;
    assert_eq!(rt; made.program.slot_count(), 7);
    assert_eq!(rt; made.lines.as_slice(), [1, 2, 2, 2].as_slice());
    Ok(())
}
