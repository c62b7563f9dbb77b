use json_values::{line_of, number_or_null};
use std::test::Fail;

#[test]
fn json_values_example(rt: HostRuntime) -> Result<(), Fail> {
    let line = line_of(rt.alloc(), &number_or_null(Some(3)))?;
    assert_eq!(rt; line.as_str(), "3\n");
    Ok(())
}
