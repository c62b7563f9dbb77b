use node_env::Shape;
use requests::Case;
use std::test::Fail;

#[test]
fn requests_example(rt: HostRuntime) -> Result<(), Fail> {
    let shape = Shape::of(4, 8).ok_or("no shape")?;
    let mut case = Case::bare(rt.alloc());
    case.contents.push(3)?;
    let memory = case.memory(rt.alloc(), shape)?;
    assert_eq!(rt; memory.as_slice(), [3, 0, 0, 0, 0, 0, 0, 0].as_slice());
    Ok(())
}
