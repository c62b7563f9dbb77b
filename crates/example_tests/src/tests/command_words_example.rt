use command_words::{command_names, options};
use std::test::Fail;

#[test]
fn command_words_example(rt: HostRuntime) -> Result<(), Fail> {
    let names = command_names(rt.alloc())?;
    assert!(rt; names.as_slice().contains(&"explore"));
    assert_eq!(rt; (options::NODES.name, options::NODES.most), ("nodes", 64));
    Ok(())
}
