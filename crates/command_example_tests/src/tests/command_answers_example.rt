use command_answers::{Ending, Input, program_input, write_whole};
use std::test::Fail;
use stream_io::Tracked;

#[test]
fn command_answers_example(rt: HostRuntime) -> Result<(), Fail> {
    assert_eq!(rt; program_input(true), Input::Text);
    let mut written = Tracked::of(Vec::new(rt.alloc()));
    let ending = write_whole(&mut written, b"accepted", Ending::Done).map_err(|_| "a fault")?;
    assert_eq!(rt; (ending.status(), written.stream.len()), (0, 8));
    Ok(())
}
