use command_line::parse_args;
use requests::Request;
use std::test::Fail;

#[test]
fn command_line_example(rt: HostRuntime) -> Result<(), Fail> {
    let words = ["clockbed", "asm", "clock.s"];
    let invocation = parse_args(rt.alloc(), &words).map_err(|_| "no request")?;
    assert!(rt; matches!(invocation.request, Request::Asm { list: false }));
    assert_eq!(rt;
        invocation.file.as_ref().map(|file| file.as_str()),
        Some("clock.s")
    );
    Ok(())
}
