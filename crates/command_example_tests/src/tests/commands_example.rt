use bench_space::Silent;
use bench_workers::TrackedThreads;
use commands::perform::perform;
use requests::Request;
use std::test::Fail;
use stream_io::Tracked;

#[test]
fn commands_example(rt: HostRuntime) -> Result<(), Fail> {
    let (mut text, request): (&[u8], Request) = (b"exit", Request::Asm { list: false });
    let mut out = Tracked::of(Vec::new(rt.alloc()));
    let mut err = Tracked::of(Vec::new(rt.alloc()));
    let mut threads = TrackedThreads::of(&rt);
    let status = perform(
        &mut threads,
        rt.alloc(),
        &request,
        &mut text,
        &mut out,
        &mut err,
        &mut Silent,
    );
    assert_eq!(rt; (status, out.stream.len(), err.stream.len()), (0, 8, 0));
    Ok(())
}
