use bench_scenario::run_scenario;
use std::test::Fail;
use stream_io::Tracked;

#[test]
fn bench_scenario_example(rt: HostRuntime) -> Result<(), Fail> {
    let mut text: &[u8] =
        b"nodes = 1\nfaults = 0\nmodulus = 2\nmemory = 8\npulses = 1\ncoins = \"ones\"\n";
    let mut report = Tracked::of(Vec::new(rt.alloc()));
    assert!(rt; run_scenario(&rt, rt.alloc(), &mut text, &mut report, 1).is_ok());
    assert!(rt; report.stream.as_slice().ends_with(b"agreed 1 of 1\n"));
    Ok(())
}
