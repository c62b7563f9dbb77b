use bench_workers::TrackedThreads;
use claimed_runs::{ClaimedRun, ClaimsForm, write_claims};
use scenario_text::scenario_in;
use std::test::Fail;
use stream_io::Tracked;

#[test]
fn claimed_runs_example(rt: HostRuntime) -> Result<(), Fail> {
    let text = b"nodes = 4\nfaults = 1\nmodulus = 8\nmemory = 8\npulses = 1\ncoins = \"ones\"\n";
    let scenario = scenario_in(rt.alloc(), text).map_err(|_| "no scenario")?;

    let asked = ClaimedRun {
        scenario: &scenario,
        properties: &[],
        form: ClaimsForm::Text,
        workers: 1,
    };
    let mut threads = TrackedThreads::of(&rt);
    let mut out = Tracked::of(Vec::new(rt.alloc()));
    let says = write_claims(&mut threads, rt.alloc(), &asked, &mut out).map_err(|_| "a fault")?;
    assert!(rt; says.holds);
    assert!(rt; out.stream.as_slice().ends_with(b"pulse 1 claims\n"));
    Ok(())
}
