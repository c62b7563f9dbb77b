use bench_workers::TrackedThreads;
use command_answers::Ending;
use requests::RunOptions;
use run_commands::run::run;
use scenario_text::scenario_in;
use std::test::Fail;
use stream_io::Tracked;

#[test]
fn run_commands_example(rt: HostRuntime) -> Result<(), Fail> {
    let text = b"nodes = 4\nfaults = 1\nmodulus = 8\nmemory = 8\npulses = 1\ncoins = \"ones\"\n";
    let scenario = scenario_in(rt.alloc(), text).map_err(|_| "no scenario")?;

    let options = RunOptions {
        workers: 1,
        check: true,
    };
    let mut threads = TrackedThreads::of(&rt);
    let mut report = Tracked::of(Vec::new(rt.alloc()));
    let ending = run(&mut threads, rt.alloc(), options, &scenario, &mut report).map_err(
        |_| "a fault",
    )?;
    assert_eq!(rt; ending, Ending::Done);
    Ok(())
}
