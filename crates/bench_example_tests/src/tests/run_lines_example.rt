use run_lines::frame_line;
use scenario_text::scenario_in;
use std::test::Fail;

#[test]
fn run_lines_example(rt: HostRuntime) -> Result<(), Fail> {
    let text = b"nodes = 4\nfaults = 1\nmodulus = 8\nmemory = 8\npulses = 1\ncoins = \"ones\"\n";
    let scenario = scenario_in(rt.alloc(), text).map_err(|_| "no scenario")?;

    let line = frame_line(rt.alloc(), &scenario)?;
    assert!(rt; line.as_str().contains("\"nodes\":4"));
    Ok(())
}
