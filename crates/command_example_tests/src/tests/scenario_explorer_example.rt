use bench_space::Silent;
use exploration::{Finding, Unfit};
use explored::{ExploreOptions, Form, Question, Starts};
use scenario_explorer::finding_on;
use scenario_text::scenario_in;
use std::test::Fail;

#[test]
fn scenario_explorer_example(rt: HostRuntime) -> Result<(), Fail> {
    let text = b"nodes = 4\nfaults = 1\nmodulus = 8\nmemory = 8\npulses = 1\ncoins = \"ones\"\n";
    let scenario = scenario_in(rt.alloc(), text).map_err(|_| "no scenario")?;

    let options = ExploreOptions {
        question: Question::Agreement,
        mail: None,
        start: Starts::Zero,
        states: 100,
        depth: 100,
        memory: 1,
        odds: None,
        reach: None,
        form: Form::Text,
    };

    let finding = finding_on(&rt, rt.alloc(), &options, &scenario, &mut Silent)?;
    assert!(rt; matches!(finding, Finding::Unfit(Unfit::Unloaded)));
    Ok(())
}
