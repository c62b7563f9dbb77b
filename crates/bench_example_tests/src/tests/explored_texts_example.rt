use explored_texts::state_words;
use scenario_text::scenario_in;
use std::test::Fail;

#[test]
fn explored_texts_example(rt: HostRuntime) -> Result<(), Fail> {
    let text = b"nodes = 4\nfaults = 1\nmodulus = 8\nmemory = 8\npulses = 1\ncoins = \"ones\"\n";
    let scenario = scenario_in(rt.alloc(), text).map_err(|_| "no scenario")?;

    let words = state_words(rt.alloc(), &scenario)?;
    assert!(rt; words.is_empty());
    Ok(())
}
