use scenario_notes::note_on;
use scenario_text::parse_scenario;
use std::test::Fail;

#[test]
fn scenario_notes_example(rt: HostRuntime) -> Result<(), Fail> {
    let text = b"nodes = 4\nfalts = 1\n";
    let rejected = parse_scenario(rt.alloc(), text).err().ok_or("a scenario")?;
    let note = note_on(rt.alloc(), text, &rejected)?.ok_or("no note")?;
    let words = note.text(rt.alloc()).ok_or("no text")?;
    assert!(rt; words.as_str().contains("did you mean faults?"));
    Ok(())
}
