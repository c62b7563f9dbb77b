use rule_notes::note_on_rule;
use rule_text::RuleError;
use std::test::Fail;

#[test]
fn rule_notes_example(rt: HostRuntime) -> Result<(), Fail> {
    let found = note_on_rule(rt.alloc(), b"send clok", RuleError::UnknownName, 1, 6)?;
    let note = found.ok_or("no note")?.text(rt.alloc()).ok_or("no text")?;
    assert!(rt;
        note.as_str()
            .contains("unknown name clok; did you mean clock?")
    );
    Ok(())
}
