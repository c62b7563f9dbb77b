use program_commands::asm::asm;
use std::test::Fail;

#[test]
fn program_commands_example(rt: HostRuntime) -> Result<(), Fail> {
    let response = asm(rt.alloc(), false, b"exit").map_err(|_| "a fault")?;
    assert_eq!(rt;
        response.text.as_slice(),
        [0x95, 0, 0, 0, 0, 0, 0, 0].as_slice()
    );
    Ok(())
}
