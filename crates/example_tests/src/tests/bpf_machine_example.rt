use bpf_asm::assemble;
use bpf_machine::{Outcome, run_checked};
use node_env::{Env, Mail, Outbox, Shape};
use std::test::Fail;

#[test]
fn bpf_machine_example(rt: HostRuntime) -> Result<(), Fail> {
    let program = assemble(rt.alloc(), b"mov64 r0, 7\nexit\n").map_err(|_| "no program")?;
    let shape = Shape::of(4, 8).ok_or("no shape")?;
    let mail = Mail::new(rt.alloc(), shape)?;
    let env = Env::with_mail(rt.alloc(), shape, 0, &mail, 1)?;
    let mut outbox = Outbox::new(rt.alloc(), shape)?;
    let outcome = run_checked(&program, &env, &mut [0; 8], &mut outbox, 100);
    assert_eq!(rt; outcome, Outcome::Ended { r0: 7, steps: 2 });
    Ok(())
}
