use bpf_asm::assemble;
use bpf_run::run;
use bpf_verify::verify;
use node_env::{Env, Mail, Outbox, Shape};
use std::test::Fail;

#[test]
fn bpf_run_example(rt: HostRuntime) -> Result<(), Fail> {
    let shape = Shape::of(4, 8).ok_or("no shape")?;
    let program = assemble(rt.alloc(), b"call coin\nexit").map_err(|_| "no program")?;
    let accepted = verify(rt.alloc(), &program, shape).map_err(|_| "not accepted")?;
    let env = Env::with_mail(rt.alloc(), shape, 0, &Mail::new(rt.alloc(), shape)?, 1)?;
    let mut outbox = Outbox::new(rt.alloc(), shape)?;
    let ended = run(&accepted, &env, &mut [0; 8], &mut outbox);
    assert_eq!(rt; (ended.r0, ended.steps), (1, 2));
    Ok(())
}
