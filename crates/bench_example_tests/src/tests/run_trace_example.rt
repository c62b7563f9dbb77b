use bpf_asm::assemble;
use node_env::{Env, Mail, Outbox, Shape};
use run_trace::trace;
use std::test::Fail;
use stream_io::Tracked;

#[test]
fn run_trace_example(rt: HostRuntime) -> Result<(), Fail> {
    let program = assemble(rt.alloc(), b"mov64 r0, 7\nexit").map_err(|_| "no program")?;
    let shape = Shape::of(4, 8).ok_or("no shape")?;
    let env = Env::with_mail(rt.alloc(), shape, 0, &Mail::new(rt.alloc(), shape)?, 1)?;
    let mut outbox = Outbox::new(rt.alloc(), shape)?;
    let (mut lines, mut memory) = (Tracked::of(Vec::new(rt.alloc())), [0; 8]);
    let traced = trace(
        rt.alloc(),
        &program,
        &env,
        &mut memory,
        &mut outbox,
        9,
        &mut lines,
    );
    let told = lines.stream.as_slice();
    assert!(rt; traced.is_ok() && told.starts_with(b"step 1 slot 0 mov64 r0, 7 #"));
    Ok(())
}
