use node_env::{Env, Mail, NO_MAIL, Outbox, Shape};
use std::test::Fail;

#[test]
fn node_env_example(rt: HostRuntime) -> Result<(), Fail> {
    let shape = Shape::of(4, 16).ok_or("no shape")?;
    let mut outbox = Outbox::new(rt.alloc(), shape)?;
    outbox.send(2, 7);
    let mut mail = Mail::new(rt.alloc(), shape)?;
    mail.fill(0, &outbox);
    let env = Env::with_mail(rt.alloc(), shape, 2, &mail, 1)?;
    assert_eq!(rt; (env.recv(0), env.recv(1)), (7, NO_MAIL));
    Ok(())
}
