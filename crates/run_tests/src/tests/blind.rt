//! Which accepted programs are known to be blind. No contract says that any is.
use super::alike::{MEMORY, NODES};
use bpf_insn::decode;
use bpf_verify::verify;
use node_env::Shape;
use std::alloc::Global;
use std::test::Fail;

/// Images of programs that never read their node's number.
const BLIND: [&str; 5] = [
    // mov64 r0, 7; exit
    "b7000000070000009500000000000000",
    // mov64 r2, 1; mov64 r0, r2; exit
    "b702000001000000bf200000000000009500000000000000",
    // ldxb r0, [r1+0]; jeq r0, 0, +2; mov64 r2, 5; ja +1; mov64 r2, 6; mov64 r0, r2; exit
    "71100000000000001500020000000000b7020000050000000500010000000000b702000006000000bf200000000000009500000000000000",
    // call coin; mov64 r2, r0; mov64 r0, r2; exit
    "8500000004000000bf02000000000000bf200000000000009500000000000000",
    // mov64 r1, 0; mov64 r2, 7; call send; exit
    "b701000000000000b70200000700000085000000030000009500000000000000",
];

/// Images of programs that may read it.
const SEEING: [&str; 5] = [
    // mov64 r0, 0; ja +0; mov64 r0, r2; exit
    "b7000000000000000500000000000000bf200000000000009500000000000000",
    // ldxb r0, [r1+0]; jeq r0, 0, +1; mov64 r2, 5; mov64 r0, r2; exit
    "71100000000000001500010000000000b702000005000000bf200000000000009500000000000000",
    // mov64 r6, r2; call coin; mov64 r0, r6; exit
    "bf260000000000008500000004000000bf600000000000009500000000000000",
    // call id; exit
    "85000000010000009500000000000000",
    // mov64 r1, 0; call send; exit
    "b70100000000000085000000030000009500000000000000",
];

fn is_blind(alloc: Global, image: &str) -> Result<bool, Fail> {
    let shape = Shape::of(NODES, MEMORY).ok_or("no shape")?;
    let bytes = hex::decode(alloc, image)?;
    let program = decode(alloc, &bytes).map_err(|_| "no program")?;
    let verified = verify(alloc, &program, shape).map_err(|_| "not accepted")?;
    Ok(verified.is_blind())
}

#[test]
fn programs_that_never_read_their_number(rt: HostRuntime) -> Result<(), Fail> {
    for image in BLIND {
        assert!(rt; is_blind(rt.alloc(), image)?, "at {image}");
    }
    for image in SEEING {
        assert!(rt; !is_blind(rt.alloc(), image)?, "at {image}");
    }
    Ok(())
}
