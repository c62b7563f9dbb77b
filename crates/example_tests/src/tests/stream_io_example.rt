use std::test::Fail;
use stream_io::{Tracked, read_at_most, write_fully};

#[test]
fn stream_io_example(rt: HostRuntime) -> Result<(), Fail> {
    let mut reader: &[u8] = b"sixteen bytes it";
    let bytes = read_at_most(rt.alloc(), &mut reader, 7, 100).map_err(|_| "no bytes")?;
    assert_eq!(rt; bytes.as_slice(), b"sixteen".as_slice());
    let mut written = Tracked::of(Vec::new(rt.alloc()));
    assert_eq!(rt; write_fully(&mut written, &bytes), Ok(()));
    Ok(())
}
