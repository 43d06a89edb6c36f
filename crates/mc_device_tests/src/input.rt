use mc_devices::ReaderSource;
use mc_wire::Source;
use std::test::Fail;

#[test]
fn reads_what_the_reader_gives(rt: HostRuntime) -> Result<(), Fail> {
    let mut source = ReaderSource::new(b"abc".as_slice());
    let mut buf = [0u8; 2];
    assert_eq!(rt; source.read(&mut buf), Ok(2));
    assert_eq!(rt; buf, *b"ab");
    assert_eq!(rt; source.read(&mut buf), Ok(1));
    assert_eq!(rt; buf, *b"cb");
    assert_eq!(rt; source.read(&mut buf), Ok(0));
    Ok(())
}
