use super::*;
use std::fs;
use std::test::Fail;
use wv_base::{ReadFault, read_all, write_all};

#[test]
fn a_file_is_read(rt: HostRuntime) -> Result<(), Fail> {
    let alloc = rt.alloc();
    fs::write(&rt, "p.c", b"abc")?;
    let mut shelf = FileShelf::new(&rt, alloc);
    let bytes = read_all(alloc, &mut shelf, "p.c", 3)?;
    assert_eq!(rt; bytes.as_slice(), b"abc".as_slice());
    assert!(rt; read_all(alloc, &mut shelf, "p.c", 2) == Err(ReadFault::TooLong));
    assert!(rt; read_all(alloc, &mut shelf, "absent", 2) == Err(ReadFault::Fault));
    Ok(())
}

#[test]
fn standard_output_is_written(rt: HostRuntime) -> Result<(), Fail> {
    let mut out = OutSink::new(&rt);
    write_all(&mut out, b"written\n")?;
    Ok(())
}
