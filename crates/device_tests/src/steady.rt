// The shelf and the sink in memory that never fail.
use std::alloc::Global;
use std::test::Fail;
use wv_base::{OutOfMemory, ReadFault, Shelf, Sink, SteadyShelf, SteadySink, read_all, write_all};

// Without a clause, so that the proof of a test that calls it has none of what `read_all` says to carry.
fn reads<S: Shelf>(
    alloc: Global,
    shelf: &mut S,
    name: &str,
    limit: u8,
    wanted: Result<&[u8], ReadFault>,
) -> bool {
    match read_all(alloc, shelf, name, usize::from(limit)) {
        Ok(bytes) => wanted == Ok(bytes.as_slice()),
        Err(fault) => wanted == Err(fault),
    }
}

fn steady_shelf(alloc: Global) -> Result<SteadyShelf, OutOfMemory> {
    let mut shelf = SteadyShelf::new(alloc, 2);
    shelf.put("p", b"hello")?;
    Ok(shelf)
}

// Where the writing of all bytes stopped, if it did.
fn stopped<O: Sink>(sink: &mut O, bytes: &[u8]) -> Option<usize> {
    match write_all(sink, bytes) {
        Ok(()) => None,
        Err(fault) => Some(fault.written),
    }
}

#[test]
fn they_have_a_file_of_each_name_and_take_all_bytes(rt: HostRuntime) -> Result<(), Fail> {
    let alloc = rt.alloc();
    let mut shelf = steady_shelf(alloc)?;
    assert!(rt; reads(alloc, &mut shelf, "p", 5, Ok(b"hello".as_slice())));
    assert!(rt; reads(alloc, &mut shelf, "q", 5, Ok(b"".as_slice())));
    let mut sink = SteadySink::new(alloc, 8)?;
    assert_eq!(rt; stopped(&mut sink, b"hello"), None);
    assert_eq!(rt; sink.bytes(), b"hello".as_slice());
    Ok(())
}
