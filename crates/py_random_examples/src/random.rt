//! A buffered stream that is read and written: the example of docs/BUFFERED.md.
use py_example_streams::{gives, random_over};
use py_raw_memory::MemRaw;
use std::test::Fail;

#[test]
fn a_record_is_changed_in_its_middle(rt: HostRuntime) -> Result<(), Fail> {
    let alloc = rt.alloc();
    // three records of eight bytes
    let mut stream = random_over(alloc, b"ann:03;\nbob:07;\ncyd:12;\n", &[], &[], 8192)?;
    assert!(rt; gives(&stream.read(alloc, Some(8)), b"ann:03;\n"));
    assert!(rt; gives(&stream.read(alloc, Some(8)), b"bob:07;\n"));
    // two bytes in the middle of the second record
    assert!(rt; stream.seek(12, 0) == Ok(12));
    assert!(rt; stream.write(b"08") == Ok(2));
    // on to the third, and back: the change is read
    assert!(rt; stream.seek(16, 0) == Ok(16));
    assert!(rt; gives(&stream.read(alloc, Some(8)), b"cyd:12;\n"));
    assert!(rt; stream.seek(8, 0) == Ok(8));
    assert!(rt; gives(&stream.read(alloc, Some(8)), b"bob:08;\n"));
    // the raw has it after a flush
    assert!(rt; stream.raw().map(MemRaw::bytes_of) == Some(&b"ann:03;\nbob:07;\ncyd:12;\n"[..]));
    assert!(rt; stream.flush() == Ok(()));
    assert!(rt; stream.raw().map(MemRaw::bytes_of) == Some(&b"ann:03;\nbob:08;\ncyd:12;\n"[..]));
    Ok(())
}
