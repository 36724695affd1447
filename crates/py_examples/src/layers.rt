//! A layer above buffered streams, which knows of them what `BufferedStream` says, and no more: the example of docs/BUFFERED.md.
use py_example_streams::{holds, random_over, reader_of, writer_to};
use py_memio::BytesIO;
use py_raw::IoFault;
use py_stream::BufferedStream;
use std::test::Fail;

/// Writes a mark behind the last byte of a stream, and answers where it begins, and where the stream ends then.
fn mark_end<B: BufferedStream>(stream: &mut B, mark: &[u8]) -> Result<(u64, u64), IoFault> {
    let place = stream.seek(0, 2)?;
    stream.write(mark)?;
    let end = stream.end()?;
    Ok((place, end))
}

#[test]
fn a_layer_above_takes_a_stream_that_is_read_and_written(rt: HostRuntime) -> Result<(), Fail> {
    let mut random = random_over(rt.alloc(), b"abc", &[], &[], 8)?;
    assert!(rt; mark_end(&mut random, b"!!") == Ok((3, 5)));
    assert!(rt; random.taken() == 2);
    // the mark is owed so far
    assert!(rt; random.raw().is_some_and(|raw| holds(raw, b"abc")));
    Ok(())
}

#[test]
fn a_layer_above_takes_a_writer_and_a_stream_in_memory(rt: HostRuntime) -> Result<(), Fail> {
    let alloc = rt.alloc();
    let mut writer = writer_to(alloc, b"abc", &[], &[], 8)?;
    assert!(rt; mark_end(&mut writer, b"!!") == Ok((3, 5)));
    let bytes = b"abc".to_vec(alloc).expect(&rt, "room");
    assert!(rt; mark_end(&mut BytesIO::new(alloc, bytes), b"!!") == Ok((3, 5)));
    Ok(())
}

#[test]
fn a_layer_above_writes_nothing_to_a_reader(rt: HostRuntime) -> Result<(), Fail> {
    let mut reader = reader_of(rt.alloc(), b"abc", &[], &[], 8)?;
    assert!(rt; mark_end(&mut reader, b"!!") == Err(IoFault::Unsupported));
    assert!(rt; BufferedStream::taken(&reader) == 0);
    assert!(rt; BufferedStream::end(&mut reader) == Ok(3));
    Ok(())
}
