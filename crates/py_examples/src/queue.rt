//! Lines from a raw stream of one's own: the example of docs/OWN_RAW.md.
use py_buffered::BufferedReader;
use py_example_streams::gives;
use py_queue_raw::{Queue, QueueRaw};
use std::test::Fail;

#[test]
fn lines_are_read_from_a_queue(rt: HostRuntime) -> Result<(), Fail> {
    let alloc = rt.alloc();
    let queue = Queue::new(alloc);
    let Ok(reader) = BufferedReader::new(alloc, QueueRaw::new(&queue), 8192) else {
        return Err(Fail::from("refused"));
    };
    let mut reader = reader;
    assert!(rt; queue.put(b"one\ntw") == Ok(()));
    assert!(rt; gives(&reader.readline(alloc, None), b"one\n"));
    assert!(rt; gives(&reader.readline(alloc, None), b"tw")); // what came so far: `short` is true
    assert!(rt; reader.readline(alloc, None) == Ok(None)); // the queue is empty
    assert!(rt; queue.put(b"o\n") == Ok(()));
    queue.end();
    assert!(rt; gives(&reader.readline(alloc, None), b"o\n"));
    assert!(rt; gives(&reader.readline(alloc, None), b"")); // the end
    Ok(())
}
