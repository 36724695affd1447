//! A store of records that are changed in place, over a raw that fails in the middle: the example of docs/FAULTS.md.
use crate::random_mending::broken;
use py_buffered::{BufferedRandom, Whence};
use py_example_streams::{gives, random_over, written_back};
use py_raw::{IoFault, RawStream};
use py_raw_memory::{Cut, MemRaw};
use std::alloc::Global;
use std::test::Fail;

/// The size of a record, in bytes: three letters, a colon, a count of three digits, and an LF.
const SIZE: usize = 8;

/// The records that the store begins with.
const RECORDS: &[u8] = b"ann:000\nbob:000\ncyd:000\ndan:000\neve:000\n";

/// Which records are counted up, in this order.
const COUNTED: [i64; 8] = [1, 4, 1, 0, 3, 1, 4, 2];

/// The records once all are counted.
const COUNTED_UP: &[u8] = b"ann:001\nbob:003\ncyd:001\ndan:001\neve:002\n";

/// A record whose count is one more.
fn counted_up(mut record: Vec<u8>) -> Vec<u8> {
    if let Some(digit) = record.get_mut(6) {
        *digit = digit.saturating_add(1);
    }
    record
}

/// Reads the record of a number, and writes it in its place with its count one more; answers whether the raw was ready.
fn count_up<R: RawStream>(
    alloc: Global,
    stream: &mut BufferedRandom<R>,
    number: i64,
) -> Result<bool, IoFault> {
    let place = number.saturating_mul(SIZE as i64);
    stream.seek(place, Whence::Start.into())?;
    let Some(record) = stream.read(alloc, Some(SIZE))? else {
        return Ok(false);
    };
    stream.seek(place, Whence::Start.into())?;
    stream.write(&counted_up(record))?;
    Ok(true)
}

/// A stream over the raw that a failed one hands back, with all that it owed written where it belongs.
fn mended(
    alloc: Global,
    mut failed: BufferedRandom<MemRaw>,
) -> Result<BufferedRandom<MemRaw>, Fail> {
    let buffer_size = failed.buffer_size();
    written_back(alloc, failed.detach()?, buffer_size)
}

/// All records.
fn all_records<R: RawStream>(
    alloc: Global,
    stream: &mut BufferedRandom<R>,
) -> Result<Option<Vec<u8>>, IoFault> {
    stream.seek(0, Whence::Start.into())?;
    stream.read(alloc, None)
}

/// Counts records up, one after another, over a raw that follows a plan, and of whose calls those with these numbers fail; gives all
/// records as they are read then.
fn all_counted(
    alloc: Global,
    plan: &[Cut],
    faults: &[u64],
    buffer_size: usize,
) -> Result<Option<Vec<u8>>, Fail> {
    let mut stream = random_over(alloc, RECORDS, plan, faults, buffer_size)?;
    for number in COUNTED {
        if count_up(alloc, &mut stream, number) == Err(IoFault::RawFault) {
            // what was counted before is mended, and this record is counted once more: none of its bytes was taken
            stream = mended(alloc, stream)?;
            count_up(alloc, &mut stream, number)?;
        }
    }
    match all_records(alloc, &mut stream) {
        Err(IoFault::RawFault) => {
            stream = mended(alloc, stream)?;
            Ok(all_records(alloc, &mut stream)?)
        }
        records => Ok(records?),
    }
}

/// The sizes of buffers: of one record, of some more bytes, of two records, and of all.
const BUFFER_SIZES: [usize; 4] = [8, 11, 16, 40];

#[test]
fn no_record_is_lost_where_the_raw_fails(rt: HostRuntime) -> Result<(), Fail> {
    for buffer_size in BUFFER_SIZES {
        for fault in 1..40 {
            let records = all_counted(rt.alloc(), &[], &[fault], buffer_size)?;
            assert!(rt; gives(&Ok(records), COUNTED_UP));
        }
    }
    Ok(())
}

#[test]
fn no_record_is_lost_where_a_transfer_breaks_off(rt: HostRuntime) -> Result<(), Fail> {
    for buffer_size in BUFFER_SIZES {
        for count in 0..180 {
            let plan = broken(rt.alloc(), count)?;
            let records = all_counted(rt.alloc(), &plan, &[], buffer_size)?;
            assert!(rt; gives(&Ok(records), COUNTED_UP));
        }
    }
    Ok(())
}
