//! A table of comma separated values, read from a stream and written to another by the crate `csv`.
use crate::waits::read_all;
use anyhow::{Result, anyhow};
use csv::{ByteRecord, Error, ErrorKind, ReaderBuilder, Writer, WriterBuilder};
use py_adapters::StdStream;
use py_buffered::{BufferedReader, BufferedWriter};
use py_memio::BytesIO;
use py_raw::RawFlags;
use py_raw_memory::{Cut, MemRaw};
use std::alloc::{AllocError, Global};
use std::io;
use std::io::{Read, Write};

/// A table, of which one field has a comma.
const TABLE: &[u8] = b"name,count\nann,3\n\"smith, jo\",12\n";

/// A raw stream moves one byte at each of so many transfers.
const ONE_BYTE: [Cut; 40] = [Cut::Take(1); 40];

/// All records that a reader gives.
fn records<R: Read + Drop>(alloc: Global, reader: R) -> Result<Vec<ByteRecord>, Error> {
    let table = ReaderBuilder::new()
        .has_headers(false)
        .from_reader(alloc, reader);
    let mut rows = Vec::new(alloc);
    for row in table.into_byte_records() {
        if rows.push(row?).is_err() {
            return Err(Error::out_of_memory());
        }
    }
    Ok(rows)
}

/// Writes the records to a table.
fn put_records<W: Write + Drop>(rows: &[ByteRecord], table: &mut Writer<W>) -> Result<(), Error> {
    for row in rows {
        for field in 0..row.len() {
            if let Some(bytes) = row.get(field) {
                table.write_field(bytes)?;
            }
        }
        table.end_record()?;
    }
    Ok(())
}

/// Writes the records to a writer, which is handed back.
fn write_records<W: Write + Drop>(rows: &[ByteRecord], writer: W) -> Result<W, Error> {
    let mut table = WriterBuilder::new().from_writer(writer);
    put_records(rows, &mut table)?;
    match table.into_inner() {
        Ok(writer) => Ok(writer),
        Err(error) => Err(error.into_error()),
    }
}

/// A stream of the table, over a raw that moves one byte at a time.
fn table_reader(alloc: Global) -> Result<StdStream<BufferedReader<MemRaw>>> {
    let flags = RawFlags::able(true, false, false); // it can be read
    let (bytes, plan) = (TABLE.to_vec(alloc)?, ONE_BYTE.to_vec(alloc)?);
    let raw = MemRaw::new(bytes, flags, plan, Vec::new(alloc));
    Ok(StdStream::new(BufferedReader::new(alloc, raw, 8)?))
}

/// A stream to a raw that moves one byte at a time.
fn table_writer(alloc: Global) -> Result<StdStream<BufferedWriter<MemRaw>>> {
    let flags = RawFlags::able(false, true, false); // it can be written
    let raw = MemRaw::new(
        Vec::new(alloc),
        flags,
        ONE_BYTE.to_vec(alloc)?,
        Vec::new(alloc),
    );
    Ok(StdStream::new(BufferedWriter::new(alloc, raw, 8)?))
}

/// A table is read from one stream, and written to another.
pub(crate) fn copied(alloc: Global) -> Result<String> {
    match records(alloc, table_reader(alloc)?) {
        Ok(rows) => written(alloc, &rows),
        Err(error) => Err(anyhow!("{error}")),
    }
}

/// What the records are, written to a stream.
fn written(alloc: Global, rows: &[ByteRecord]) -> Result<String> {
    match write_records(rows, table_writer(alloc)?) {
        Ok(stream) => shown(alloc, rows.len(), stream.into_inner()),
        Err(error) => Err(anyhow!("{error}")),
    }
}

/// Copies all that a reader has left to a writer, which passes it on.
fn copy_all<R: Read, W: Write>(reader: &mut R, writer: &mut W) -> io::Result<u64> {
    let count = io::copy(reader, writer)?;
    writer.flush()?;
    Ok(count)
}

/// The table is copied by std from one stream to the other.
pub(crate) fn moved(alloc: Global) -> Result<String> {
    let mut reader = table_reader(alloc)?;
    let mut writer = table_writer(alloc)?;
    let count = copy_all(&mut reader, &mut writer);
    shown_copy(alloc, count, is_table(writer.stream().raw()))
}

/// A raw moves one byte of the table at a time, and would have blocked so many times after each.
fn waiting_plan(alloc: Global, waits: usize) -> Result<Vec<Cut>, AllocError> {
    let mut plan = Vec::new(alloc);
    for _ in TABLE {
        plan.push(Cut::Take(1))?;
        for _ in 0..waits {
            plan.push(Cut::Wait)?;
        }
    }
    Ok(plan)
}

/// A stream of the table, over a raw that would have blocked after each byte.
fn waiting_reader(alloc: Global) -> Result<StdStream<BufferedReader<MemRaw>>> {
    let flags = RawFlags::able(true, false, false); // it can be read
    let (bytes, plan) = (TABLE.to_vec(alloc)?, waiting_plan(alloc, 1)?);
    let raw = MemRaw::new(bytes, flags, plan, Vec::new(alloc));
    Ok(StdStream::new(BufferedReader::new(alloc, raw, 8)?))
}

/// A table is read over waits: all of it first, and then its records.
pub(crate) fn over_waits(alloc: Global) -> Result<String> {
    let mut stream = waiting_reader(alloc)?;
    let mut all = Vec::new(alloc);
    let waits = read_all(&mut stream, &mut all);
    let rows = records(alloc, StdStream::new(BytesIO::new(alloc, all)));
    shown_records(alloc, waits, rows)
}

/// How many calls had to be made again, and whether the records are those of the table.
fn shown_records(
    alloc: Global,
    waits: io::Result<u64>,
    rows: Result<Vec<ByteRecord>, Error>,
) -> Result<String> {
    let waits = waits?;
    let same = match rows {
        Ok(rows) => are_records(&rows),
        Err(_) => false,
    };
    Ok(format!(in alloc; "table over waits: {waits} calls more, its records: {same}")?)
}

/// Whether some records are those of the table.
fn are_records(rows: &[ByteRecord]) -> bool {
    match rows {
        [names, ann, jo] => {
            is_record(names, b"name", b"count")
                && is_record(ann, b"ann", b"3")
                && is_record(jo, b"smith, jo", b"12")
        }
        _ => false,
    }
}

/// Whether a record has these two fields.
fn is_record(row: &ByteRecord, name: &[u8], count: &[u8]) -> bool {
    row.len() == 2 && row.get(0) == Some(name) && row.get(1) == Some(count)
}

/// A stream to a raw that moves one byte at a time, and would have blocked twice after each.
fn waiting_writer(alloc: Global) -> Result<StdStream<BufferedWriter<MemRaw>>> {
    let flags = RawFlags::able(false, true, false); // it can be written
    let raw = MemRaw::new(
        Vec::new(alloc),
        flags,
        waiting_plan(alloc, 2)?,
        Vec::new(alloc),
    );
    Ok(StdStream::new(BufferedWriter::new(alloc, raw, 8)?))
}

/// Whether a table failed as the raw would have blocked.
fn is_wait(error: &Error) -> bool {
    match error.kind() {
        ErrorKind::Io(error) => error.kind() == io::ErrorKind::WouldBlock,
        _ => false,
    }
}

/// Passes on all that was written to a table, again after each wait; answers how many waits there were.
fn flush_table<W: Write + Drop>(table: &mut Writer<W>) -> Result<u64, Error> {
    for waits in 0..u64::MAX {
        match table.flush() {
            Err(error) if is_wait(&error) => {} // what wasn't taken is kept
            Err(error) => return Err(error),
            Ok(()) => return Ok(waits),
        }
    }
    Ok(u64::MAX)
}

/// Writes the records to a writer over waits, and hands it back; answers how many waits there were.
fn write_over_waits<W: Write + Drop>(rows: &[ByteRecord], writer: W) -> Result<(u64, W), Error> {
    let mut table = WriterBuilder::new().from_writer(writer);
    put_records(rows, &mut table)?;
    let waits = flush_table(&mut table)?;
    match table.into_inner() {
        Ok(writer) => Ok((waits, writer)), // nothing was left to wait for
        Err(error) => Err(error.into_error()),
    }
}

/// What the records are, written over waits.
fn flushed(alloc: Global, rows: &[ByteRecord]) -> Result<String> {
    match write_over_waits(rows, waiting_writer(alloc)?) {
        Ok((waits, stream)) => shown_written(alloc, waits, is_table(stream.stream().raw())),
        Err(error) => Err(anyhow!("{error}")),
    }
}

/// A table is written over waits: its records, and then a flush, again after each wait.
pub(crate) fn written_over_waits(alloc: Global) -> Result<String> {
    match records(alloc, table_reader(alloc)?) {
        Ok(rows) => flushed(alloc, &rows),
        Err(error) => Err(anyhow!("{error}")),
    }
}

/// How many flushes had to be made again, and whether what the writer's raw has then is the table.
fn shown_written(alloc: Global, waits: u64, same: bool) -> Result<String> {
    Ok(format!(in alloc; "table written over waits: {waits} calls more, the same bytes: {same}")?)
}

/// Whether what a raw has is the table.
fn is_table(raw: Option<&MemRaw>) -> bool {
    match raw {
        Some(raw) => raw.bytes_of() == TABLE,
        None => false,
    }
}

/// How many bytes were copied, and whether what the writer's raw has then is the table.
fn shown_copy(alloc: Global, count: io::Result<u64>, same: bool) -> Result<String> {
    let count = count?;
    Ok(format!(in alloc; "copied: {count} bytes, the same bytes: {same}")?)
}

/// How many records there are, and whether what a writer's raw has then is the table.
fn shown(alloc: Global, count: usize, mut writer: BufferedWriter<MemRaw>) -> Result<String> {
    let closed = writer.close().is_ok();
    let same = is_table(writer.raw());
    Ok(format!(in alloc; "table: {count} records, closed: {closed}, the same bytes: {same}")?)
}
