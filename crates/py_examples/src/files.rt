//! Buffered streams over a real file, and a text over one.
use py_buffered::{BufferedReader, BufferedWriter};
use py_codec::{Encoding, Handler};
use py_example_streams::gives;
use py_raw::{IoFault, Opener};
use py_raw_files::{FileOpener, FileRaw};
use py_text::{Coder, TextSettings};
use py_textio::TextIOWrapper;
use std::alloc::Global;
use std::path::PathBuf;
use std::test::Fail;
use std::{env, fs, process};

/// A path among the temporary files, of this run alone.
fn own_path(rt: &HostRuntime, name: &str) -> Result<PathBuf, Fail> {
    let file = format!(in rt.alloc(); "py_examples-{name}-{}", process::id(rt.process()))?;
    Ok(env::temp_dir(rt)?.join(rt.alloc(), file.as_str())?)
}

/// What a file's first line comes to.
fn first_line_of(
    rt: &HostRuntime,
    alloc: Global,
    path: &str,
) -> Result<Result<Option<Vec<u8>>, IoFault>, Fail> {
    let mut opener = FileOpener::new(&rt);
    let raw = opener.open_raw(alloc, path, "rb")?;
    let mut reader = BufferedReader::new(alloc, raw, 8192)?; // refused: the fault, and the raw with nothing read
    let line = reader.readline(alloc, None); // none where it isn't ready; an empty one at the end
    Ok(line)
}

#[test]
fn a_line_of_a_file_is_read(rt: HostRuntime) -> Result<(), Fail> {
    let path = own_path(&rt, "read")?;
    fs::write(&rt, path.as_path(), "one line\nmore").expect(&rt, "a file");
    let line = first_line_of(&rt, rt.alloc(), path.as_str())?;
    assert!(rt; gives(&line, b"one line\n"));
    fs::remove_file(&rt, path.as_path()).expect(&rt, "a file");
    Ok(())
}

/// What writing a line to a file comes to, and passing it on.
fn line_to(
    rt: &HostRuntime,
    alloc: Global,
    path: &str,
) -> Result<(Result<usize, IoFault>, Result<(), IoFault>), Fail> {
    let mut opener = FileOpener::new(&rt);
    let raw = opener.open_raw(alloc, path, "wb")?;
    let mut writer = BufferedWriter::new(alloc, raw, 8192)?; // refused: the fault, and the raw with nothing written
    Ok((writer.write(b"one line\n"), writer.flush()))
}

#[test]
fn a_line_is_written_to_a_file(rt: HostRuntime) -> Result<(), Fail> {
    let path = own_path(&rt, "written")?;
    assert!(rt; line_to(&rt, rt.alloc(), path.as_str())? == (Ok(9), Ok(())));
    let held = fs::read(&rt, path.as_path()).expect(&rt, "the file has it");
    assert!(rt; held.as_slice() == b"one line\n".as_slice());
    fs::remove_file(&rt, path.as_path()).expect(&rt, "a file");
    Ok(())
}

/// UTF-8, in which no bad byte is passed.
const STRICT: Coder = Coder {
    encoding: Encoding::Utf8,
    errors: Handler::Strict,
};

/// Writes lines to a text, and closes it.
fn write_lines(
    alloc: Global,
    text: &mut TextIOWrapper<BufferedWriter<FileRaw>>,
    lines: &[&str],
) -> Result<(), IoFault> {
    for line in lines {
        text.write(alloc, line)?; // each with its "\n"
    }
    text.close() // the file has all of them now; a text that is dropped loses what it owes
}

/// Opens a path to write a text, and writes lines to it.
fn lines_to(rt: &HostRuntime, alloc: Global, path: &str, lines: &[&str]) -> Result<(), Fail> {
    let mut opener = FileOpener::new(&rt);
    let raw = opener.open_raw(alloc, path, "wb")?;
    let buffer = BufferedWriter::new(alloc, raw, 8192)?;
    let mut text = TextIOWrapper::new(alloc, buffer, STRICT, TextSettings::default())?;
    Ok(write_lines(alloc, &mut text, lines)?)
}

#[test]
fn lines_of_a_text_are_written_to_a_file(rt: HostRuntime) -> Result<(), Fail> {
    let path = own_path(&rt, "lines")?;
    lines_to(&rt, rt.alloc(), path.as_str(), &["caf\u{E9}\n", "two\n"])?;
    let held = fs::read(&rt, path.as_path()).expect(&rt, "the file has them");
    assert!(rt; held.as_slice() == b"caf\xC3\xA9\ntwo\n".as_slice());
    fs::remove_file(&rt, path.as_path()).expect(&rt, "a file");
    Ok(())
}
