//! Openers: what each raw mode makes of a real file.
ghost use Rattle.std.specs.Prelude.{◌≡◌, true, false};

use crate::failing_files::FailingFiles;
use crate::paths::temporary;
use py_raw::{OpenError, Opener, RawError, RawStream, is_raw_mode};
use py_raw_files::FileOpener;
use std::alloc::Global;
use std::fs::{Files, OpenOptions};
use std::io::{ErrorKind, Read, Write, pipe};
use std::os::fd::AsRawFd;
use std::process::Abort;
use std::{env, fs};

/// A mode, and what a path that holds nothing and one that holds `old` hold once a letter was written by it: after the
/// end by `a`, at the start by the others, and not at all where it can't be written. `None` is a fault of the opener.
/// From Python's documentation of `open`.
const EACH_MODE: [(&str, Option<&[u8]>, Option<&[u8]>); 8] = [
    ("rb", None, Some(b"old")),
    ("rb+", None, Some(b"Nld")),
    ("wb", Some(b"N"), Some(b"N")),
    ("wb+", Some(b"N"), Some(b"N")),
    ("xb", Some(b"N"), None),
    ("xb+", Some(b"N"), None),
    ("ab", Some(b"N"), Some(b"oldN")),
    ("ab+", Some(b"N"), Some(b"oldN")),
];

/// Writes a letter to an open stream: after the end or at the start.
fn write_letter<R: RawStream>(rt: &impl Abort, raw: &mut R, behind: bool)
    requires open { (R.shows raw.old).closed ≡ false }
    requires writes { (R.shows raw.old).writable ≡ true }
    requires seeks { (R.shows raw.old).seekable ≡ true }
{
    let end = raw.end().expect(rt, "an end");
    let place = if behind { end } else { 0 };
    assert!(rt; place < 100);
    assert!(rt; raw.seek(place) == Ok(()));
    assert!(rt; raw.write(b"N") == Ok(Some(1)));
}

/// Opens a path by a mode, writes a letter where it can be written, and puts it away. Whether it opened: else the opener
/// failed.
fn opens<O: Opener>(
    rt: &impl Abort,
    alloc: Global,
    opener: &mut O,
    path: &str,
    mode: &str,
) -> bool {
    assert!(rt; is_raw_mode(mode));
    match opener.open_raw(alloc, path, mode) {
        Ok(mut raw) => {
            assert!(rt; raw.readable() == (mode.contains('r') || mode.contains('+')));
            assert!(rt; raw.seekable());
            if raw.writable() {
                write_letter(rt, &mut raw, mode.contains('a'));
            }
            assert!(rt; opener.done(path, raw) == Ok(()));
            true
        }
        Err(error) => {
            assert!(rt; error == OpenError::Fault);
            false
        }
    }
}

/// A path holds this, or nothing.
fn assert_holds(rt: &(impl Abort + Files + Alloc), path: &str, want: Option<&[u8]>, mode: &str) {
    match fs::read(rt, path) {
        Ok(bytes) => assert!(rt; Some(bytes.as_slice()) == want, "at {mode}"),
        Err(_) => assert!(rt; want.is_none(), "at {mode}"),
    }
}

/// Opens a path by a mode, or doesn't where it mustn't, and compares what the path holds then.
fn assert_leaves<O: Opener>(
    rt: &(impl Abort + Files + Alloc),
    alloc: Global,
    opener: &mut O,
    path: &str,
    mode: &str,
    (may_open, holds): (bool, Option<&[u8]>),
) {
    let opened = opens(rt, alloc, opener, path, mode);
    assert!(rt; opened == may_open, "at {mode}");
    assert_holds(rt, path, holds, mode);
}

/// What each mode does to a path that holds nothing, to one that holds `old`, and to a folder.
fn assert_opens<O: Opener>(
    rt: &(impl Abort + Files + Alloc),
    alloc: Global,
    opener: &mut O,
    path: &str,
    folder: &str,
) {
    for (mode, missing, existing) in EACH_MODE {
        let made = (missing.is_some(), missing);
        assert_leaves(rt, alloc, opener, path, mode, made);
        fs::write(rt, path, "old").expect(rt, "a file to write");
        let changed = (existing.is_some(), existing.or(Some(b"old")));
        assert_leaves(rt, alloc, opener, path, mode, changed);
        fs::remove_file(rt, path).expect(rt, "a file to remove");
        assert!(rt; !opens(rt, alloc, opener, folder, mode), "at {mode}");
    }
}

#[test]
fn each_mode_opens_a_real_file_as_it_should(rt: HostRuntime) {
    let folder = env::temp_dir(&rt).expect(&rt, "a folder");
    let path = temporary(&rt, "opener").expect(&rt, "a path");
    let mut opener = FileOpener::new(&rt);
    assert_opens(&rt, rt.alloc(), &mut opener, path.as_str(), folder.as_str());
}

/// Opens a path to be read, and compares what the opener says of it: nothing where it opens, as something that can't seek, and else
/// what the system said.
fn assert_says<R: Files>(
    rt: &impl Abort,
    alloc: Global,
    opener: &mut FileOpener<'_, R>,
    path: &str,
    says: Option<ErrorKind>,
)
where
    R::File: Send,
{
    match opener.open_raw(alloc, path, "rb") {
        Ok(raw) => assert!(rt; says.is_none() && !raw.seekable(), "of {path}"),
        Err(error) => assert!(rt; says.is_some() && error == OpenError::Fault, "of {path}"),
    }
    assert!(rt; opener.last_error() == says, "of {path}");
}

#[test]
fn the_last_error_is_what_the_system_said_of_a_path(rt: HostRuntime) {
    let alloc = rt.alloc();
    let folder = env::temp_dir(&rt).expect(&rt, "a folder");
    let mut opener = FileOpener::new(&rt);
    assert!(rt; opener.last_error() == None);
    let directory = Some(ErrorKind::IsADirectory);
    assert_says(&rt, alloc, &mut opener, folder.as_str(), directory);
    let missing = "py_adapter_tests, missing";
    assert_says(&rt, alloc, &mut opener, missing, Some(ErrorKind::NotFound));
}

/// Files of the system's own that nobody may write, not even an administrator: which of them are there depends on the system.
const SYSTEM_FILES: [&str; 3] = [
    "/sys/devices/system/cpu/possible",
    "/sys/kernel/uevent_seqnum",
    "/sys/kernel/fscaps",
];

/// A file that may only be read: this one, or where no rights bind this process, as an administrator's, one of the system's own.
fn only_read<'a>(rt: &impl Files, made: &'a str) -> &'a str {
    if OpenOptions::new().append(true).open(rt, made).is_err() {
        return made;
    }
    for path in SYSTEM_FILES {
        if fs::metadata(rt, path).is_ok() {
            return path;
        }
    }
    made
}

/// Makes a file that may only be read.
fn make_only_read(rt: &(impl Abort + Files), path: &str) {
    fs::write(rt, path, "old").expect(rt, "a file to write");
    let metadata = fs::metadata(rt, path).expect(rt, "a file");
    let mut rights = metadata.permissions();
    rights.set_readonly(true);
    fs::set_permissions(rt, path, rights).expect(rt, "a file whose rights can be changed");
}

/// Only `rb` opens a file that may only be read, and no mode changes it.
fn assert_rb_alone_opens<O: Opener>(
    rt: &(impl Abort + Files + Alloc),
    alloc: Global,
    opener: &mut O,
    path: &str,
    mode: &str,
) {
    let held = fs::read(rt, path).expect(rt, "a file to read");
    let opened = opens(rt, alloc, opener, path, mode);
    assert!(rt; opened == (mode == "rb"), "at {mode}");
    assert_holds(rt, path, Some(held.as_slice()), mode);
}

#[test]
fn a_file_that_may_only_be_read_opens_to_be_read_alone(rt: HostRuntime) {
    let made = temporary(&rt, "only_read").expect(&rt, "a path");
    make_only_read(&rt, made.as_str());
    let path = only_read(&rt, made.as_str());
    let mut opener = FileOpener::new(&rt);
    for (mode, _, _) in EACH_MODE {
        assert_rb_alone_opens(&rt, rt.alloc(), &mut opener, path, mode);
    }
    fs::remove_file(&rt, made.as_path()).expect(&rt, "a file to remove");
}

/// Whether a byte that is written to a pipe comes to a stream over it.
fn takes_a_byte<R: RawStream, W: Write>(raw: &mut R, writer: &mut W) -> bool
    requires { (R.shows raw.old).closed ≡ false }
    ensures { (R.shows raw.new).closed ≡ false }
{
    let mut buf = [0; 4];
    writer.write(b"r").ok() == Some(1) && raw.readinto(&mut buf) == Ok(Some(1)) && buf[0] == b'r'
}

/// Whether each call fails that moves a stream or asks where it stands.
fn can_t_be_moved<R: RawStream>(raw: &mut R) -> bool
    requires { (R.shows raw.old).closed ≡ false }
{
    let fault = RawError::Fault;
    raw.seek(0) == Err(fault) && raw.tell() == Err(fault) && raw.end() == Err(fault)
}

/// What a pipe opened by a mode does: it can't be moved, and what it can by the mode is a byte through the pipe. Whether it opened.
fn passes_a_byte<O: Opener, R: Read, W: Write>(
    rt: &impl Abort,
    alloc: Global,
    opener: &mut O,
    ends: (&mut R, &mut W),
    path: &str,
    mode: &str,
) -> bool {
    assert!(rt; is_raw_mode(mode));
    let Ok(mut raw) = opener.open_raw(alloc, path, mode) else {
        return false;
    };
    let (reader, writer) = ends;
    assert!(rt; !raw.seekable());
    if raw.writable() {
        let mut buf = [0; 4];
        assert!(rt; raw.write(b"w").ok() == Some(Some(1)));
        assert!(rt; reader.read(&mut buf).ok() == Some(1));
        assert!(rt; buf[0] == b'w');
    }
    assert!(rt; !raw.readable() || takes_a_byte(&mut raw, writer));
    assert!(rt; can_t_be_moved(&mut raw));
    assert!(rt; opener.done(path, raw) == Ok(()));
    true
}

/// A pipe by its path, opened by each mode.
fn assert_each_passes<O: Opener>(
    rt: &impl Abort,
    alloc: Global,
    opener: &mut O,
    ends: (&mut impl Read, &mut impl Write),
    path: &str,
) {
    let (reader, writer) = ends;
    for (mode, _, _) in EACH_MODE {
        let opened = passes_a_byte(rt, alloc, opener, (&mut *reader, &mut *writer), path, mode);
        assert!(rt; opened == !mode.contains('x'), "at {mode}");
    }
}

#[test]
fn each_mode_opens_a_pipe_but_those_that_make_a_file(rt: HostRuntime) {
    let alloc = rt.alloc();
    let (mut reader, mut writer) = pipe(&rt).expect(&rt, "a pipe");
    let path = format!(in alloc; "/proc/self/fd/{}", reader.as_raw_fd()).expect(&rt, "memory");
    let mut opener = FileOpener::new(&rt);
    let ends = (&mut reader, &mut writer);
    assert_each_passes(&rt, alloc, &mut opener, ends, path.as_str());
}

/// How a system's files fail to seek, and what an opener of them says then.
const SEEKS_FAIL: [(ErrorKind, Option<ErrorKind>); 5] = [
    (ErrorKind::NotSeekable, None),
    (ErrorKind::InvalidInput, Some(ErrorKind::InvalidInput)),
    (
        ErrorKind::PermissionDenied,
        Some(ErrorKind::PermissionDenied),
    ),
    (ErrorKind::Unsupported, Some(ErrorKind::Unsupported)),
    (ErrorKind::Other, Some(ErrorKind::Other)),
];

/// Opens a device of each system whose files fail to seek in one way.
fn assert_each_says<R: Files>(rt: &impl Abort, files: &R, alloc: Global)
where
    R::File: Send,
{
    for (why, says) in SEEKS_FAIL {
        let failing = FailingFiles { files, why };
        let mut opener = FileOpener::new(&failing);
        assert_says(rt, alloc, &mut opener, "/dev/null", says);
    }
}

#[test]
fn only_one_error_says_that_a_file_can_t_seek(rt: HostRuntime) {
    assert_each_says(&rt, &rt, rt.alloc());
}
