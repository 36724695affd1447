ghost use Rattle.std.specs.Prelude.{◌≡◌, ◌||◌, nat_eq, IsOk, OnOk, IfErr};
ghost use Rattle.std.specs.Fs.{asks_read, asks_write, asks_append, asks_truncate, asks_create, asks_create_new};
ghost use Rattle.py_raw.specs.RawMode.{IsRawMode, file_letter, mode_reads, mode_writes, letter_w, letter_x, letter_a};
ghost use Rattle.py_raw_files.specs.FileOpener.{can_seek};

use crate::FileRaw;
use py_raw::{OpenError, Opener, file_letter, mode_reads, mode_writes};
use std::alloc::Global;
use std::fs::{Files, OpenFile, OpenOptions};
use std::io::{ErrorKind, Seek};
use std::{fmt, io};

/// Opens real files by their paths.
///
/// It tells nothing of what a path holds. A path that can't be opened is a fault, and so is a directory, which the
/// system would open to read. A file opened by `a` begins at its end or its start, as the system has it, and each write
/// of it goes after the end.
#[derive(Drop)]
pub struct FileOpener<'a, R: Files> {
    files: &'a R,
    faults: u64,
    raw_faults: u64,
    raw_waits: u64,
    opened: u64,
    taken_back: u64,
    /// What the system said of the last fault.
    last_error: Option<ErrorKind>,
    /// What the system said of the last fault of the file that was put away last.
    last_file_error: Option<ErrorKind>,
}

// Only what it counted and the last errors, since few handles of the system can be shown.
impl<'a, R: Files> fmt::Debug for FileOpener<'a, R> {
    fn fmt<W: fmt::Write>(&self, f: &mut fmt::Formatter<W>) -> fmt::Result {
        f.debug_struct("FileOpener")
            .field("faults", &self.faults)
            .field("raw_faults", &self.raw_faults)
            .field("raw_waits", &self.raw_waits)
            .field("last_error", &self.last_error)
            .field("last_file_error", &self.last_file_error)
            .finish_non_exhaustive()
    }
}

impl<'a, R: Files> FileOpener<'a, R> {
    ghost use Rattle.std.specs.Prelude.{true, false, None};
    ghost use Rattle.py_raw_files.specs.FileOpener.{shown_file_opener};

    /// An opener of the files that these give.
    pub fn new(files: &'a R) -> Self
        ensures { shown_file_opener result ≡ record { tells = false; holds = λ path. None; faults = 0; raw_faults = 0; raw_waits = 0; opened = 0; taken_back = 0; counts_exactly = true } }
    {
        FileOpener {
            files,
            faults: 0,
            raw_faults: 0,
            raw_waits: 0,
            opened: 0,
            taken_back: 0,
            last_error: None,
            last_file_error: None,
        }
    }

    /// What the system said of the last path that couldn't be opened: that it is missing, that there are no rights, that it is a
    /// directory, and so on. `None` before the first fault. It is for a person who has to act on it; nothing is claimed of it.
    pub fn last_error(&self) -> Option<ErrorKind> {
        self.last_error
    }

    /// What the system said of the last fault of the file that was put away last: that the disk is full, and so on. `None` where that had
    /// no fault, and where the system didn't see its last one. It is for a person who has to act on it; nothing is claimed of it.
    pub fn last_file_error(&self) -> Option<ErrorKind> {
        self.last_file_error
    }
}

/// How a raw mode opens a file.
fn options_for(mode: &str) -> OpenOptions
    requires { IsRawMode mode.now }
    ensures reads { asks_read result ≡ mode_reads mode.now }
    ensures writes { asks_write result || asks_append result ≡ mode_writes mode.now }
    ensures empties { asks_truncate result ≡ nat_eq (file_letter mode.now) letter_w }
    ensures appends { asks_append result ≡ nat_eq (file_letter mode.now) letter_a }
    ensures creates { asks_create result ≡ (nat_eq (file_letter mode.now) letter_w || nat_eq (file_letter mode.now) letter_a) }
    ensures creates_new { asks_create_new result ≡ nat_eq (file_letter mode.now) letter_x }
{
    let letter = file_letter(mode);
    let mut options = OpenOptions::new();
    options.read(mode_reads(mode));
    options.write(letter != b'a' && mode_writes(mode));
    options.append(letter == b'a');
    options.truncate(letter == b'w');
    options.create(letter == b'w' || letter == b'a');
    options.create_new(letter == b'x');
    options
}

/// Whether a file can seek, by what the system answers when it is asked where it stands: only the system's own word for "can't
/// seek" says that it can't, and any other error is one of the opening.
fn can_seek(answer: io::Result<u64>) -> io::Result<bool>
    ensures { result ≡ can_seek answer }
{
    match answer {
        Ok(_) => Ok(true),
        Err(error) if matches!(error.kind(), ErrorKind::NotSeekable) => Ok(false),
        Err(error) => Err(error),
    }
}

/// Opens a file, and asks whether it can seek. A directory is refused, since it opens for reading too.
fn open_file<R: Files>(files: &R, path: &str, mode: &str) -> io::Result<(R::File, bool)>
    requires { IsRawMode mode.now }
{
    let mut file = options_for(mode).open(files, path)?;
    if file.metadata()?.is_dir() {
        return Err(io::Error::from(ErrorKind::IsADirectory));
    }
    let seekable = can_seek(file.stream_position())?;
    Ok((file, seekable))
}

impl<R: Files> Opener for FileOpener<'_, R>
where
    R::File: Send,
{
    ghost use Rattle.std.specs.Prelude.{OnErr};
    ghost use Rattle.py_flat.specs.Causes.{counted};
    ghost use Rattle.py_raw.specs.Opener.{OpenKeeps, OpenOutcome, DoneKeeps, DoneOutcome, NoOpenerFault};
    ghost use Rattle.py_raw_files.specs.FileRaw.{shown};
    ghost use Rattle.py_raw_files.specs.FileOpener.{shown_file_opener};

    type Raw = FileRaw<R::File>;

    ghost shows = { shown_file_opener };

    /// Opens a file. Whether it can seek is asked of it, since a pipe can't.
    fn open_raw(
        &mut self,
        _alloc: Global,
        path: &str,
        mode: &str,
    ) -> Result<FileRaw<R::File>, OpenError>
        requires { IsRawMode mode.now }
        ensures keeps { OpenKeeps (shown_file_opener self.old) (shown_file_opener self.new) }
        ensures outcome { OpenOutcome shown (shown_file_opener self.old) path.now mode.now result (shown_file_opener self.new) }
        ensures exact { OnOk result (NoOpenerFault (shown_file_opener self.old) (shown_file_opener self.new)) }
        ensures counts { OnOk result (shown_file_opener self.new ≡ record (shown_file_opener self.old) { opened = counted (shown_file_opener self.old).opened 1 }) }
        ensures one_fault { OnErr result (shown_file_opener self.new ≡ record (shown_file_opener self.old) { faults = counted (shown_file_opener self.old).faults 1 }) }
        ensures fault { IfErr result (λ error. error ≡ OpenError.Fault) }
    {
        match open_file(self.files, path, mode) {
            Ok((file, seekable)) => {
                self.opened = self.opened.saturating_add(1);
                let readable = mode_reads(mode);
                let writable = mode_writes(mode);
                Ok(FileRaw::new(file, readable, writable, seekable))
            }
            Err(error) => {
                self.faults = self.faults.saturating_add(1);
                self.last_error = Some(error.kind());
                Err(OpenError::Fault)
            }
        }
    }

    /// Lets the file go, and adds the counts of its stream, which stop at 18446744073709551615. It always answers `Ok`:
    /// what the system finds wrong as it closes the file can't be seen.
    fn done(&mut self, _path: &str, raw: FileRaw<R::File>) -> Result<(), OpenError>
        ensures keeps { DoneKeeps (shown raw) (shown_file_opener self.old) (shown_file_opener self.new) }
        ensures outcome { DoneOutcome (shown raw) (shown_file_opener self.old) _path.now result (shown_file_opener self.new) }
        ensures exact { OnOk result (NoOpenerFault (shown_file_opener self.old) (shown_file_opener self.new)) }
        ensures faults { (shown_file_opener self.new).faults ≡ (shown_file_opener self.old).faults }
        ensures always { IsOk result }
    {
        self.last_file_error = raw.last_error();
        let counts = raw.counts();
        self.raw_faults = self.raw_faults.saturating_add(counts.faults);
        self.raw_waits = self.raw_waits.saturating_add(counts.waits);
        self.taken_back = self.taken_back.saturating_add(1);
        Ok(())
    }
}
