use crate::sum::Sum;
use py_buffered::{BufferedRandom, Whence};
use py_raw::{IoFault, RawStream};
use std::alloc::Global;

/// How many bytes are read at once.
pub(crate) const PIECE: usize = 64;

/// What `Update` writes, and as many bytes it reads.
const RECORD: &[u8] = b"8 bytes.";

/// What is timed: steps, each of which goes somewhere by a seek and reads there.
#[derive(Clone, Copy, Debug, PartialEq, Eq)]
pub(crate) enum Task {
    /// To a place anywhere, and 64 bytes are read.
    Anywhere,
    /// 32 bytes back, and 64 bytes are read, and so forward through the file.
    Back,
    /// As `Back`, into the same space each time.
    BackInto,
    /// To a place anywhere, where 8 bytes are read, and 8 bytes written after them.
    Update,
}

impl Task {
    pub(crate) fn from_word(word: &str) -> Option<Self> {
        match word {
            "anywhere" => Some(Task::Anywhere),
            "back" => Some(Task::Back),
            "back-into" => Some(Task::BackInto),
            "update" => Some(Task::Update),
            _ => None,
        }
    }

    /// From where the offsets of its seeks count.
    fn whence(self) -> Whence {
        match self {
            Task::Anywhere | Task::Update => Whence::Start,
            Task::Back | Task::BackInto => Whence::Current,
        }
    }

    /// Makes a step for each offset, and takes what is read into the sum, where there is one.
    pub(crate) fn run<R: RawStream>(
        self,
        alloc: Global,
        stream: &mut BufferedRandom<R>,
        offsets: &[i64],
        sum: &mut Option<Sum>,
    ) -> Result<(), IoFault> {
        let mut space = [0; PIECE];
        for offset in offsets {
            stream.seek(*offset, self.whence().into())?;
            match self {
                Task::Anywhere | Task::Back => read(alloc, stream, PIECE, sum)?,
                Task::BackInto => read_into(stream, &mut space, sum)?,
                Task::Update => {
                    read(alloc, stream, RECORD.len(), sum)?;
                    stream.write(RECORD)?;
                }
            }
        }
        stream.close()
    }
}

/// Takes bytes into a sum, where there is one.
fn add_to(sum: &mut Option<Sum>, bytes: &[u8]) {
    if let Some(sum) = sum {
        sum.add(bytes);
    }
}

/// Reads some bytes, and takes them into the sum, where there is one.
fn read<R: RawStream>(
    alloc: Global,
    stream: &mut BufferedRandom<R>,
    size: usize,
    sum: &mut Option<Sum>,
) -> Result<(), IoFault> {
    if let Some(piece) = stream.read(alloc, Some(size))? {
        add_to(sum, &piece);
    }
    Ok(())
}

/// Reads a piece into a space, and takes it into the sum, where there is one.
fn read_into<R: RawStream>(
    stream: &mut BufferedRandom<R>,
    space: &mut [u8],
    sum: &mut Option<Sum>,
) -> Result<(), IoFault> {
    if let Some(count) = stream.readinto(space)? {
        add_to(sum, &space[..count]);
    }
    Ok(())
}
