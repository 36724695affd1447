ghost use Rattle.std.specs.Prelude.{◌≡◌};
ghost use Rattle.py_program.specs.Status.{code_of};

/// How the program ended.
#[derive(Clone, Copy, Debug, PartialEq, Eq)]
pub enum Status {
    /// 0: the script was read to its end and every reply printed.
    Done,
    /// 2: the words are malformed.
    WordsMalformed,
    /// 3: a line of the script is malformed, or it has more than 1,048,576 bytes.
    ScriptMalformed,
    /// 4: the opening was refused, and the refusal printed.
    Refused,
    /// 5: the script couldn't be read.
    SourceFailed,
    /// 6: a line couldn't be printed.
    SinkFailed,
    /// 7: there was no memory left.
    NoMemory,
    /// 8: the path couldn't be opened, or put away again.
    OpenerFailed,
}

impl Status {
    /// The number that the program ends with.
    pub fn code(self) -> u8
        ensures { result ≡ code_of self }
    {
        match self {
            Status::Done => 0,
            Status::WordsMalformed => 2,
            Status::ScriptMalformed => 3,
            Status::Refused => 4,
            Status::SourceFailed => 5,
            Status::SinkFailed => 6,
            Status::NoMemory => 7,
            Status::OpenerFailed => 8,
        }
    }
}
