use std::{env, io};

/// What the words of a command line ask for: `<task> <path> <rounds>`.
#[derive(Debug, Drop)]
pub struct FileTask<T> {
    /// What is timed.
    pub task: T,
    /// The file that it is done on.
    pub path: String,
    /// How often it is done.
    pub rounds: u32,
}

impl<T: Drop> FileTask<T> {
    /// The words of the program's own command line, the first of them by `from_word`; nothing where they are fewer or more, or
    /// aren't words of it.
    pub fn from_command_line<F: FnOnce(&str) -> Option<T>>(
        rt: &HostRuntime,
        from_word: F,
    ) -> io::Result<Option<Self>>
        requires { F.IsAlwaysCallable from_word }
    {
        let mut words = env::args(rt)?.skip(1);
        let (Some(task), Some(path), Some(rounds), None) = (
            words.next(),
            words.next(),
            words.next(),
            words.next(),
        ) else {
            return Ok(None);
        };
        match (from_word(task.as_str()), rounds.parse()) {
            (Some(task), Ok(rounds)) => Ok(Some(FileTask { task, path, rounds })),
            _ => Ok(None),
        }
    }
}
