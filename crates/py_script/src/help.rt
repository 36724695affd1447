ghost use Rattle.std.specs.Prelude.{◌≡◌, ◌≤◌, IsTrue, length};
ghost use Rattle.py_script.specs.Help.{are_within, help_lines, help_text, version_text};

const HELP: &str = "\
Opens a file, makes the calls of a script on it, and prints each reply.
  run PATH MODE [OPTION ..]   takes the script from standard input
  --help, --version           prints this text, or the program's version

MODE is as in Python's open, of a text without b; but a+ and ab+ aren't opened.
Each OPTION is given at most once, in any order:
  buffering=I    buffer in bytes; 0: none, not of a text; 1, and I below 0: 8192
  encoding=NAME  utf-8 (default), latin-1, ascii, utf-16-le or utf-16-be
  errors=NAME    strict (default), ignore, replace, backslashreplace or
                 surrogateescape; of a text only written also xmlcharrefreplace
  newline=HEX    what ends a line, in hex of its UTF-8: 0a is LF (default: any
                 of CR LF, CR and LF, each read as LF); no HEX: empty text
  chunk=N        bytes that a text asks its buffer for at once (default 8192)

A script has a call a line, one space between words, and 1048576 bytes at most:
  read [N]           reads N bytes, of a text characters, or all that is left
  readline [N]       reads up to and with the end of a line, at most N of it
  readlines [N], read1 [N], peek, readinto N, readinto1 N     read as in Python
  write HEX, writelines [HEX ..], writetext HEX   writes bytes, lines, UTF-8
  seek I [WHENCE]    I from the start (0, or none), the place (1), the end (2)
  seektext HEX [WHENCE]: a text, by a cookie; truncate [N], chunksize [N], tell,
  flush, close, detach, readable, writable, seekable, closed, encoding, errors
  reconfigure [encoding=NAME] [errors=NAME] [newline=HEX] [line=B] [through=B]
                     gives a text these; newline=none: the default; B is 0 or 1
N and I are decimal, I also after a -; HEX has two digits a byte, - for none.
Lines that are empty or begin with # are skipped. A close is added at the end.

Each call is answered by a line:
  bytes HEX, text HEX, lines N HEX ..   what was read, of a text its UTF-8
  count N, place N, cookie HEX, true, false, ok   how many, where, yes, no, done
  notready          the file was not ready: make the call again
  detached HEX N    handed back: HEX may be unwritten, of place N (-: unknown)
  err NAME ..       refused: Closed, Detached, Failed before; RawFault: the file
                    failed; WouldBlock N: not ready past N bytes; others say why

The first status that applies ends the program:
  0  every reply was printed        5  the script could not be read
  2  the words are malformed        6  a line could not be printed
  3  the script is malformed        7  there was no memory left
  4  refused NAME was printed       8  the path could not be opened or put away
";

/// How the program is used, for one who has only the program: its words and options, the script, the replies and the
/// statuses, on one screen.
pub fn help_text() -> &'static str
    ensures value { result.now ≡ help_text }
    ensures lines { length help_lines ≤ 40 }
    ensures columns { IsTrue (are_within 80 help_lines) }
{
    HELP
}

/// The program's name and version, as a line.
pub fn version_text() -> &'static str
    ensures { result.now ≡ version_text }
{
    "py_io_cli 0.1.0\n"
}
