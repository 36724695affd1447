//! Reading the script to its end.
ghost use Rattle.std.specs.Prelude.{◌≡◌, ◌≢◌, ◌≤◌, Err};
ghost use Rattle.py_raw.specs.Source.{SourceKeeps, NoSourceFault};
ghost use Rattle.py_program.specs.Outside.{ScriptOutcome, ReadOutcome};

use crate::status::Status;
use py_open::Call;
use py_raw::Source;
use py_script::parse_script;
use std::alloc::Global;

/// The most bytes that a script may have: a longer one is malformed.
const MAX_SCRIPT_SIZE: usize = 1_048_576;

/// How many bytes are read from a source at once.
const PIECE_SIZE: usize = 4096;

/// The calls of a script that is read to its end: `ScriptMalformed` as soon as it has more than 1,048,576 bytes or where a line
/// is malformed, `SourceFailed` where the source fails, `NoMemory` where there is none.
pub fn read_script<I: Source>(alloc: Global, source: &mut I) -> Result<Vec<Call>, Status>
    ensures keeps { SourceKeeps (I.shows source.old) (I.shows source.new) }
    ensures outcome { ScriptOutcome (I.shows source.old) result (I.shows source.new) }
    ensures exact { result ≢ Err Status.SourceFailed → NoSourceFault (I.shows source.old) (I.shows source.new) }
{
    let bytes = read_bytes(alloc, source)?;
    match parse_script(alloc, &bytes) {
        Ok(Some(calls)) => Ok(calls),
        Ok(None) => Err(Status::ScriptMalformed),
        Err(_) => Err(Status::NoMemory),
    }
}

/// All bytes of a script, which may be 1,048,576 at most.
fn read_bytes<I: Source>(alloc: Global, source: &mut I) -> Result<Vec<u8>, Status>
    ensures keeps { SourceKeeps (I.shows source.old) (I.shows source.new) }
    ensures outcome { ReadOutcome (I.shows source.old) result (I.shows source.new) }
    ensures exact { result ≢ Err Status.SourceFailed → NoSourceFault (I.shows source.old) (I.shows source.new) }
{
    let mut bytes = Vec::new(alloc);
    let mut piece = [0u8; PIECE_SIZE];
    loop {
        match source.read(&mut piece) {
            Ok(0) => return Ok(bytes),
            Ok(count) => {
                if bytes.extend_from_slice(&piece[..count]).is_err() {
                    return Err(Status::NoMemory);
                }
                if bytes.len() > MAX_SCRIPT_SIZE {
                    return Err(Status::ScriptMalformed);
                }
            }
            Err(_) => return Err(Status::SourceFailed),
        }
    }
}
