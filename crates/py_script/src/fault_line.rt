ghost use Rattle.std.specs.Prelude.{◌≡◌, ◌++◌, OnOk, OnErr};
ghost use Rattle.py_script.specs.Faults.{parse_mode_name, mode_name, fault_name, refused_line};

use py_flat::{IoFault, ModeError, ParseModeError};
use std::alloc::{AllocError, Global};

/// The name of what is wrong with the mode of an opening.
fn parse_mode_name(error: ParseModeError) -> &'static str
    ensures { result.now ≡ parse_mode_name error }
{
    match error {
        ParseModeError::InvalidMode => "InvalidMode",
        ParseModeError::MultipleFile => "MultipleFile",
        ParseModeError::MultipleEncode => "MultipleEncode",
        ParseModeError::NoFile => "NoFile",
    }
}

/// The name of what is wrong with the mode of a raw stream.
fn mode_name(error: ModeError) -> &'static str
    ensures { result.now ≡ mode_name error }
{
    match error {
        ModeError::Invalid => "Invalid",
        ModeError::BadRwa => "BadRwa",
    }
}

/// The name of a fault as the program prints it: its variant's, and for a mode the name of what is wrong with it (docs/PROGRAM.md).
pub fn fault_name(fault: IoFault) -> &'static str
    ensures { result.now ≡ fault_name fault }
{
    match fault {
        IoFault::Closed => "Closed",
        IoFault::Detached => "Detached",
        IoFault::Failed => "Failed",
        IoFault::Unsupported => "Unsupported",
        IoFault::BadWhence => "BadWhence",
        IoFault::NegativeSeek => "NegativeSeek",
        IoFault::TooFar => "TooFar",
        IoFault::BadArgument => "BadArgument",
        IoFault::RawFault => "RawFault",
        IoFault::WouldBlock { .. } => "WouldBlock",
        IoFault::NoMemory => "NoMemory",
        IoFault::UnicodeDecodeError { .. } => "UnicodeDecodeError",
        IoFault::UnicodeEncodeError { .. } => "UnicodeEncodeError",
        IoFault::SeekFirst => "SeekFirst",
        IoFault::InvalidCookie => "InvalidCookie",
        IoFault::CannotRestore => "CannotRestore",
        IoFault::UnknownEncoding => "UnknownEncoding",
        IoFault::UnknownHandler => "UnknownHandler",
        IoFault::ParseMode(error) => parse_mode_name(error),
        IoFault::BufferError => "BufferError",
        IoFault::BadRestart => "BadRestart",
        IoFault::EndOfFile => "EndOfFile",
        IoFault::ModeText(error) => mode_name(error),
        IoFault::IndexError { .. } => "IndexError",
    }
}

/// Adds the line of an opening that is refused, `refused`, the fault's name and an LF, at the end of some bytes. At
/// `Err`, when out of memory, the bytes are unchanged.
pub fn push_refused_line(alloc: Global, out: &mut Vec<u8>, fault: IoFault) -> Result<(), AllocError>
    ensures ok { OnOk result (out.new.items ≡ out.old.items ++ refused_line fault) }
    ensures err { OnErr result (out.new.items ≡ out.old.items) }
{
    let line = format!(in alloc; "refused {}\n", fault_name(fault))?;
    out.extend_from_slice(line.as_bytes())
}
