//! What a text needs to be opened over a buffer.
ghost use Rattle.std.specs.Prelude.{◌≡◌, true, false};
ghost use Rattle.py_plain.specs.Handlers.{reads_texts};
ghost use Rattle.py_read_text.specs.Opening.{opening_refusal, CountsPlace};

use py_flat::{IoFault, Life};
use py_held_text::Coder;
use py_plain::Handler;
use py_stream::BufferedStream;
use py_text::{TextSettings, is_of_stream};

/// What refuses a text over a buffer, if anything does.
pub fn refusal<B: BufferedStream>(
    buffer: &B,
    coder: Coder,
    settings: TextSettings,
) -> Option<IoFault>
    ensures { result ≡ opening_refusal (B.shows buffer.now) coder settings }
{
    match buffer.life() {
        Life::Failed => Some(IoFault::Failed),
        Life::Closed => Some(IoFault::Closed),
        Life::Detached => Some(IoFault::Detached),
        Life::Live => {
            if settings.chunk_size == 0 {
                Some(IoFault::BadArgument)
            } else if buffer.exported() {
                Some(IoFault::BufferError)
            } else if !is_of_stream(buffer.readable(), buffer.writable(), coder.errors) {
                Some(IoFault::UnknownHandler)
            } else {
                None
            }
        }
    }
}

/// Where a live buffer stands: it can be asked where it can seek, and stands at 0 where it can't.
pub fn place_of<B: BufferedStream>(buffer: &mut B) -> u64
    requires live { (B.shows buffer.old).life ≡ Life.Live }
    requires start { (B.shows buffer.old).can.seekable ≡ false → (B.shows buffer.old).place ≡ 0 }
    ensures { CountsPlace (B.shows buffer.old) result (B.shows buffer.new) }
{
    if !buffer.seekable() {
        return 0;
    }
    buffer.tell().unwrap()
}

/// What the bytes are decoded by: of a buffer that isn't read any handler that texts are read with.
pub(crate) fn reading_coder(readable: bool, coder: Coder) -> Coder
    requires { readable ≡ true → reads_texts coder.errors ≡ true }
    ensures reads { reads_texts result.errors ≡ true }
    ensures same { readable ≡ true → result ≡ coder }
{
    if readable {
        coder
    } else {
        Coder {
            encoding: coder.encoding,
            errors: Handler::Strict,
        }
    }
}
