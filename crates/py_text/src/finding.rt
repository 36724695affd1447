ghost use Rattle.std.specs.Prelude.{◌≡◌, Some, chars, IfErr};
ghost use Rattle.py_flat.specs.declared.fault.IoFault.TheVariants.{NoMemory};
ghost use Rattle.py_registry.specs.Machine.{looked_up, handler_of};
ghost use Rattle.py_registry.specs.Answers.{AsksFunctions, Answers};
ghost use Rattle.py_plain_text.specs.TextWriting.{writes_texts};
ghost use Rattle.py_text.specs.Coders.{is_of_stream, coder_with, coder_of, coder_by};

use crate::Coder;
use py_codec::{Encoding, Handler, HandlerRef, IoFault};
use py_registry::{CodecsRegistry, Probe, PyCodec, SearchFunction};
use std::alloc::Global;

/// Whether a handler is one that texts are written with: the five that they are read with, and xmlcharrefreplace.
fn writes_texts(handler: Handler) -> bool
    ensures { result ≡ writes_texts handler }
{
    match handler {
        Handler::XmlCharRefReplace => true,
        _ => handler.reads_texts(),
    }
}

/// Whether a handler is one of each direction in which a text goes.
pub fn is_of_stream(readable: bool, writable: bool, handler: Handler) -> bool
    ensures { result ≡ is_of_stream readable writable handler }
{
    (!readable || handler.reads_texts()) && (!writable || writes_texts(handler))
}

/// The coder of an encoding and a handler that was found, if any was.
fn coder_with<H: Copy>(
    readable: bool,
    writable: bool,
    encoding: Encoding,
    errors: Option<HandlerRef<H>>,
) -> Result<Coder, IoFault>
    ensures { result ≡ coder_with readable writable encoding errors }
{
    match errors {
        Some(HandlerRef::Builtin(errors)) if is_of_stream(readable, writable, errors) => {
            Ok(Coder { encoding, errors })
        }
        _ => Err(IoFault::UnknownHandler),
    }
}

/// The coder of a codec that was found and the handler of a name.
fn coder_of<S: SearchFunction, H: Copy>(
    registry: &CodecsRegistry<S, H>,
    codec: PyCodec<S>,
    errors: &str,
    readable: bool,
    writable: bool,
) -> Result<Coder, IoFault>
    ensures { result ≡ coder_of readable writable (Some codec) (handler_of registry.now (chars errors.now)) }
{
    match codec {
        PyCodec::Builtin(encoding) => coder_with(
            readable,
            writable,
            encoding,
            registry.lookup_error_opt(errors),
        ),
        PyCodec::Slot(_, _) => Err(IoFault::UnknownEncoding),
    }
}

/// What a text stream decodes and encodes by: the codec of one name, as a lookup finds it, and the handler of another.
/// `readable` and `writable` are the directions in which the text goes.
///
/// `UnknownEncoding`: no codec has that name, or not a built-in one. `UnknownHandler`: no handler has that name, or not a
/// built-in one, or not one of each direction: texts are read with strict, ignore, replace, backslashreplace and
/// surrogateescape, and written with those and xmlcharrefreplace; of no direction nothing is asked. Where both names are
/// missed it is `UnknownEncoding`.
/// `NoMemory` means out of memory, and comes only where search functions are asked: some are registered, and none of the names that
/// need none is the encoding's.
///
/// The codec that a search function found is kept then, as a lookup keeps it; a refusal leaves the registry as it was.
pub fn find_coder<S: SearchFunction, H: Copy>(
    registry: &mut CodecsRegistry<S, H>,
    alloc: Global,
    encoding: &str,
    errors: &str,
    readable: bool,
    writable: bool,
) -> Result<Coder, IoFault>
    ensures answer { Answers result (coder_by S.finds readable writable registry.old (chars encoding.now) (chars errors.now))
        registry.old (looked_up S.finds registry.old (chars encoding.now)) registry.new }
    ensures asks { IfErr result (λ why. why ≡ NoMemory → AsksFunctions registry.old (chars encoding.now)) }
{
    match registry.probe(alloc, encoding)? {
        Probe::Hit(codec) => coder_of(registry, codec, errors, readable, writable),
        Probe::Search(path) => {
            match CodecsRegistry::<S, H>::search_path(alloc, &path, encoding)? {
                Some(codec) => {
                    let coder = coder_of(registry, codec, errors, readable, writable)?;
                    registry.settle(alloc, encoding, codec)?;
                    Ok(coder)
                }
                None => Err(IoFault::UnknownEncoding),
            }
        }
    }
}
