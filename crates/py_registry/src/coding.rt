ghost use Rattle.std.specs.Prelude.{◌≡◌, true, false, None, Some, chars, Ok, option_map, IfErr};
ghost use Rattle.py_flat.specs.declared.fault.IoFault.TheVariants.{NoMemory};
ghost use Rattle.py_codec.specs.Answers.{text_of, bytes_of};
ghost use Rattle.py_registry.specs.Coding.{codec_encoding, codec_decoding, IsExpected};
ghost use Rattle.py_registry.specs.Machine.{known, found, looked_up};
ghost use Rattle.py_registry.specs.Answers.{Answers, name_or_strict, chosen_by, ChosenFirst, WorksByNames, RefusedFirstByNames};

use crate::{CodecsRegistry, PyCodec, SearchFunction};
use py_codec::{ErrorHandler, HandlerRef, IoFault};
use std::alloc::Global;

/// The name of a handler, or that of strict where none is given.
fn name_or_strict(errors: Option<&str>) -> &str
    ensures { chars result.now ≡ name_or_strict (option_map (λ errors. chars errors.now) errors.entry) }
{
    match errors {
        Some(errors) => errors,
        None => "strict",
    }
}

impl<S: SearchFunction, H: ErrorHandler> CodecsRegistry<S, H> {
    /// The codec of a name and the handler of another; `only_text` says that the codec has to be one for text.
    fn choose(
        &self,
        alloc: Global,
        name: &str,
        errors: Option<&str>,
        only_text: bool,
    ) -> Result<(PyCodec<S>, HandlerRef<H>), IoFault>
        ensures answer { IsExpected result (chosen_by S.finds S.text_slots self.now only_text (chars name.now) (option_map (λ errors. chars errors.now) errors.entry)) }
        ensures known { IfErr result (λ why. why ≡ NoMemory → known self.now (chars name.now) ≡ None) }
    {
        let Some(codec) = self.find(alloc, name)? else {
            return Err(IoFault::UnknownEncoding);
        };
        if only_text && !codec.is_text_codec() {
            return Err(IoFault::UnknownEncoding);
        }
        match self.lookup_error_opt(name_or_strict(errors)) {
            Some(handler) => Ok((codec, handler)),
            None => Err(IoFault::UnknownHandler),
        }
    }

    /// The codec that was found for a name is kept as a lookup keeps it.
    fn keep(&mut self, alloc: Global, name: &str, codec: PyCodec<S>) -> Result<(), IoFault>
        requires { found S.finds self.old (chars name.now) ≡ Some codec }
        ensures { Answers result (Ok tt) self.old (looked_up S.finds self.old (chars name.now)) self.new }
    {
        if self.known(name).is_none() {
            self.settle(alloc, name, codec)?;
        }
        Ok(())
    }

    /// The bytes of a text by the codec of one name and the handler of another; `only_text` says that the codec has to be one
    /// for text.
    fn encode_by(
        &mut self,
        alloc: Global,
        text: &str,
        name: &str,
        errors: Option<&str>,
        only_text: bool,
    ) -> Result<Vec<u8>, IoFault>
        ensures answer { WorksByNames bytes_of S.finds S.text_slots (codec_encoding S.slot_encodes H.decodes H.encodes (chars text.now))
            only_text (chars name.now) (option_map (λ errors. chars errors.now) errors.entry) self.old self.new result }
        ensures first { RefusedFirstByNames (codec_encoding S.slot_encodes H.decodes H.encodes (chars text.now))
            (chars name.now) (option_map (λ errors. chars errors.now) errors.entry) self.old result }
        ensures chosen { ChosenFirst S.finds S.text_slots self.old only_text (chars name.now) (option_map (λ errors. chars errors.now) errors.entry) result }
    {
        let (codec, handler) = self.choose(alloc, name, errors, only_text)?;
        let bytes = codec.encode(alloc, text, handler)?;
        self.keep(alloc, name, codec)?;
        Ok(bytes)
    }

    /// The text of some bytes by the codec of one name and the handler of another; `only_text` says that the codec has to be
    /// one for text.
    fn decode_by(
        &mut self,
        alloc: Global,
        bytes: &[u8],
        name: &str,
        errors: Option<&str>,
        only_text: bool,
    ) -> Result<String, IoFault>
        ensures answer { WorksByNames text_of S.finds S.text_slots (codec_decoding S.slot_decodes H.decodes H.encodes bytes.now)
            only_text (chars name.now) (option_map (λ errors. chars errors.now) errors.entry) self.old self.new result }
        ensures chosen { ChosenFirst S.finds S.text_slots self.old only_text (chars name.now) (option_map (λ errors. chars errors.now) errors.entry) result }
    {
        let (codec, handler) = self.choose(alloc, name, errors, only_text)?;
        let text = codec.decode(alloc, bytes, handler)?;
        self.keep(alloc, name, codec)?;
        Ok(text)
    }

    /// The bytes of a text by the codec of a name, which is looked up, and the handler of another; without one the
    /// handler is that of the name `strict`.
    ///
    /// `UnknownEncoding`: there is no such codec; `UnknownHandler`: no such handler; the other refusals are those of
    /// `PyCodec::encode`. Where no function has to be asked for the codec, `UnknownHandler` comes before memory is taken, and
    /// the other refusals as there. A refusal leaves the registry as it was.
    pub fn encode(
        &mut self,
        alloc: Global,
        text: &str,
        name: &str,
        errors: Option<&str>,
    ) -> Result<Vec<u8>, IoFault>
        ensures answer { WorksByNames bytes_of S.finds S.text_slots (codec_encoding S.slot_encodes H.decodes H.encodes (chars text.now))
            false (chars name.now) (option_map (λ errors. chars errors.now) errors.entry) self.old self.new result }
        ensures first { RefusedFirstByNames (codec_encoding S.slot_encodes H.decodes H.encodes (chars text.now))
            (chars name.now) (option_map (λ errors. chars errors.now) errors.entry) self.old result }
        ensures chosen { ChosenFirst S.finds S.text_slots self.old false (chars name.now) (option_map (λ errors. chars errors.now) errors.entry) result }
    {
        self.encode_by(alloc, text, name, errors, false)
    }

    /// The text of some bytes, after which none follow, by the codec of a name, which is looked up, and the handler of
    /// another; without one the handler is that of the name `strict`.
    ///
    /// The refusals are those of `encode` and of `PyCodec::decode`, `UnknownHandler` before memory is taken where no function
    /// has to be asked for the codec. A refusal leaves the registry as it was.
    pub fn decode(
        &mut self,
        alloc: Global,
        bytes: &[u8],
        name: &str,
        errors: Option<&str>,
    ) -> Result<String, IoFault>
        ensures answer { WorksByNames text_of S.finds S.text_slots (codec_decoding S.slot_decodes H.decodes H.encodes bytes.now)
            false (chars name.now) (option_map (λ errors. chars errors.now) errors.entry) self.old self.new result }
        ensures chosen { ChosenFirst S.finds S.text_slots self.old false (chars name.now) (option_map (λ errors. chars errors.now) errors.entry) result }
    {
        self.decode_by(alloc, bytes, name, errors, false)
    }

    /// The bytes of a text by the codec of a name, which has to be a codec for text, and the handler of another; without one
    /// the handler is that of the name `strict`.
    ///
    /// `UnknownEncoding`: there is no codec of that name, or it isn't for text, which comes before memory is taken where no
    /// function has to be asked for the codec; the other refusals are those of `encode`, and come before memory is taken where
    /// those do. A refusal leaves the registry as it was.
    pub fn encode_text(
        &mut self,
        alloc: Global,
        text: &str,
        name: &str,
        errors: Option<&str>,
    ) -> Result<Vec<u8>, IoFault>
        ensures answer { WorksByNames bytes_of S.finds S.text_slots (codec_encoding S.slot_encodes H.decodes H.encodes (chars text.now))
            true (chars name.now) (option_map (λ errors. chars errors.now) errors.entry) self.old self.new result }
        ensures first { RefusedFirstByNames (codec_encoding S.slot_encodes H.decodes H.encodes (chars text.now))
            (chars name.now) (option_map (λ errors. chars errors.now) errors.entry) self.old result }
        ensures chosen { ChosenFirst S.finds S.text_slots self.old true (chars name.now) (option_map (λ errors. chars errors.now) errors.entry) result }
    {
        self.encode_by(alloc, text, name, errors, true)
    }

    /// The text of some bytes, after which none follow, by the codec of a name, which has to be a codec for text, and the
    /// handler of another; without one the handler is that of the name `strict`.
    ///
    /// `UnknownEncoding`: there is no codec of that name, or it isn't for text, which comes before memory is taken where no
    /// function has to be asked for the codec; the other refusals are those of `decode`, and come before memory is taken where
    /// those do. A refusal leaves the registry as it was.
    pub fn decode_text(
        &mut self,
        alloc: Global,
        bytes: &[u8],
        name: &str,
        errors: Option<&str>,
    ) -> Result<String, IoFault>
        ensures answer { WorksByNames text_of S.finds S.text_slots (codec_decoding S.slot_decodes H.decodes H.encodes bytes.now)
            true (chars name.now) (option_map (λ errors. chars errors.now) errors.entry) self.old self.new result }
        ensures chosen { ChosenFirst S.finds S.text_slots self.old true (chars name.now) (option_map (λ errors. chars errors.now) errors.entry) result }
    {
        self.decode_by(alloc, bytes, name, errors, true)
    }
}
