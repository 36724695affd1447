//! The calls of a case.
use crate::finds::Finds;
use crate::shown;
use anyhow::{Result, anyhow};
use py_own_codecs::{Marked, Marks, marked_registry};
use py_registry::{
    CodecsRegistry, DEFAULT_ENCODING, Handler, HandlerRef, IoFault, NoHandler, NoSearch, Path,
    Probe, PyCodec,
};
use std::alloc::Global;

/// A registry, and the path that its last probe answered.
#[derive(Drop)]
pub(crate) struct Case {
    registry: CodecsRegistry<Finds, Marks>,
    path: Option<Path<Finds>>,
}

/// The number of a word.
fn number(word: &str) -> Result<u32> {
    Ok(word.parse::<u32>()?)
}

/// A handler of one's own by the mark that it puts.
fn marks(word: &str) -> Result<Marks> {
    match word {
        "<5>" => Ok(Marks { mark: "<5>" }),
        "<6>" => Ok(Marks { mark: "<6>" }),
        _ => Err(anyhow!("no such mark")),
    }
}

/// A codec by a number: a slot that a function of its own finds.
fn slot(word: &str) -> Result<PyCodec<Finds>> {
    let slot = number(word)?;
    Ok(PyCodec::Slot(Finds { any: true, slot }, slot))
}

/// A word and what stands after the next space.
fn split(line: &str) -> (&str, &str) {
    match line.split_once(' ') {
        Some((word, rest)) => (word, rest),
        None => (line, ""),
    }
}

/// The name of a handler, `-` for none.
fn errors(word: &str) -> Option<&str> {
    if word == "-" { None } else { Some(word) }
}

/// A codec that is there, or `none`.
fn shown_codec(alloc: Global, codec: Option<PyCodec<Finds>>) -> Result<String> {
    match codec {
        Some(codec) => Ok(shown::codec(alloc, codec)?),
        None => Ok(String::from_str(alloc, "none")?),
    }
}

/// A handler that is there, or `none`.
fn shown_handler(alloc: Global, handler: Option<HandlerRef<Marks>>) -> Result<String> {
    match handler {
        Some(handler) => Ok(shown::handler(alloc, handler)?),
        None => Ok(String::from_str(alloc, "none")?),
    }
}

/// `alone NAME`: a lookup in a new registry that has no search functions and no handlers of one's own; of the default
/// encoding where no name is given.
fn alone(alloc: Global, given: &str) -> Result<String> {
    let mut registry = CodecsRegistry::<NoSearch, NoHandler>::new(alloc)?;
    let name = if given.is_empty() {
        DEFAULT_ENCODING
    } else {
        given
    };
    match registry.lookup(alloc, name) {
        Ok(codec) => Ok(shown::codec(alloc, codec)?),
        Err(fault) => Ok(shown::fault(alloc, fault)?),
    }
}

/// The bytes of a text in hex, `-` for none, or a refusal.
fn shown_bytes(alloc: Global, made: Result<Vec<u8>, IoFault>) -> Result<String> {
    match made {
        Ok(bytes) if bytes.is_empty() => Ok(String::from_str(alloc, "-")?),
        Ok(bytes) => Ok(hex::encode(alloc, bytes.as_slice())?),
        Err(fault) => Ok(shown::fault(alloc, fault)?),
    }
}

/// `own HEX ERRORS NAME`: `encode_text` in a new registry that has the search function and the handler of one's own which
/// the documents show.
fn own(alloc: Global, line: &str) -> Result<String> {
    let (word, rest) = split(line);
    let (given, name) = split(rest);
    let mut registry = marked_registry(alloc, Marked, Marks { mark: "<?>" })?;
    let bytes = hex::decode(alloc, word.as_bytes())?;
    let text = str::from_utf8(&bytes)?;
    shown_bytes(
        alloc,
        registry.encode_text(alloc, text, name, errors(given)),
    )
}

impl Case {
    /// A new registry.
    pub(crate) fn new(alloc: Global) -> Result<Self> {
        Ok(Case {
            registry: CodecsRegistry::new(alloc)?,
            path: None,
        })
    }

    /// `probe NAME`.
    fn probe(&mut self, alloc: Global, name: &str) -> Result<String> {
        match self.registry.probe(alloc, name) {
            Ok(Probe::Hit(codec)) => Ok(format!(in alloc; "hit {}", shown::codec(alloc, codec)?)?),
            Ok(Probe::Search(path)) => {
                let shown = format!(in alloc; "search {}", path.as_slice().len())?;
                self.path = Some(path);
                Ok(shown)
            }
            Err(fault) => Ok(shown::fault(alloc, fault)?),
        }
    }

    /// `search NAME`, along the path of the last probe that answered one.
    fn search(&self, alloc: Global, name: &str) -> Result<String> {
        let Some(path) = &self.path else {
            return Err(anyhow!("no path"));
        };
        match CodecsRegistry::<Finds, Marks>::search_path(alloc, path, name) {
            Ok(codec) => shown_codec(alloc, codec),
            Err(fault) => Ok(shown::fault(alloc, fault)?),
        }
    }

    /// `lookup NAME`.
    fn lookup(&mut self, alloc: Global, name: &str) -> Result<String> {
        match self.registry.lookup(alloc, name) {
            Ok(codec) => Ok(shown::codec(alloc, codec)?),
            Err(fault) => Ok(shown::fault(alloc, fault)?),
        }
    }

    /// `settle SLOT NAME`.
    fn settle(&mut self, alloc: Global, line: &str) -> Result<String> {
        let (word, name) = split(line);
        match self.registry.settle(alloc, name, slot(word)?) {
            Ok(codec) => Ok(shown::codec(alloc, codec)?),
            Err(fault) => Ok(shown::fault(alloc, fault)?),
        }
    }

    /// `register SLOT`, or `register none` for a function that finds nothing.
    fn register(&mut self, alloc: Global, word: &str) -> Result<String> {
        let function = match word {
            "none" => Finds {
                any: false,
                slot: 0,
            },
            word => Finds {
                any: true,
                slot: number(word)?,
            },
        };
        let own = self.registry.register(alloc, function)?;
        Ok(format!(in alloc; "number {own}")?)
    }

    /// `manual SLOT NAME`.
    fn manual(&mut self, alloc: Global, line: &str) -> Result<String> {
        let (word, name) = split(line);
        self.registry.register_manual(alloc, name, slot(word)?)?;
        Ok(String::from_str(alloc, "ok")?)
    }

    /// `error HANDLER NAME`, where the handler is a number, or `ignore` for the built-in one.
    fn error(&mut self, alloc: Global, line: &str) -> Result<String> {
        let (word, name) = split(line);
        let handler = match word {
            "ignore" => HandlerRef::from(Handler::Ignore),
            word => HandlerRef::Custom(marks(word)?),
        };
        let before = self.registry.register_error(alloc, name, handler)?;
        shown_handler(alloc, before)
    }

    /// `handler NAME`.
    fn handler(&self, alloc: Global, name: &str) -> Result<String> {
        match self.registry.lookup_error(name) {
            Ok(handler) => Ok(shown::handler(alloc, handler)?),
            Err(fault) => Ok(shown::fault(alloc, fault)?),
        }
    }

    /// `encode HEX ERRORS NAME` and `encode_text`, of a text by its UTF-8.
    fn encode(&mut self, alloc: Global, line: &str, only_text: bool) -> Result<String> {
        let (word, rest) = split(line);
        let (given, name) = split(rest);
        let bytes = hex::decode(alloc, word.as_bytes())?;
        let text = str::from_utf8(&bytes)?;
        let made = if only_text {
            self.registry.encode_text(alloc, text, name, errors(given))
        } else {
            self.registry.encode(alloc, text, name, errors(given))
        };
        shown_bytes(alloc, made)
    }

    /// `decode HEX ERRORS NAME` and `decode_text`.
    fn decode(&mut self, alloc: Global, line: &str, only_text: bool) -> Result<String> {
        let (word, rest) = split(line);
        let (given, name) = split(rest);
        let bytes = hex::decode(alloc, word.as_bytes())?;
        let made = if only_text {
            self.registry
                .decode_text(alloc, &bytes, name, errors(given))
        } else {
            self.registry.decode(alloc, &bytes, name, errors(given))
        };
        match made {
            Ok(text) => Ok(format!(in alloc; "'{text}'")?),
            Err(fault) => Ok(shown::fault(alloc, fault)?),
        }
    }

    /// `pieces NAME`: whether the codec of a name has a decoder and an encoder of pieces.
    fn pieces(&mut self, alloc: Global, name: &str) -> Result<String> {
        let codec = self.registry.lookup(alloc, name)?;
        let decoder = codec.get_incremental_decoder(Handler::Strict).is_some();
        let encoder = codec.get_incremental_encoder(Handler::Strict).is_some();
        Ok(format!(in alloc; "decoder {decoder} encoder {encoder}")?)
    }

    /// Makes the call of a line, and answers what came as words.
    pub(crate) fn run(&mut self, alloc: Global, line: &str) -> Result<String> {
        let (word, rest) = split(line);
        match word {
            "register" => self.register(alloc, rest),
            "unregister" => {
                self.registry.unregister(rest.parse::<u64>()?);
                Ok(String::from_str(alloc, "ok")?)
            }
            "probe" => self.probe(alloc, rest),
            "search" => self.search(alloc, rest),
            "settle" => self.settle(alloc, rest),
            "lookup" => self.lookup(alloc, rest),
            "forget" => {
                let codec = self.registry.forget(rest);
                shown_codec(alloc, codec)
            }
            "manual" => self.manual(alloc, rest),
            "error" => self.error(alloc, rest),
            "handler" => self.handler(alloc, rest),
            "encode" => self.encode(alloc, rest, false),
            "encode_text" => self.encode(alloc, rest, true),
            "decode" => self.decode(alloc, rest, false),
            "decode_text" => self.decode(alloc, rest, true),
            "pieces" => self.pieces(alloc, rest),
            "alone" => alone(alloc, rest),
            "own" => own(alloc, rest),
            "refusals" => Ok(shown::refusals(alloc)?),
            _ => Err(anyhow!("no call")),
        }
    }
}
