ghost use Rattle.std.specs.Prelude.{◌≡◌, ◌^◌, Ok, Err, chars, nat_eq, MatchOption, IfOk, IfErr, OnOk};
ghost use Rattle.py_flat.specs.declared.fault.IoFault.TheVariants.{NoMemory, TooFar};
ghost use Rattle.py_codec.specs.declared.handler_ref.HandlerRef.TheVariants as given;
ghost use Rattle.py_plain.specs.Names.{handler_name};
ghost use Rattle.py_registry.specs.Entries.{IsEntry, IsNoEntry};
ghost use Rattle.py_registry.specs.Names.{with_value};
ghost use Rattle.py_registry.specs.Machine.{seven_handlers, fresh, registered, unregistered, cached, forgotten, registered_manually};
ghost use Rattle.py_registry.specs.Answers.{Answers, number_or_too_far};

use crate::PyCodec;
use crate::names::Names;
use crate::spelling::spelled;
use py_codec::{Handler, HandlerRef, IoFault};
use std::alloc::{AllocError, Global};
use std::marker::Model;

/// The encoding of texts whose encoding isn't given.
pub const DEFAULT_ENCODING: &str = "utf-8";

/// A registry of codecs and error handlers, with search functions of the kind `S` and handlers of a user's own of the
/// kind `H`.
///
/// Contracts see it as the machine: the next number, the numbered functions in order, the cache and the handlers. A call
/// that is refused leaves all as it was.
#[derive(Debug, Drop)]
pub struct CodecsRegistry<S, H> {
    pub(crate) next: Option<u64>,
    pub(crate) functions: Vec<(u64, S)>,
    pub(crate) cache: Names<PyCodec<S>>,
    pub(crate) handlers: Names<HandlerRef<H>>,
}

impl<S, H> Model for CodecsRegistry<S, H> {
    ghost use Rattle.py_registry.specs.Machine.{Machine, next_number};

    ghost Value = { Machine S H };

    ghost view = { λ r. record { next = next_number r.next; functions = r.functions.items; cache = r.cache; handlers = r.handlers } };

    ghost use Rattle.py_registry.specs.Machine.{IsNext};

    ghost invariant = { λ r. IsNext r.next };
}

/// A built-in handler stands under its name.
fn put_built_in<H: Copy>(
    alloc: Global,
    handlers: &mut Names<HandlerRef<H>>,
    handler: Handler,
) -> Result<(), AllocError>
    ensures { OnOk result (handlers.new ≡ with_value (handler_name handler) (given.Builtin handler) handlers.old) }
{
    handlers.put(
        String::from_str(alloc, handler.name())?,
        HandlerRef::Builtin(handler),
    )
}

/// The seven handlers under their names.
fn seven_handlers<H: Copy>(alloc: Global) -> Result<Names<HandlerRef<H>>, AllocError>
    ensures { IfOk result (λ handlers. handlers ≡ seven_handlers) }
{
    let mut handlers = Names::new(alloc);
    put_built_in(alloc, &mut handlers, Handler::Strict)?;
    put_built_in(alloc, &mut handlers, Handler::Ignore)?;
    put_built_in(alloc, &mut handlers, Handler::Replace)?;
    put_built_in(alloc, &mut handlers, Handler::XmlCharRefReplace)?;
    put_built_in(alloc, &mut handlers, Handler::BackslashReplace)?;
    put_built_in(alloc, &mut handlers, Handler::SurrogatePass)?;
    put_built_in(alloc, &mut handlers, Handler::SurrogateEscape)?;
    Ok(handlers)
}

/// The place of the function of a number, and the function.
fn entry_of<S: Copy>(functions: &[(u64, S)], number: u64) -> Option<(usize, S)>
    ensures { MatchOption result (IsNoEntry (λ own. nat_eq own number) functions.now)
        (λ entry. IsEntry (λ own. nat_eq own number) functions.now entry.0 entry.1) }
{
    for (place, (own, function)) in functions.iter().enumerate() {
        if *own == number {
            return Some((place, *function));
        }
    }
    None
}

impl<S: Copy, H: Copy> CodecsRegistry<S, H> {
    /// A registry with the seven handlers of `Handler` under their names, and nothing else; `NoMemory` when out of
    /// memory.
    pub fn new(alloc: Global) -> Result<Self, IoFault>
        ensures ok { IfOk result (λ registry. registry ≡ fresh) }
        ensures err { IfErr result (λ why. why ≡ NoMemory) }
    {
        Ok(CodecsRegistry {
            next: Some(0),
            functions: Vec::new(alloc),
            cache: Names::new(alloc),
            handlers: seven_handlers(alloc)?,
        })
    }

    /// Registers a search function after the others, and answers its number: 0 for the first, and one more for each
    /// next, so that no number is given twice.
    ///
    /// `TooFar`: all numbers are given, which is told before memory is taken; `NoMemory` means out of memory.
    pub fn register(&mut self, alloc: Global, function: S) -> Result<u64, IoFault>
        ensures far { self.old.next ≡ 2 ^ 64 → result ≡ Err TooFar }
        ensures answer { Answers result (number_or_too_far self.old.next) self.old (registered self.old function) self.new }
    {
        let Some(number) = self.next else {
            return Err(IoFault::TooFar);
        };
        self.functions.push((number, function))?;
        self.next = number.checked_add(1);
        Ok(number)
    }

    /// Removes the search function of a number and empties the cache; where no function of that number stands, all stays
    /// as it was. It takes no memory.
    pub fn unregister(&mut self, number: u64)
        ensures { self.new ≡ unregistered self.old number }
    {
        if let Some((place, _)) = entry_of(&self.functions, number) {
            self.functions.remove(place);
            self.cache.clear();
        }
    }

    /// Removes a name from the cache, and answers the codec that it had there; `None` where it had none. A name that was
    /// found by a search function is searched again then. It takes no memory.
    pub fn forget(&mut self, name: &str) -> Option<PyCodec<S>>
        ensures codec { result ≡ cached self.old (chars name.now) }
        ensures after { self.new ≡ forgotten self.old (chars name.now) }
    {
        self.cache.remove_spelled(name)
    }

    /// Puts a codec into the cache under a name, whatever the name had there; also a name that is built in.
    ///
    /// `NoMemory` when out of memory, and all is as before.
    pub fn register_manual(
        &mut self,
        alloc: Global,
        name: &str,
        codec: PyCodec<S>,
    ) -> Result<(), IoFault>
        ensures { Answers result (Ok tt) self.old (registered_manually self.old (chars name.now) codec) self.new }
    {
        self.cache.put(spelled(alloc, name)?, codec)?;
        Ok(())
    }
}
