ghost use Rattle.std.specs.Prelude.{◌≡◌, Ok, chars};
ghost use Rattle.py_flat.specs.declared.fault.IoFault.TheVariants.{UnknownHandler};
ghost use Rattle.py_registry.specs.Machine.{handler_of, registered_error};
ghost use Rattle.py_registry.specs.Answers.{Answers, there_or};

use crate::CodecsRegistry;
use py_codec::{HandlerRef, IoFault};
use std::alloc::Global;

impl<S: Copy, H: Copy> CodecsRegistry<S, H> {
    /// A name stands for a handler from now on; answers the one that it stood for. Names of handlers are taken as they
    /// are given.
    ///
    /// `NoMemory` when out of memory, and all is as before.
    pub fn register_error(
        &mut self,
        alloc: Global,
        name: &str,
        handler: HandlerRef<H>,
    ) -> Result<Option<HandlerRef<H>>, IoFault>
        ensures { Answers result (Ok (handler_of self.old (chars name.now))) self.old (registered_error self.old (chars name.now) handler) self.new }
    {
        let before = self.handlers.get(name);
        self.handlers.put(String::from_str(alloc, name)?, handler)?;
        Ok(before)
    }

    /// The handler that a name stands for; `None` where it stands for none. It takes no memory.
    pub fn lookup_error_opt(&self, name: &str) -> Option<HandlerRef<H>>
        ensures { result ≡ handler_of self.now (chars name.now) }
    {
        self.handlers.get(name)
    }

    /// The handler that a name stands for; `UnknownHandler` where it stands for none. It takes no memory.
    pub fn lookup_error(&self, name: &str) -> Result<HandlerRef<H>, IoFault>
        ensures { result ≡ there_or UnknownHandler (handler_of self.now (chars name.now)) }
    {
        match self.lookup_error_opt(name) {
            Some(handler) => Ok(handler),
            None => Err(IoFault::UnknownHandler),
        }
    }
}
