ghost use Rattle.std.specs.Prelude.{◌≡◌, ◌≢◌, None, Ok, [], chars, IfOk, IfErr};
ghost use Rattle.py_flat.specs.declared.fault.IoFault.TheVariants.{NoMemory, UnknownEncoding};
ghost use Rattle.py_registry.specs.Machine.{path_of, cached, known, searched, found, settled, standing, looked_up};
ghost use Rattle.py_registry.specs.Answers.{AsksFunctions, IsProbe, Answers, there_or};

use crate::built_in::built_in;
use crate::spelling::spelled;
use crate::{CodecsRegistry, Path, Probe, PyCodec, SearchFunction};
use py_codec::IoFault;
use std::alloc::{AllocError, Global};

impl<S: SearchFunction, H: Copy> CodecsRegistry<S, H> {
    /// The codec of a name that no function has to be asked for: in the cache, or else built in.
    pub(crate) fn known(&self, name: &str) -> Option<PyCodec<S>>
        ensures { result ≡ known self.now (chars name.now) }
    {
        match self.cache.get_spelled(name) {
            Some(codec) => Some(codec),
            None => match built_in(name) {
                Some(encoding) => Some(PyCodec::Builtin(encoding)),
                None => None,
            },
        }
    }

    /// The search functions in the order of their numbers. Where there are none it takes no memory.
    fn path(&self, alloc: Global) -> Result<Path<S>, AllocError>
        ensures path { IfOk result (λ path. path ≡ path_of self.now) }
        ensures functions { IfErr result (λ why. path_of self.now ≢ []) }
    {
        if self.functions.is_empty() {
            return Ok(Path::from_vec(Vec::new(alloc)));
        }
        let mut functions = Vec::with_capacity(alloc, self.functions.len())?;
        for (_, function) in &self.functions {
            functions.push(*function)?;
        }
        Ok(Path::from_vec(functions))
    }

    /// The first part of a lookup: the codec that a name has in the cache or that is built in under it, or else the
    /// search functions to be asked for it.
    ///
    /// `NoMemory` when out of memory, which is taken only where there are functions to be asked.
    pub fn probe(&self, alloc: Global, name: &str) -> Result<Probe<S>, IoFault>
        ensures { IsProbe (known self.now (chars name.now)) (path_of self.now) result }
    {
        match self.known(name) {
            Some(codec) => Ok(Probe::Hit(codec)),
            None => Ok(Probe::Search(self.path(alloc)?)),
        }
    }

    /// The second part of a lookup, for which no registry is needed: the codec that the first of some search functions
    /// finds that finds one; `None` where none does.
    ///
    /// `NoMemory` when out of memory, which is taken only where there are functions.
    pub fn search_path(
        alloc: Global,
        path: &Path<S>,
        name: &str,
    ) -> Result<Option<PyCodec<S>>, IoFault>
        ensures found { IfOk result (λ codec. codec ≡ searched S.finds path.now (chars name.now)) }
        ensures err { IfErr result (λ why. why ≡ NoMemory) }
        ensures functions { IfErr result (λ why. path.now ≢ []) }
    {
        if path.as_slice().is_empty() {
            return Ok(None);
        }
        let spelled = spelled(alloc, name)?;
        for function in path.as_slice() {
            if let Some(codec) = function.search(spelled.as_str()) {
                return Ok(Some(codec));
            }
        }
        Ok(None)
    }

    /// The last part of a lookup: puts a codec into the cache unless the name has one there, and answers the one that
    /// stands there then.
    ///
    /// `NoMemory` when out of memory, and all is as before; a name that stands in the cache takes no memory.
    pub fn settle(
        &mut self,
        alloc: Global,
        name: &str,
        codec: PyCodec<S>,
    ) -> Result<PyCodec<S>, IoFault>
        ensures answer { Answers result (Ok (standing self.old (chars name.now) codec)) self.old (settled self.old (chars name.now) codec) self.new }
        ensures stands { IfErr result (λ why. cached self.old (chars name.now) ≡ None) }
    {
        if let Some(stands) = self.cache.get_spelled(name) {
            return Ok(stands);
        }
        self.cache.put(spelled(alloc, name)?, codec)?;
        Ok(codec)
    }

    /// The codec of a name, with nothing changed; `None` where there is none.
    pub(crate) fn find(&self, alloc: Global, name: &str) -> Result<Option<PyCodec<S>>, IoFault>
        ensures found { IfOk result (λ codec. codec ≡ found S.finds self.now (chars name.now)) }
        ensures err { IfErr result (λ why. why ≡ NoMemory) }
        ensures asks { IfErr result (λ why. AsksFunctions self.now (chars name.now)) }
    {
        match self.probe(alloc, name)? {
            Probe::Hit(codec) => Ok(Some(codec)),
            Probe::Search(path) => Self::search_path(alloc, &path, name),
        }
    }

    /// The codec of a name: in the cache, or else built in, or else the one that the search functions find, in order,
    /// which then stands in the cache. Names are looked for with dashes for their spaces and small letters for the
    /// capital ones of ASCII.
    ///
    /// `UnknownEncoding`: there is none; `NoMemory` means out of memory, and comes only where functions are asked. Then all
    /// is as before.
    pub fn lookup(&mut self, alloc: Global, name: &str) -> Result<PyCodec<S>, IoFault>
        ensures answer { Answers result (there_or UnknownEncoding (found S.finds self.old (chars name.now))) self.old
            (looked_up S.finds self.old (chars name.now)) self.new }
        ensures known { IfErr result (λ why. known self.old (chars name.now) ≡ None) }
        ensures asks { IfErr result (λ why. why ≡ NoMemory → AsksFunctions self.old (chars name.now)) }
    {
        match self.probe(alloc, name)? {
            Probe::Hit(codec) => Ok(codec),
            Probe::Search(path) => match Self::search_path(alloc, &path, name)? {
                Some(codec) => self.settle(alloc, name, codec),
                None => Err(IoFault::UnknownEncoding),
            },
        }
    }
}
