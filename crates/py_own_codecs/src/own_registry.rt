ghost use Rattle.std.specs.Prelude.{◌≡◌, chars, codes, IfOk, IfErr};
ghost use Rattle.py_flat.specs.declared.fault.IoFault.TheVariants.{NoMemory};
ghost use Rattle.py_codec.specs.declared.handler_ref.HandlerRef.TheVariants.{Custom};
ghost use Rattle.py_registry.specs.Machine.{fresh, registered, registered_error};

use crate::{Marked, Marks};
use py_registry::{CodecsRegistry, HandlerRef, IoFault};
use std::alloc::Global;

/// A registry with a search function of one's own, and with a handler of one's own under the name `marks`; `NoMemory` when
/// out of memory.
pub fn marked_registry(
    alloc: Global,
    function: Marked,
    handler: Marks,
) -> Result<CodecsRegistry<Marked, Marks>, IoFault>
    ensures ok { IfOk result (λ registry. registry ≡ registered_error (registered fresh function) (chars (codes "marks")) (Custom handler)) }
    ensures err { IfErr result (λ why. why ≡ NoMemory) }
{
    let mut registry = CodecsRegistry::<Marked, Marks>::new(alloc)?;
    registry.register(alloc, function)?;
    registry.register_error(alloc, "marks", HandlerRef::Custom(handler))?;
    Ok(registry)
}
