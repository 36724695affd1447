ghost use Rattle.std.specs.Prelude.{◌≡◌, ℕ, ◌<◌, false, List, Some};
ghost use Rattle.py_codec.specs.declared.handler_ref.HandlerRef.{HandlerRef};
ghost use Rattle.py_registry.specs.declared.codec.PyCodec.{PyCodec};
ghost use Rattle.py_registry.specs.Names.{same_name};
ghost use Rattle.py_registry.specs.Machine.{Machine, registered, known, settled, standing, handler_of, registered_error};
ghost use Rattle.py_registry.specs.Steps.{Step, after_steps, KeepsAll};

/// A name that was settled keeps its codec: over every list of steps of which none forgets the name or registers it by
/// hand and none removes a function, each later probe hits the codec that the settle answered (`probe`), and each later
/// settle of the name answers it too, whatever codec it brings (`settle`).
///
/// The steps may be those of any lookups between one another, and of `lookup`, `encode`, `decode`, `encode_text` and
/// `decode_text`, each of which is one step where it isn't refused. It does nothing: what it ensures is a law of the
/// definitions.
pub fn a_settled_name_keeps_its_codec<S, H>()
    ensures probe { (machine : Machine S H) (name : List ℕ) (codec : PyCodec S) (steps : List (Step S H))
        → KeepsAll name (settled machine name codec) steps
        → known (after_steps (settled machine name codec) steps) name ≡ Some (standing machine name codec) }
    ensures settle { (machine : Machine S H) (name : List ℕ) (codec : PyCodec S) (steps : List (Step S H))
        → KeepsAll name (settled machine name codec) steps
        → (other : PyCodec S)
        → standing (after_steps (settled machine name codec) steps) name other ≡ standing machine name codec }
{}

/// A number is given once: after a function was registered, and any steps, the next number is a greater one.
///
/// It does nothing: what it ensures is a law of the definitions.
pub fn a_number_is_given_once<S, H>()
    ensures { (machine : Machine S H) (function : S) (steps : List (Step S H))
        → machine.next < (after_steps (registered machine function) steps).next }
{}

/// A handler that is registered under a name is the one that the name stands for (`own`), and every other name stands
/// for what it stood for (`others`).
///
/// It does nothing: what it ensures is a law of the definitions.
pub fn registering_a_handler_changes_one_name<S, H>()
    ensures own { (machine : Machine S H) (name : List ℕ) (handler : HandlerRef H)
        → handler_of (registered_error machine name handler) name ≡ Some handler }
    ensures others { (machine : Machine S H) (name other : List ℕ) (handler : HandlerRef H)
        → same_name name other ≡ false
        → handler_of (registered_error machine name handler) other ≡ handler_of machine other }
{}
