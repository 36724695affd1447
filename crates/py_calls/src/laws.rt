//! Laws of accepted plans, by any registry and what its search functions find. No function here does anything; what each ensures is a law.
ghost use Rattle.std.specs.Prelude.{◌≡◌, ℕ, ◌<◌, List, Option, true, false, Some, None, Ok};
ghost use Rattle.py_plain.specs.declared.newlines.Newlines.{Newlines};
ghost use Rattle.py_plain.specs.NewlineArgument.{rule_of};
ghost use Rattle.py_registry.specs.declared.codec.PyCodec.{PyCodec};
ghost use Rattle.py_registry.specs.Machine.{Machine};
ghost use Rattle.py_calls.specs.declared.mode.EncodeMode.TheVariants as encode;
ghost use Rattle.py_calls.specs.declared.open_args.OpenArgs.{OpenArgs};
ghost use Rattle.py_calls.specs.declared.plan.OpenPlan.{OpenPlan};
ghost use Rattle.py_calls.specs.Mode.{mode_of, is_append};
ghost use Rattle.py_calls.specs.Plan.{bytes_kind, buffer_of, buffer_size_of, planned_coder, settings_by, plan_of, IsPlanned, PlansText};

/// The mode of a plan is the one that was asked for, its buffer has the size that was, and it can be opened: its sizes are of at least a
/// byte, and so are chunks, and a text's handler is one of its directions. What is both read and written isn't written at the end alone.
pub fn an_accepted_plan_is_what_was_asked<S, H>()
    ensures mode { (finds : S → List ℕ → Option (PyCodec S)) (machine : Machine S H) (mode : List ℕ) (args : OpenArgs) (plan : OpenPlan) → plan_of finds machine mode args ≡ Ok plan → mode_of mode ≡ Ok plan.mode }
    ensures plus_not_at_the_end { (finds : S → List ℕ → Option (PyCodec S)) (machine : Machine S H) (mode : List ℕ) (args : OpenArgs) (plan : OpenPlan) → plan_of finds machine mode args ≡ Ok plan → plan.mode.plus ≡ true → is_append plan.mode.file ≡ false }
    ensures buffer { (finds : S → List ℕ → Option (PyCodec S)) (machine : Machine S H) (mode : List ℕ) (args : OpenArgs) (plan : OpenPlan) → plan_of finds machine mode args ≡ Ok plan → buffer_of plan.kind ≡ buffer_size_of args.buffering }
    ensures may_open { (finds : S → List ℕ → Option (PyCodec S)) (machine : Machine S H) (mode : List ℕ) (args : OpenArgs) (plan : OpenPlan) → plan_of finds machine mode args ≡ Ok plan → IsPlanned plan }
    ensures chunk { (finds : S → List ℕ → Option (PyCodec S)) (machine : Machine S H) (mode : List ℕ) (args : OpenArgs) (plan : OpenPlan) → plan_of finds machine mode args ≡ Ok plan → 0 < args.chunk_size }
{}

/// A text mode that is accepted is planned as a text through a buffer of the size that was asked for, by the codec and the handler that
/// its names have, and with the settings that its arguments say.
pub fn an_accepted_text_has_a_buffer_a_coder_and_settings<S, H>()
    ensures { (finds : S → List ℕ → Option (PyCodec S)) (machine : Machine S H) (mode : List ℕ) (args : OpenArgs) (plan : OpenPlan) → plan_of finds machine mode args ≡ Ok plan → plan.mode.encode ≡ encode.Text → PlansText finds machine args plan }
{}

/// A binary mode that is accepted was asked for without an argument that only a text has, and is planned as a stream of bytes, with a
/// buffer or without. No registry has a part in it.
pub fn an_accepted_binary_mode_has_no_text_argument<S, H>()
    ensures encoding { (finds : S → List ℕ → Option (PyCodec S)) (machine : Machine S H) (mode : List ℕ) (args : OpenArgs) (plan : OpenPlan) → plan_of finds machine mode args ≡ Ok plan → plan.mode.encode ≡ encode.Bytes → args.encoding ≡ None }
    ensures errors { (finds : S → List ℕ → Option (PyCodec S)) (machine : Machine S H) (mode : List ℕ) (args : OpenArgs) (plan : OpenPlan) → plan_of finds machine mode args ≡ Ok plan → plan.mode.encode ≡ encode.Bytes → args.errors ≡ None }
    ensures newline { (finds : S → List ℕ → Option (PyCodec S)) (machine : Machine S H) (mode : List ℕ) (args : OpenArgs) (plan : OpenPlan) → plan_of finds machine mode args ≡ Ok plan → plan.mode.encode ≡ encode.Bytes → args.newline ≡ None }
    ensures kind { (finds : S → List ℕ → Option (PyCodec S)) (machine : Machine S H) (mode : List ℕ) (args : OpenArgs) (plan : OpenPlan) → plan_of finds machine mode args ≡ Ok plan → plan.mode.encode ≡ encode.Bytes → plan.kind ≡ bytes_kind (buffer_size_of args.buffering) }
{}
