//! Laws of what the program's contract speaks of. No function here does anything; what it ensures is a law.
ghost use Rattle.std.specs.Prelude.{◌≡◌, ℕ, IsTrue, List, Ok, Some};
ghost use Rattle.py_raw.specs.Source.{SourceView};
ghost use Rattle.py_calls.specs.declared.open_args.OpenArgs.{OpenArgs};
ghost use Rattle.py_calls.specs.declared.plan.OpenPlan.{OpenPlan};
ghost use Rattle.py_calls.specs.declared.plan.PlanKind.TheVariants.{Text};
ghost use Rattle.py_calls.specs.declared.plan.TextPlan.{TextPlan};
ghost use Rattle.py_calls.specs.Plan.{built_in_plan};
ghost use Rattle.py_script.specs.CommandWords.{Run, command_of};
ghost use Rattle.py_program.specs.Outcome.{Outside, Ends};
ghost use Rattle.py_program.specs.Meaning.{RawsAreReady, PrintsSettled, PrintsExactly};

use py_open::{a_settled_text_is_exact, a_smooth_run_settles};

/// A run that ends with 0, over a file in which no call failed or would have blocked, prints what settles: the lines of replies that
/// are the model's to the script's calls on the file that the mode opens of the bytes that the path held, exactly, but that a single
/// transfer gives some front of what it is asked for; and the path holds the bytes of the file that these calls come to. Only a reply
/// when out of memory frees the others, and that.
pub fn a_smooth_run_prints_what_settles()
    ensures { (words : List (List ℕ)) (old new : SourceView) (before after : Outside) (path mode : List ℕ) (args : OpenArgs) (plan : OpenPlan) → Ends 0 words old new before after → command_of words ≡ Some (Run path mode args) → built_in_plan mode args ≡ Ok plan → IsTrue old.tells → IsTrue before.opener.tells → RawsAreReady before after → PrintsSettled path plan old before after }
{
    a_smooth_run_settles();
}

/// A run of a text, in any encoding and with any handler, that ends with 0, over a file in which no call failed or would have blocked, prints the lines of the model's exact
/// replies, begun at place 0, or at the end where it appends, unless one says out of memory; and the path holds the bytes of the text that
/// these calls come to, of a text that is only read those that it held. The sizes of buffer and chunks change no reply but that to a
/// question for the chunk size.
///
/// So two such runs of one script over equal files print the same, whatever pieces the files were read in, and whatever the sizes are
/// (`no_reply_hangs_on_the_sizes` of `py_open` says so of two runs of a session).
pub fn a_smooth_run_prints_the_exact_replies()
    ensures { (words : List (List ℕ)) (old new : SourceView) (before after : Outside) (path mode : List ℕ) (args : OpenArgs) (plan : OpenPlan) (text : TextPlan) → Ends 0 words old new before after → command_of words ≡ Some (Run path mode args) → built_in_plan mode args ≡ Ok plan → plan.kind ≡ Text text → IsTrue old.tells → IsTrue before.opener.tells → RawsAreReady before after → PrintsExactly path plan text old before after }
{
    a_smooth_run_prints_what_settles();
    a_settled_text_is_exact();
}
