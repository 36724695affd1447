//! Laws of the definitions that the contracts cite: what any run of a session has to be.
//!
//! No function here does anything; what each ensures is a law.
ghost use Rattle.std.specs.Prelude.{◌≡◌, ◌≢◌, ◌≤◌, ℕ, pos, true, false, IsTrue, List, [], ◌∷◌, ◌++◌, length, Some};
ghost use Rattle.py_flat.specs.declared.life.Life.TheVariants as life;
ghost use Rattle.py_flat.specs.Calls.{FileReply, Refused};
ghost use Rattle.py_flat.specs.Calls as file;
ghost use Rattle.py_flat.specs.declared.fault.IoFault.TheVariants as fault;
ghost use Rattle.py_plain_text.specs.TextFile.{TextFile};
ghost use Rattle.py_plain_text.specs.declared.text_cookie.TextIOCookie.{TextIOCookie};
ghost use Rattle.py_plain_text.specs.Cookie.{cookie_bytes};
ghost use Rattle.py_plain_text.specs.CookieView.{cookie_shown};
ghost use Rattle.py_plain_text.specs.CookieLaws.{StandsInText};
ghost use Rattle.py_plain.specs.Units.{Unknown};
ghost use Rattle.py_read_text.specs.TextState.{TextState, file_of};
ghost use Rattle.py_raw.specs.RawStream.{Raw, Keeps, AnswersFor, tells};
ghost use Rattle.py_stream.specs.Answers.{ClosedWith};
ghost use Rattle.py_calls.specs.declared.call.Call.{Call};
ghost use Rattle.py_calls.specs.declared.call.Call.TheVariants.{Close, Read, SeekText, Tell, WriteText};
ghost use Rattle.py_calls.specs.declared.reply.Reply.{Reply};
ghost use Rattle.py_calls.specs.declared.reply.Reply.TheVariants.{Cookie, Done};
ghost use Rattle.py_calls.specs.Calls.{said};
ghost use Rattle.py_open.specs.Session.{SessionFile, OfText, SessionView, TextSession, Answers, IsInStep, HasOpenRaw, file_seen, raw_of, life_of, life_in, bytes_in, SessionStep};
ghost use Rattle.py_calls.specs.declared.plan.OpenPlan.{OpenPlan};
ghost use Rattle.py_flat.specs.declared.fault.IoFault.{IoFault};
ghost use Rattle.py_raw.specs.Opener.{OpenerView, Opens, IsOpened, opened_bytes};
ghost use Rattle.py_calls.specs.Plan.{IsPlanned};
ghost use Rattle.py_open.specs.Opening.{OpensSession, RefusesSession};
ghost use Rattle.py_open.specs.OpenedFile.{opened_file};
ghost use Rattle.py_open.specs.Paths.{raw_mode, RefusesOrLacks};
ghost use Rattle.py_open.specs.Run.{Entry, IsRun, IsHistory, IsCalm, IsSmooth, NoneLacksMemory, AllSettle, all_said, calls_of, replies_of};
ghost use Rattle.py_open.specs.Laws.{AlikeButSizes, NoneTellsSize, is_text, IsSmoothRun, IsExact, KnowsAnswers, HasHistory, RunsInTwo, RunsComplete, IsReached, GoesBackFrom, IsBack, BringsBack, MayWrite, MayReadFrom, IsReadBack, cookie_told, passes_on, KeepsSettings, OnlyReads, PassesAll, HoldsFlat, StaysClosed, StaysDetached, FileStaysDetached};

/// A run over a raw that tells, in which no count of the raw rose and no call ran out of memory, is the model's: there is a flat
/// file between any two calls, and each reply is what the file there answers, exactly, but that a single transfer gives some front
/// of what it is asked for.
pub fn a_smooth_run_settles()
    ensures { (before : SessionView) (calls : List Call) (replies : List Reply) (after : SessionView) → IsRun before calls replies after → IsTrue (tells (raw_of before)) → IsSmooth (raw_of before) (raw_of after) → NoneLacksMemory (all_said replies) → AllSettle (file_seen before) calls (all_said replies) (file_seen after) }
{}

/// Calls of a text that all settle are answered by the exact replies, and leave the exact text: two such lists are alike, whatever
/// pieces their raws moved. Not said is it of a text that had failed and is detached: what that hands over the model doesn't know.
pub fn a_settled_text_is_exact()
    ensures { (before : TextFile) (calls : List Call) (replies : List FileReply) (after : SessionFile) → KnowsAnswers before calls → AllSettle (OfText before) calls replies after → IsExact before calls replies after }
{}

/// A run, over any raw, told or not, in which no count of the raw rose is complete: each call that the session doesn't refuse is
/// answered by an answer of its own, or when out of memory.
pub fn a_smooth_run_is_complete()
    ensures { (before : SessionView) (calls : List Call) (replies : List Reply) (after : SessionView) → IsRun before calls replies after → IsSmooth (raw_of before) (raw_of after) → RunsComplete before calls replies after }
{}

/// A run may be looked at in two parts, anywhere: there is a session between them, to which the first leads and from which
/// the second goes on. So what holds of a run up to its first wait, fault or running out of memory holds whatever comes after.
pub fn a_run_splits_anywhere()
    ensures { (before : SessionView) (calls more : List Call) (replies others : List Reply) (after : SessionView) → length replies ≡ length calls → IsRun before (calls ++ more) (replies ++ others) after → RunsInTwo before calls more replies others after }
{}

/// Two runs one behind the other are a run: of the calls of both, with the replies of both.
pub fn two_runs_are_a_run()
    ensures { (before mid after : SessionView) (calls more : List Call) (replies others : List Reply) → IsRun before calls replies mid → IsRun mid more others after → IsRun before (calls ++ more) (replies ++ others) after }
{}

/// A history gains an entry at its end: a step from the file that it came to.
pub fn a_history_gains_an_entry()
    ensures { (before mid after : SessionFile) (entries : List Entry) (entry : Entry) → IsHistory before entries mid → SessionStep mid entry.call (said entry.reply) entry.waited entry.faulted after → IsHistory before (entries ++ entry ∷ []) after }
{}

/// No reply hangs on how large buffers and chunks are: two runs of the same calls over raws that tell, in which no count rose and no call
/// ran out of memory, from sessions that hadn't failed and whose files are alike but for these sizes, have the same replies, and leave
/// files that are alike so; whatever their buffers hold and their raws move. Not said is it of calls that ask for the size, and of those
/// of bytes that give what one transfer brings.
pub fn no_reply_hangs_on_the_sizes()
    ensures { (one other : SessionView) (calls : List Call) (replies others : List Reply) (left right : SessionView) → AlikeButSizes (file_seen one) (file_seen other) → life_of one ≢ life.Failed → NoneTellsSize (is_text (file_seen one)) calls → IsSmoothRun one calls replies left → IsSmoothRun other calls others right → (all_said others ≡ all_said replies) × AlikeButSizes (file_seen left) (file_seen right) }
{}

/// A run over a raw that tells is a history of its flat files: the same calls and replies, each a step of the model, marked
/// where a wait cut the call short and where a fault answered it. So each mark has its cause in the counts of the raw.
pub fn a_run_is_a_history()
    ensures { (before : SessionView) (calls : List Call) (replies : List Reply) (after : SessionView) → IsRun before calls replies after → IsTrue (tells (raw_of before)) → HasHistory before calls replies after }
{}

/// A history in which no entry waited, faulted or ran out of memory is the model's: each reply settles. This needs no counts, only
/// the marks of its entries.
pub fn a_calm_history_settles()
    ensures { (before : SessionFile) (entries : List Entry) (after : SessionFile) → IsHistory before entries after → IsCalm entries → AllSettle before (calls_of entries) (all_said (replies_of entries)) after }
{}

/// A session over a raw that tells is reached: as a plan opens it, and where calls lead from there.
pub fn a_run_reaches_its_sessions()
    ensures opened { (raw : Raw) (plan : OpenPlan) (session : SessionView) → IsTrue (tells raw) → IsPlanned plan → OpensSession raw plan session → IsReached session }
    ensures kept { (before : SessionView) (calls : List Call) (replies : List Reply) (after : SessionView) → IsReached before → IsRun before calls replies after → IsReached after }
{}

/// A live text that was reached stands where a cookie tells, and no order of its bytes was read. So what `py_plain_text` and `py_text_laws` say
/// of texts that stand so holds of it, as it is the text of a session: the cookie that it tells feeds four bytes at most, skips only inside
/// the one item that these are, and is the least boundary that gives what is left, where there is one (`told_places_give_the_rest`); and what
/// is written there is sought and read again (`a_written_text_is_sought_and_read`).
pub fn a_reached_text_stands_where_it_tells()
    ensures stands { (now : TextState) → IsReached (TextSession now) → now.text.life ≡ life.Live → StandsInText (file_of now) }
    ensures order { (now : TextState) → IsReached (TextSession now) → now.text.life ≡ life.Live → (file_of now).place.order ≡ Unknown }
{}

/// A text goes back to where it told. Two sessions over raws that tell, of any modes, or one session at two times, have texts of the same
/// bytes. A `SeekText` by the cookie that a `Tell` of the first answered puts the second where the same is left as at that `Tell`, and answers
/// that cookie: where the second is live, can be moved, and read where the first can, doesn't append, and has the first's encoding, handler
/// and newline rule, and where in this call no count of the raw rose and memory sufficed.
pub fn a_text_goes_back_to_where_it_told()
    ensures { (was told now after : TextState) (cookie : TextIOCookie) (reply : Reply) → IsReached (TextSession was) → Answers (TextSession was) Tell (Cookie cookie) (TextSession told) → IsReached (TextSession now) → GoesBackFrom was now → Answers (TextSession now) (SeekText (cookie_bytes (cookie_shown cookie)) (pos 0)) reply (TextSession after) → IsSmooth (raw_of (TextSession now)) (raw_of (TextSession after)) → said reply ≢ Refused fault.NoMemory → IsBack was cookie reply after }
{}

/// Cookies bring back what was left: `a_text_goes_back_to_where_it_told`, of every session that a plan opens over a raw that tells.
pub fn cookies_bring_back()
    ensures { (raw : Raw) (plan : OpenPlan) (opened : SessionView) → IsTrue (tells raw) → IsPlanned plan → OpensSession raw plan opened → BringsBack opened }
{}

/// A session reads back what it wrote. A session that a plan opened over a raw that tells, or to which calls led from there, has a live, clean
/// text that can be moved, read and written, and doesn't append. It tells its place, writes a text, seeks back to what it told, and reads as
/// many characters: in a run of these calls in which no count of the raw rose and memory never ran out the replies are the cookie, the count
/// of characters, the cookie again, and the text that was written.
///
/// So it is in each of the encodings, of each text of whose characters a handler need replace none, whatever stood there and stands behind: by
/// the newline arguments "\n" and "" of every such text, by the others of one that they write and read as it is (`MayWrite`).
pub fn a_session_reads_back_what_it_wrote()
    ensures { (now : TextState) (written : List ℕ) (replies : List Reply) (after : SessionView) → IsReached (TextSession now) → MayWrite now written → now.text.buffer.can.readable ≡ true → now.text.buffer.can.appending ≡ false → IsSmoothRun (TextSession now) (Tell ∷ WriteText written ∷ SeekText (cookie_told now) (pos 0) ∷ Read (Some (length written)) ∷ []) replies after → all_said replies ≡ file.Cookie (cookie_told now) ∷ file.Count (length written) ∷ file.Cookie (cookie_told now) ∷ file.Text written ∷ [] }
{}

/// Another session reads what one wrote. The first is as above, but that it need not be read, and may append; it tells its place, writes a
/// text, and is flushed or closed. The second is opened over a raw that tells, with the bytes that the first left in its own (`opened`), or was
/// reached, is live and stands for these bytes (`reached`); it can be moved and read, doesn't append, has the first's encoding and a newline
/// argument that reads the text as it is. It seeks to the cookie that the first told, and reads as many characters: where in neither run a count
/// of the raw rose or memory ran out, this is the text that was written.
pub fn another_session_reads_what_one_wrote()
    ensures opened { (was now : TextState) (written : List ℕ) (last : Call) (replies others : List Reply) (left after : SessionView) (raw : Raw) (plan : OpenPlan) → IsReached (TextSession was) → MayWrite was written → passes_on last ≡ true → IsSmoothRun (TextSession was) (Tell ∷ WriteText written ∷ last ∷ []) replies left → IsTrue (tells raw) → raw.bytes ≡ (raw_of left).bytes → IsPlanned plan → OpensSession raw plan (TextSession now) → MayReadFrom was now written → IsSmoothRun (TextSession now) (SeekText (cookie_told was) (pos 0) ∷ Read (Some (length written)) ∷ []) others after → IsReadBack was written replies others }
    ensures reached { (was now : TextState) (written : List ℕ) (last : Call) (replies others : List Reply) (left after : SessionView) → IsReached (TextSession was) → MayWrite was written → passes_on last ≡ true → IsSmoothRun (TextSession was) (Tell ∷ WriteText written ∷ last ∷ []) replies left → IsReached (TextSession now) → now.text.life ≡ life.Live → MayReadFrom was now written → (file_of now).bytes ≡ (raw_of left).bytes → IsSmoothRun (TextSession now) (SeekText (cookie_told was) (pos 0) ∷ Read (Some (length written)) ∷ []) others after → IsReadBack was written replies others }
{}

/// A run has one reply for each call.
pub fn a_run_answers_each_call()
    ensures { (before : SessionView) (calls : List Call) (replies : List Reply) (after : SessionView) → IsRun before calls replies after → length replies ≡ length calls }
{}

/// Over a run neither the faults nor the waits that the raw counts fall, so a count that rose stays risen.
pub fn counts_never_fall()
    ensures faults { (before : SessionView) (calls : List Call) (replies : List Reply) (after : SessionView) → IsRun before calls replies after → (raw_of before).faults ≤ (raw_of after).faults }
    ensures waits { (before : SessionView) (calls : List Call) (replies : List Reply) (after : SessionView) → IsRun before calls replies after → (raw_of before).waits ≤ (raw_of after).waits }
{}

/// Over a run what the raw and the session can do stays, and so do the session's kind and the buffer's size. Each of a text's settings
/// stays too where none of the calls gives another: of the chunk size a `SetChunkSize`, of the others a `Reconfigure`.
pub fn a_run_keeps_the_settings()
    ensures raw { (before : SessionView) (calls : List Call) (replies : List Reply) (after : SessionView) → IsRun before calls replies after → Keeps (raw_of before) (raw_of after) }
    ensures session { (before : SessionView) (calls : List Call) (replies : List Reply) (after : SessionView) → IsRun before calls replies after → KeepsSettings before calls after }
{}

/// A session that only reads leaves the raw's bytes, where it tells them, as they were; and where it tells its transfers, as files do,
/// its writes answered for no byte.
pub fn a_session_that_reads_spares_the_bytes()
    ensures written { (before : SessionView) (calls : List Call) (replies : List Reply) (after : SessionView) → IsRun before calls replies after → OnlyReads before → AnswersFor 0 (raw_of before) (raw_of after) }
    ensures bytes { (before : SessionView) (calls : List Call) (replies : List Reply) (after : SessionView) → IsRun before calls replies after → OnlyReads before → IsTrue (raw_of before).tells_bytes → (raw_of after).bytes ≡ (raw_of before).bytes }
{}

/// What is passed on is in the raw: after a `flush`, a `close` or a `detach` of a live session that was done, a seek of a text that was
/// answered, or whose cookie didn't fit, and with line buffering after an answered write of a text with a line end, nothing is owed, and the
/// raw holds the flat bytes of the session that the call came to, with those of the write; of a text that isn't written also where it tells
/// its bytes alone.
///
/// For this the session is in step with its raw: only one that writes through a buffer owes anything. So it is where a session opens, and
/// over every run.
pub fn what_is_passed_on_is_in_the_raw()
    ensures passed { (before : SessionView) (call : Call) (reply : Reply) (after : SessionView) → Answers before call reply after → IsInStep before → life_of before ≡ life.Live → PassesAll before call (said reply) → HoldsFlat before call after }
    ensures opened { (raw : Raw) (plan : OpenPlan) (session : SessionView) → OpensSession raw plan session → IsInStep session }
    ensures kept { (before : SessionView) (calls : List Call) (replies : List Reply) (after : SessionView) → IsRun before calls replies after → IsInStep before → IsInStep after }
{}

/// A session that isn't live calls no raw, whatever calls are made on it, whether the raw tells or not: so what a closed or detached
/// session passed on stays in its raw.
pub fn an_ended_session_calls_no_raw()
    ensures { (before : SessionView) (calls : List Call) (replies : List Reply) (after : SessionView) → IsRun before calls replies after → life_of before ≢ life.Live → raw_of after ≡ raw_of before }
{}

/// A raw that was opened by a plan's mode suits the plan: no session is refused over it but for want of memory, where the raw fails to say
/// where it stands or ends, or to move there, or where it can't seek and the plan's stream is read and written through a buffer.
pub fn an_opened_raw_suits_its_plan()
    ensures { (raw back : Raw) (plan : OpenPlan) (refused : IoFault) → IsPlanned plan → IsOpened (raw_mode plan) raw → RefusesSession raw plan refused back → RefusesOrLacks raw plan refused back }
{}

/// A session over the raw that an opener opened for its plan, where the opener tells what its paths hold, is the file that the plan opens
/// over what the path held: with its bytes, none where `w` emptied it or it was made; at the start, or with `a` at the end; and live. So
/// a run from there is the model's run from that file (`a_run_is_a_history`, `a_smooth_run_settles`).
pub fn an_opened_session_is_the_file_of_its_path()
    ensures { (before after : OpenerView) (path : List ℕ) (raw : Raw) (plan : OpenPlan) (session : SessionView) → Opens before path (raw_mode plan) raw after → IsTrue before.tells → OpensSession raw plan session → file_seen session ≡ opened_file plan (opened_bytes (raw_mode plan) (before.holds path)) }
{}

/// A raw that is closed just where its session is stays so over a run of a session that only reads: only a `Close` closes it, and
/// each that closes the session does, after a fault too.
pub fn a_raw_is_closed_with_its_session()
    ensures { (before : SessionView) (calls : List Call) (replies : List Reply) (after : SessionView) → IsRun before calls replies after → OnlyReads before → ClosedWith (life_of before) (raw_of before) → ClosedWith (life_of after) (raw_of after) }
{}

/// In a run from its opening a `Close` of a live session that is done closes the raw, of every kind of session, a text as well as a
/// stream of bytes with a buffer or without; and it stays closed, whatever calls come after. As long as the session isn't closed, its
/// raw is open.
pub fn a_done_close_closes_its_raw()
    ensures closed { (raw : Raw) (plan : OpenPlan) (opened mid next session : SessionView) (front rest : List Call) (replies others : List Reply) → OpensSession raw plan opened → IsRun opened front replies mid → life_of mid ≡ life.Live → Answers mid Close Done next → IsRun next rest others session → (raw_of session).closed ≡ true }
    ensures opened { (raw : Raw) (plan : OpenPlan) (opened session : SessionView) (calls : List Call) (replies : List Reply) → OpensSession raw plan opened → IsRun opened calls replies session → HasOpenRaw session }
{}

/// A run from a closed session answers `Done` to each further `Close`, the questions as ever, and refuses every other call, by `Closed` but
/// for the questions that a stream lacks, and the name of an encoding or a handler for want of memory; it leaves the file and the raw as they
/// were, whether the raw tells or not (Python's documentation of `close`).
pub fn a_closed_session_stays_closed()
    ensures { (before : SessionView) (calls : List Call) (replies : List Reply) (after : SessionView) → IsRun before calls replies after → life_of before ≡ life.Closed → StaysClosed before calls replies after }
{}

/// A detached file stays as it is over every later call, its bytes and its place too: the questions are answered as ever, and
/// every other call is refused, by `Detached` but for the questions that a stream lacks. So it is in the model, whatever the marks
/// of the entries are, and over every raw, told or not, which stays as it was too (Python's documentation of `detach`).
pub fn a_detached_file_stays_as_it_is()
    ensures history { (before : SessionFile) (entries : List Entry) (after : SessionFile) → IsHistory before entries after → life_in before ≡ life.Detached → FileStaysDetached before entries after }
    ensures run { (before : SessionView) (calls : List Call) (replies : List Reply) (after : SessionView) → IsRun before calls replies after → life_of before ≡ life.Detached → StaysDetached before calls replies after }
{}

/// A run over a raw that tells, from a live session, that ends in a `Close`, leaves the bytes of its file in the raw, where no count of
/// the raw rose and no call ran out of memory. So what settled of such a run is what the raw holds in the end.
pub fn a_smooth_run_that_closes_leaves_its_file_in_the_raw()
    ensures { (before : SessionView) (calls : List Call) (replies : List Reply) (after : SessionView) → IsRun before (calls ++ Close ∷ []) replies after → IsInStep before → life_of before ≡ life.Live → IsTrue (tells (raw_of before)) → IsSmooth (raw_of before) (raw_of after) → NoneLacksMemory (all_said replies) → bytes_in (file_seen after) ≡ (raw_of after).bytes }
{}
