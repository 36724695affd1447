//! Sessions over a raw stream: a text that is read, and a stream of bytes that is written.
ghost use Rattle.std.specs.Prelude.{◌≡◌, true};

use py_open::{Call, OpenArgs, OpenRefused, Reply, Run, Session, run_session};
use py_raw::{Chars, Data, Life, Lines, RawFlags, RawStream};
use py_raw_memory::MemRaw;
use py_registry::{CodecsRegistry, NoHandler, NoSearch};
use std::alloc::Global;
use std::process::Abort;
use std::test::Fail;

/// A registry in which only what is built in has a name.
type BuiltIn = CodecsRegistry<NoSearch, NoHandler>;

/// A run of calls on a session over some bytes.
fn run_over(
    alloc: Global,
    registry: &mut BuiltIn,
    bytes: Vec<u8>,
    mode: &str,
    args: OpenArgs,
    calls: &[Call],
) -> Result<Run<MemRaw>, OpenRefused<MemRaw>> {
    let flags = RawFlags::able(true, true, true);
    let raw = MemRaw::new(bytes, flags, Vec::new(alloc), Vec::new(alloc));
    run_session(alloc, raw, registry, mode, args, calls)
}

/// The calls of `a_text_is_read_by_a_line_and_then_to_its_end`, whose registry is lent.
fn lent_a_text_is_read_by_a_line_and_then_to_its_end(
    rt: &impl Abort,
    alloc: Global,
    registry: &mut BuiltIn,
) -> Result<(), Fail> {
    let newline = Chars::from_text(alloc, "\n")?;
    let bytes = [0xC3, 0xA9, 0x0A, 0x78].to_vec(alloc)?;
    let flags = RawFlags::able(true, false, true); // it can be read and moved
    let raw = MemRaw::new(bytes, flags, Vec::new(alloc), Vec::new(alloc)); // or any other RawStream
    let mut args = OpenArgs::default();
    args.newline = Some(newline);
    let calls = [Call::ReadLine(None), Call::Read(None), Call::Close];
    let run = run_session(alloc, raw, registry, "r", args, &calls)?; // refused: the fault, and the raw with nothing read
    assert!(rt;
        matches!(
            run.replies.as_slice(),
            [Reply::Text(line), Reply::Text(rest), Reply::Done]
                if line.as_str() == "é\n" && rest.as_str() == "x"
        )
    );
    let handed = run.session.finish(); // the raw again
    assert!(rt; handed.raw.closed());
    assert!(rt; handed.raw.bytes_of() == [0xC3, 0xA9, 0x0A, 0x78].as_slice());
    Ok(())
}

#[test]
fn a_text_is_read_by_a_line_and_then_to_its_end(rt: HostRuntime) -> Result<(), Fail> {
    let alloc = rt.alloc();
    let mut registry = CodecsRegistry::<NoSearch, NoHandler>::new(alloc)?; // only what is built in has a name
    lent_a_text_is_read_by_a_line_and_then_to_its_end(&rt, alloc, &mut registry)
}

/// The calls of `bytes_are_written_and_passed_on`, whose registry is lent.
fn lent_bytes_are_written_and_passed_on(
    rt: &impl Abort,
    alloc: Global,
    registry: &mut BuiltIn,
) -> Result<(), Fail> {
    let flags = RawFlags::able(false, true, true);
    let calls = [
        Call::Write(Data::from_slice(alloc, b"a\n")?),
        Call::Flush,
        Call::Close,
    ];
    let raw = MemRaw::new(Vec::new(alloc), flags, Vec::new(alloc), Vec::new(alloc));
    let run = run_session(alloc, raw, registry, "wb", OpenArgs::default(), &calls)?;
    assert!(rt; run.replies.as_slice() == [Reply::Count(2), Reply::Done, Reply::Done].as_slice());
    let handed = run.session.finish(); // the raw, and what it hasn't got
    assert!(rt; handed.raw.bytes_of() == &b"a\n"[..]);
    assert!(rt; handed.unwritten.is_empty());
    Ok(())
}

#[test]
fn bytes_are_written_and_passed_on(rt: HostRuntime) -> Result<(), Fail> {
    let alloc = rt.alloc();
    let mut registry = BuiltIn::new(alloc)?;
    lent_bytes_are_written_and_passed_on(&rt, alloc, &mut registry)
}

/// The replies of a text of UTF-16-LE whose last character is cut, and of a session's questions after its names.
fn replies_of_names(alloc: Global, registry: &mut BuiltIn) -> Result<Vec<Reply>, Fail> {
    let encoding = Chars::from_text(alloc, "UTF-16-LE")?;
    let errors = Chars::from_text(alloc, "replace")?;
    let bytes = [0xE9, 0x00, 0x41].to_vec(alloc)?;
    let mut args = OpenArgs::default();
    args.encoding = Some(encoding);
    args.errors = Some(errors);
    let calls = [Call::Read(None), Call::Encoding, Call::Errors];
    let run = run_over(alloc, registry, bytes, "r", args, &calls)?;
    Ok(run.replies)
}

#[test]
fn a_text_is_opened_in_each_encoding_that_the_registry_has(rt: HostRuntime) -> Result<(), Fail> {
    let alloc = rt.alloc();
    let mut registry = BuiltIn::new(alloc)?;
    let replies = replies_of_names(alloc, &mut registry)?;
    assert!(rt;
        matches!(
            replies.as_slice(),
            [Reply::Text(text), Reply::Name(encoding), Reply::Name(errors)]
                if text.as_str() == "é\u{FFFD}"
                    && encoding.as_str() == "utf-16-le"
                    && errors.as_str() == "replace"
        )
    );
    Ok(())
}

/// Whether a session may go to another thread, which its type decides.
fn may_be_sent<T: Send>(_: &T) -> bool
    ensures { result ≡ true }
{
    true
}

/// The calls of `a_session_goes_on_call_by_call`, whose session is lent.
fn lent_a_session_goes_on_call_by_call(
    rt: &impl Abort,
    alloc: Global,
    session: &mut Session<MemRaw>,
) {
    assert!(rt; may_be_sent(session));
    assert!(rt; session.call(alloc, &Call::Seek(1, 0)) == Reply::Place(1));
    let rest = session.call(alloc, &Call::Read(None));
    assert!(rt; matches!(&rest, Reply::Bytes(bytes) if bytes.as_slice() == b"b\n".as_slice()));
    assert!(rt; !session.short());
    assert!(rt; session.call(alloc, &Call::Close) == Reply::Done);
    assert!(rt; session.life() == Life::Closed);
}

#[test]
fn a_session_goes_on_call_by_call(rt: HostRuntime) {
    let alloc = rt.alloc();
    let mut registry = BuiltIn::new(alloc).expect(&rt, "room");
    let bytes = b"ab\n".to_vec(alloc).expect(&rt, "room");
    let run = run_over(alloc, &mut registry, bytes, "rb", OpenArgs::default(), &[]);
    let mut session = run.expect(&rt, "a session").session;
    lent_a_session_goes_on_call_by_call(&rt, alloc, &mut session);
}

#[test]
fn copies_of_calls_and_replies_are_equal(rt: HostRuntime) {
    let alloc = rt.alloc();
    let mut lines = Lines::new(alloc);
    let line = Data::from_slice(alloc, b"a\n").expect(&rt, "room");
    lines.push(line).expect(&rt, "room");
    let call = Call::WriteLines(lines);
    assert!(rt; call.try_clone(alloc).expect(&rt, "room") == call);
    let reply = Reply::Text(Chars::from_text(alloc, "é").expect(&rt, "room"));
    assert!(rt; reply.try_clone(alloc).expect(&rt, "room") == reply);
}
