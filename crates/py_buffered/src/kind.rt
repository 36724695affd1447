//! The kinds of buffered streams: what each can do, and what it is seen as.
ghost use Rattle.std.specs.Prelude.{◌≡◌, ℕ, Bool, true, if◌then◌else◌};
ghost use Rattle.py_stream.specs.Stream.{Stream};

use std::marker::{Model, PhantomData};

/// A kind of buffered streams. `ReadOnly`, `WriteOnly` and `ReadWrite` are the three; none of them is ever made.
///
/// A kind stands for what its streams are seen as: a reader as a `Stream`, and one that writes as a `Stream` beside how many bytes of the
/// last write were taken.
pub trait BufferedKind {
    ghost READS: { Bool };

    /// Whether its streams are read.
    const READS: bool;

    ghost WRITES: { Bool };

    /// Whether its streams are written.
    const WRITES: bool;

    /// What a stream is seen as, of which the last write took so many bytes.
    ghost seen: { Stream → ℕ → Self };

    /// The stream, of what it is seen as.
    ghost stream: { Self → Stream };

    /// How many bytes of the last write were taken: none where no write takes any.
    ghost taken: { Self → ℕ };

    ghost keeps_stream: { (whole : Stream) (count : ℕ) → stream (seen whole count) ≡ whole };

    ghost keeps_taken: { (whole : Stream) (count : ℕ) → taken (seen whole count) ≡ (if WRITES then count else 0) };
}

/// A kind whose streams are written.
pub trait WritingKind: BufferedKind {
    ghost writes: { Self.WRITES ≡ true };
}

/// The kind of a reader.
#[derive(Debug, Drop)]
pub struct ReadOnly;

impl Model for ReadOnly {
    ghost use Rattle.std.specs.Prelude.{false, None};
    ghost use Rattle.py_stream.specs.Stream.{Stream, reader_can, detached_stream};

    ghost Value = { Stream };

    ghost view = { λ _. detached_stream (reader_can false) None };
}

impl BufferedKind for ReadOnly {
    ghost use Rattle.std.specs.Prelude.{true, false, refl};

    ghost READS = { true };

    const READS: bool = true;

    ghost WRITES = { false };

    const WRITES: bool = false;

    ghost seen = { λ whole _. whole };

    ghost stream = { λ whole. whole };

    ghost taken = { λ _. 0 };

    ghost keeps_stream = { λ whole count. refl };

    ghost keeps_taken = { λ whole count. refl };
}

/// Whether the streams of a kind that writes are read too.
pub trait ReadsToo {
    ghost READS: { Bool };

    /// Whether they are read.
    const READS: bool;
}

/// Streams that are only written.
#[derive(Debug, Drop)]
pub struct NotRead;

impl ReadsToo for NotRead {
    ghost use Rattle.std.specs.Prelude.{false};

    ghost READS = { false };

    const READS: bool = false;
}

/// Streams that are read too.
#[derive(Debug, Drop)]
pub struct AlsoRead;

impl ReadsToo for AlsoRead {
    ghost use Rattle.std.specs.Prelude.{true};

    ghost READS = { true };

    const READS: bool = true;
}

/// A kind of streams that are written, by whether they are read too.
#[derive(Debug, Drop)]
pub struct Written<A: ReadsToo> {
    reads: PhantomData<A>,
}

/// The kind of a writer.
pub type WriteOnly = Written<NotRead>;

/// The kind of a stream that is read and written.
pub type ReadWrite = Written<AlsoRead>;

impl<A: ReadsToo> Model for Written<A> {
    ghost use Rattle.std.specs.Prelude.{false, None};
    ghost use Rattle.py_stream.specs.Stream.{writer_can, detached_stream};
    ghost use Rattle.py_stream.specs.Taken.{WriterView};

    ghost Value = { WriterView };

    ghost view = { λ _. record { stream = detached_stream (writer_can false false) None; taken = 0 } };
}

impl<A: ReadsToo> BufferedKind for Written<A> {
    ghost use Rattle.std.specs.Prelude.{true, refl};

    ghost READS = { A.READS };

    const READS: bool = A::READS;

    ghost WRITES = { true };

    const WRITES: bool = true;

    ghost seen = { λ whole count. record { stream = whole; taken = count } };

    ghost stream = { λ view. view.stream };

    ghost taken = { λ view. view.taken };

    ghost keeps_stream = { λ whole count. refl };

    ghost keeps_taken = { λ whole count. refl };
}

impl<A: ReadsToo> WritingKind for Written<A> {
    ghost use Rattle.std.specs.Prelude.{refl};

    ghost writes = { refl };
}
