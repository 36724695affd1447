ghost use Rattle.std.specs.Prelude.{◌≡◌};
ghost use Rattle.py_raw_memory.specs.Cuts.{takes, read_by, write_by};

/// What an element of a plan makes of one transfer of a raw stream in memory.
#[derive(Clone, Copy, Debug, PartialEq, Eq)]
pub enum Cut {
    /// At most n bytes move. With 0 a read moves at most one, and a write takes nothing: a fault where its piece
    /// isn't empty.
    Take(u32),
    /// The stream would block.
    Wait,
    /// The stream fails; of a written piece at most n bytes are laid on before.
    Break(u32),
}

/// What one transfer comes to.
#[derive(Clone, Copy, Debug, PartialEq, Eq)]
pub(crate) enum Turn {
    /// The call is listed as one that fails: no transfer.
    Refuses,
    /// This many bytes move.
    Moves(usize),
    /// Nothing is taken of a piece that isn't empty, which is a fault.
    Stalls,
    /// The stream would block.
    Waits,
    /// This many bytes are laid on, and the stream fails.
    Breaks(usize),
}

/// What a write of `count` bytes of a piece of `asked` comes to.
fn takes(count: usize, asked: usize) -> Turn
    ensures { result ≡ takes count asked }
{
    if count == 0 && asked != 0 {
        return Turn::Stalls;
    }
    Turn::Moves(count)
}

/// What an element makes of a read of `asked` bytes, which are there; without an element all is moved.
pub(crate) fn read_by(cut: Option<Cut>, asked: usize) -> Turn
    ensures { result ≡ read_by cut asked }
{
    match cut {
        None => Turn::Moves(asked),
        Some(Cut::Take(most)) => Turn::Moves((most.max(1) as usize).min(asked)),
        Some(Cut::Wait) => Turn::Waits,
        Some(Cut::Break(_)) => Turn::Breaks(0),
    }
}

/// What an element makes of a write of `asked` bytes.
pub(crate) fn write_by(cut: Option<Cut>, asked: usize) -> Turn
    ensures { result ≡ write_by cut asked }
{
    match cut {
        None => Turn::Moves(asked),
        Some(Cut::Take(most)) => takes((most as usize).min(asked), asked),
        Some(Cut::Wait) => Turn::Waits,
        Some(Cut::Break(most)) => Turn::Breaks((most as usize).min(asked)),
    }
}
