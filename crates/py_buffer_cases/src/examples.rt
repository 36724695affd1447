//! Worked examples, whose answers stand in `stdout`.
ghost use Rattle.std.specs.Prelude.{◌≡◌, pos, ◌∷◌, [], IfOk};

use anyhow::{Result, bail};
use py_buffer::{
    ArgAsciiBuffer, ArgBytesLike, ArgMemoryBuffer, ArgStrOrBytesLike, BufferDescriptor, PyBuffer,
    VecBuffer,
};
use std::alloc::{AllocError, Global};

/// Two rows of two bytes, the second of which begins three bytes after the first.
pub(crate) fn two_rows(
    alloc: Global,
    shape: usize,
    len: usize,
) -> Result<BufferDescriptor, AllocError> {
    let mut dim_desc = Vec::new(alloc);
    dim_desc.push((shape, 3, 0))?;
    dim_desc.push((2, 1, 0))?;
    Ok(BufferDescriptor {
        len,
        readonly: false,
        itemsize: 1,
        format: "B",
        dim_desc,
    })
}

/// So many items of one byte, each two bytes after the one before.
pub(crate) fn every_second(alloc: Global, items: usize) -> Result<BufferDescriptor, AllocError>
    ensures { IfOk result (λ made. made.dim_desc.items ≡ (items, pos 2, pos 0) ∷ []) }
{
    let mut dim_desc = Vec::new(alloc);
    dim_desc.push((items, 2, 0))?;
    Ok(BufferDescriptor {
        len: items,
        readonly: false,
        itemsize: 1,
        format: "B",
        dim_desc,
    })
}

/// Prints the segments of two descriptors of the same shapes side by side, of which the second alone has a row to join.
pub(crate) fn print_pairs(rt: &HostRuntime) -> Result<()> {
    let alloc = rt.alloc();
    let Some(apart) = every_second(alloc, 3)?.validate() else {
        bail!("items apart are refused");
    };
    let Some(row) = BufferDescriptor::simple(alloc, 3, true)?.validate() else {
        bail!("a row is refused");
    };
    for start in [4, 6] {
        let stopped = apart.zip_eq(&row, true, |one, other| {
            one.start == start && other.start == 2
        });
        println!(rt; "a pair at {start} {stopped}")?;
    }
    let wide = apart.zip_eq(&row, true, |_, other| other.start == 0 && other.end == 3);
    println!(rt; "a row beside single items {wide}")?;
    let joined = row.zip_eq(&row, true, |one, other| one.end == 3 && other.end == 3);
    println!(rt; "a row beside itself {joined}")?;
    Ok(())
}

/// Prints the segments, joined and one by one.
pub(crate) fn print_segments(rt: &HostRuntime) -> Result<()> {
    let Some(rows) = two_rows(rt.alloc(), 2, 4)?.validate() else {
        bail!("two rows are refused");
    };
    for segment in rows.segments(true) {
        println!(rt; "joined {}..{}", segment.start, segment.end)?;
    }
    for segment in rows.segments(false) {
        println!(rt; "single {}..{}", segment.start, segment.end)?;
    }
    println!(rt; "contiguous {}", rows.is_contiguous())?;
    Ok(())
}

/// Prints positions by indices.
pub(crate) fn print_positions(rt: &HostRuntime) -> Result<()> {
    let Some(rows) = two_rows(rt.alloc(), 2, 4)?.validate() else {
        bail!("two rows are refused");
    };
    if rows.ndim() == 2 {
        println!(rt; "position -1 1 {:?}", rows.position(&[-1, 1]))?;
        println!(rt; "position 2 0 {:?}", rows.position(&[2, 0]))?;
        println!(rt; "position 0 -3 {:?}", rows.position(&[0, -3]))?;
    }
    Ok(())
}

/// Prints what buffers over six bytes lend and collect.
pub(crate) fn print_buffers(rt: &HostRuntime) -> Result<()> {
    let alloc = rt.alloc();
    let Some(buffer) = PyBuffer::new(b"abcdef", two_rows(alloc, 2, 4)?) else {
        bail!("two rows leave six bytes");
    };
    let mut bytes = Vec::new(alloc);
    buffer.append_to(&mut bytes)?;
    println!(rt; "appended {:?}", str::from_utf8(&bytes)?)?;
    println!(rt;
        "lent {:?}, of all {}",
        buffer.as_contiguous(),
        buffer.obj_bytes().len()
    )?;
    println!(rt;
        "rows collected {}",
        buffer.contiguous_or_collect(alloc, |b| b == b"abde".as_slice())?
    )?;
    let third = PyBuffer::new(b"abcdef", two_rows(alloc, 3, 6)?);
    println!(rt; "a third row {}", third.is_some())?;
    if let Some(buffer) = PyBuffer::new(b"abc", BufferDescriptor::simple(alloc, 3, true)?) {
        println!(rt;
            "collected {}",
            buffer.contiguous_or_collect(alloc, |b| b == b"abc".as_slice())?
        )?;
    }
    let words = BufferDescriptor::format(alloc, 6, true, 2, "H")?;
    println!(rt; "words {:?} {}", words.dim_desc, words.format)?;
    println!(rt; "copied {:?}", words.clone()?.dim_desc)?;
    Ok(())
}

/// Prints what an owned buffer lends and gives back.
pub(crate) fn print_owned(rt: &HostRuntime) -> Result<()> {
    let alloc = rt.alloc();
    let bytes = VecBuffer::from(Vec::from_slice(alloc, b"ab")?);
    match bytes.into_pybuffer(true) {
        Ok(mut buffer) => {
            println!(rt; "view {:?}", buffer.view())?;
            println!(rt; "view to write {:?}", buffer.view_mut().is_some())?;
            println!(rt; "taken {:?}", buffer.take())?;
        }
        Err(_) => println!(rt; "out of memory")?,
    }
    Ok(())
}

/// Prints the bytes of arguments that are texts or buffers.
pub(crate) fn print_borrowed(rt: &HostRuntime) -> Result<()> {
    let alloc = rt.alloc();
    println!(rt;
        "bytes of a text {:?}",
        ArgStrOrBytesLike::Str("\u{e9}").borrow_bytes()
    )?;
    if let Some(buffer) = PyBuffer::new(b"abc", BufferDescriptor::simple(alloc, 2, true)?) {
        if let Ok(argument) = ArgBytesLike::new(buffer) {
            println!(rt;
                "of a buffer {:?}",
                ArgStrOrBytesLike::Buf(argument).borrow_bytes()
            )?;
        }
    }
    if let Ok(argument) = ArgAsciiBuffer::new(ArgStrOrBytesLike::Str("abc")) {
        println!(rt;
            "of ASCII {}, {}, {}",
            argument.with_ref(|b| b == b"abc".as_slice()),
            argument.len(),
            argument.is_empty()
        )?;
    }
    Ok(())
}

/// Prints why arguments are refused.
pub(crate) fn print_arguments(rt: &HostRuntime) -> Result<()> {
    let alloc = rt.alloc();
    println!(rt;
        "text {:?}",
        ArgAsciiBuffer::new(ArgStrOrBytesLike::Str("\u{e9}")).err()
    )?;
    if let Some(rows) = PyBuffer::new(b"abcdef", two_rows(alloc, 2, 4)?) {
        println!(rt; "rows {:?}", ArgBytesLike::new(rows).err())?;
    }
    let mut bytes = [1u8, 2, 3];
    if let Some(simple) = BufferDescriptor::simple(alloc, 3, true)?.validate() {
        if simple.covers(bytes.len()) {
            let refused = ArgMemoryBuffer::new(&mut bytes, simple).err();
            println!(rt; "readonly {refused:?}")?;
        }
    }
    Ok(())
}
