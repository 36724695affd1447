//! Buffers that are written, with the bytes that stand afterwards; the answers stand in `stdout`.
use crate::examples::{every_second, two_rows};
use anyhow::Result;
use py_buffer::{
    ArgBytesLike, ArgFault, ArgMemoryBuffer, BufferDescriptor, OwnedBuffer, PyBuffer, PyBufferMut,
    VecBuffer, try_bytes_like, try_rw_bytes_like,
};
use std::error::Error;

/// Prints bytes that are letters.
fn print_bytes(rt: &HostRuntime, what: &str, bytes: &[u8]) -> Result<()> {
    println!(rt; "{what} {:?}", str::from_utf8(bytes)?)?;
    Ok(())
}

/// Prints what a buffer over two rows, written as a whole, lends and collects.
pub(crate) fn print_buffer(rt: &HostRuntime) -> Result<()> {
    let alloc = rt.alloc();
    let mut bytes = *b"abcdef";
    let mut appended = Vec::new(alloc);
    if let Some(mut buffer) = PyBufferMut::new(&mut bytes, two_rows(alloc, 2, 4)?) {
        println!(rt;
            "rows lent to be written {}",
            buffer.as_contiguous_mut().is_some()
        )?;
        print_bytes(rt, "after rows weren't lent", buffer.obj_bytes())?;
        buffer.obj_bytes_mut().fill(b'z');
        buffer.append_to(&mut appended)?;
        let all = buffer.contiguous_or_collect(alloc, |b| b == b"zzzz".as_slice())?;
        println!(rt; "written {all}, of all {}", buffer.obj_bytes().len())?;
    }
    print_bytes(rt, "appended", &appended)?;
    print_bytes(rt, "after rows", &bytes)
}

/// Fills what a buffer lends of its first bytes.
fn fill_first(buffer: &mut PyBufferMut, byte: u8) {
    if let Some(first) = buffer.as_contiguous_mut() {
        first.fill(byte);
    }
}

/// Prints what a buffer lends of its first bytes.
fn print_first(rt: &HostRuntime, buffer: &PyBufferMut) -> Result<()> {
    println!(rt; "read again {:?}", buffer.as_contiguous())?;
    Ok(())
}

/// Prints what a buffer still collects and holds once its bytes were lent to be written.
fn print_still(rt: &HostRuntime, buffer: &PyBufferMut) -> Result<()> {
    let mut appended = Vec::new(rt.alloc());
    buffer.append_to(&mut appended)?;
    print_bytes(rt, "still appended", &appended)?;
    println!(rt; "still {:?}", buffer.desc().format)?;
    Ok(())
}

/// Prints what stands after the first bytes of a buffer were written, which are all that its descriptor names.
pub(crate) fn print_contiguous(rt: &HostRuntime) -> Result<()> {
    let alloc = rt.alloc();
    let mut bytes = *b"abcdef";
    if let Some(mut buffer) = PyBufferMut::new(
        &mut bytes,
        BufferDescriptor::simple(alloc, 4, false)?,
    ) {
        fill_first(&mut buffer, b'y');
        print_first(rt, &buffer)?;
        print_still(rt, &buffer)?;
    }
    print_bytes(rt, "after four", &bytes)
}

/// Prints what stands after a buffer was refused, as its descriptor is readonly or leaves the bytes.
pub(crate) fn print_refused(rt: &HostRuntime) -> Result<()> {
    let alloc = rt.alloc();
    let mut bytes = *b"abc";
    let readonly = BufferDescriptor::simple(alloc, 3, true)?;
    println!(rt;
        "readonly {}",
        PyBufferMut::new(&mut bytes, readonly).is_some()
    )?;
    let outside = BufferDescriptor::simple(alloc, 4, false)?;
    println!(rt;
        "outside {}",
        PyBufferMut::new(&mut bytes, outside).is_some()
    )?;
    let rowless = two_rows(alloc, 3, 4)?;
    println!(rt;
        "of a wrong length {}",
        PyBufferMut::new(&mut bytes, rowless).is_some()
    )?;
    let again = BufferDescriptor::simple(alloc, 4, false)?;
    if let Err(back) = PyBufferMut::try_new(&mut bytes, again) {
        print_bytes(rt, "given back", back)?;
    }
    print_bytes(rt, "after refusals", &bytes)
}

/// Fills the bytes of an argument, and says how many it lends to a function.
fn fill_argument(argument: &mut ArgMemoryBuffer, byte: u8) -> usize {
    argument.borrow_buf_mut().fill(byte);
    argument.with_ref(|b| b.len())
}

/// Prints what stands after an argument was written, and after one was refused.
pub(crate) fn print_argument(rt: &HostRuntime) -> Result<()> {
    let alloc = rt.alloc();
    let mut bytes = *b"abcd";
    if let Ok(mut argument) = ArgMemoryBuffer::new(
        &mut bytes,
        BufferDescriptor::simple(alloc, 3, false)?,
    ) {
        let lent = fill_argument(&mut argument, b'x');
        println!(rt; "argument of {lent}, {}", argument.len())?;
        print_still(rt, &PyBufferMut::from(argument))?;
    }
    print_bytes(rt, "after the argument", &bytes)?;
    let readonly = BufferDescriptor::simple(alloc, 4, true)?;
    println!(rt;
        "readonly argument {}",
        ArgMemoryBuffer::new(&mut bytes, readonly).is_err()
    )?;
    print_bytes(rt, "after the refusal", &bytes)
}

/// Prints what stands after an argument was refused, as its items don't lie one after the other.
pub(crate) fn print_argument_apart(rt: &HostRuntime) -> Result<()> {
    let alloc = rt.alloc();
    let mut bytes = *b"abcd";
    if let Some(apart) = every_second(alloc, 2)?.validate() {
        if apart.covers(bytes.len()) {
            let refused = ArgMemoryBuffer::new(&mut bytes, apart).err();
            println!(rt; "apart {refused:?}")?;
        }
    }
    print_bytes(rt, "after it", &bytes)
}

/// Prints what an argument gives back where it is refused.
pub(crate) fn print_argument_back(rt: &HostRuntime) -> Result<()> {
    let alloc = rt.alloc();
    let mut bytes = *b"abcd";
    if let Some(apart) = every_second(alloc, 2)?.validate() {
        if apart.covers(bytes.len()) {
            if let Err(refused) = ArgMemoryBuffer::try_new(&mut bytes, apart) {
                println!(rt; "given back {:?} {:?}", refused.fault, refused.bytes)?;
            }
        }
    }
    Ok(())
}

/// Prints what a function over the bytes of a buffer, whose items don't lie one after the other, is refused by, and what that leaves.
pub(crate) fn print_apart(rt: &HostRuntime) -> Result<()> {
    let alloc = rt.alloc();
    let mut bytes = *b"abcd";
    if let Some(buffer) = PyBuffer::new(b"abcd", every_second(alloc, 2)?) {
        println!(rt; "read apart {:?}", try_bytes_like(&buffer, |b| b.len()))?;
    }
    if let Some(mut buffer) = PyBufferMut::new(&mut bytes, every_second(alloc, 2)?) {
        println!(rt;
            "written apart {:?}",
            try_rw_bytes_like(&mut buffer, |b| b.fill(b'w'))
        )?;
        print_bytes(rt, "of all", buffer.obj_bytes())?;
    }
    print_bytes(rt, "after apart", &bytes)
}

/// Prints what buffers are that arguments give back.
pub(crate) fn print_given_back(rt: &HostRuntime) -> Result<()> {
    let alloc = rt.alloc();
    let mut bytes = *b"abcd";
    if let Ok(argument) = ArgMemoryBuffer::new(
        &mut bytes,
        BufferDescriptor::simple(alloc, 3, false)?,
    ) {
        let buffer = PyBufferMut::from(argument);
        println!(rt;
            "wrapped to be written {}, of {}",
            buffer.desc().len,
            buffer.obj_bytes().len()
        )?;
    }
    print_bytes(rt, "after it", &bytes)?;
    if let Some(buffer) = PyBuffer::new(b"abcd", BufferDescriptor::simple(alloc, 3, true)?) {
        if let Ok(argument) = ArgBytesLike::new(buffer) {
            let buffer = PyBuffer::from(argument);
            println!(rt;
                "wrapped to be read {}, of {}",
                buffer.desc().len,
                buffer.obj_bytes().len()
            )?;
        }
    }
    Ok(())
}

/// Prints what functions over lent bytes answer, and what they leave.
pub(crate) fn print_lent(rt: &HostRuntime) -> Result<()> {
    let alloc = rt.alloc();
    let mut bytes = *b"abcd";
    if let Some(buffer) = PyBuffer::new(b"abcd", BufferDescriptor::simple(alloc, 3, true)?) {
        println!(rt;
            "read by a function {:?}",
            try_bytes_like(&buffer, |b| b.len())
        )?;
        if let Ok(argument) = ArgBytesLike::new(buffer) {
            print_bytes(rt, "borrowed", argument.borrow_buf())?;
        }
    }
    if let Some(mut buffer) = PyBufferMut::new(
        &mut bytes,
        BufferDescriptor::simple(alloc, 3, false)?,
    ) {
        println!(rt;
            "written by a function {:?}",
            try_rw_bytes_like(&mut buffer, |b| b.fill(b'w'))
        )?;
    }
    print_bytes(rt, "after the function", &bytes)
}

/// Prints the texts of why an argument is refused.
pub(crate) fn print_faults(rt: &HostRuntime) -> Result<()> {
    for fault in [
        ArgFault::NotContiguous,
        ArgFault::ReadOnly,
        ArgFault::NotAscii,
    ] {
        println!(rt; "{fault:?}: {fault}")?;
    }
    Ok(())
}

/// Prints the text of an error.
fn print_error<E: Error>(rt: &HostRuntime, what: &str, error: &E) -> Result<()> {
    println!(rt; "{what}: {error}")?;
    Ok(())
}

/// Prints the text of a refusal that gives bytes back which were to be written.
fn print_refusal(rt: &HostRuntime, what: &str, desc: BufferDescriptor) -> Result<()> {
    let mut bytes = *b"abcd";
    if let Some(desc) = desc.validate() {
        if desc.covers(bytes.len()) {
            if let Err(refused) = ArgMemoryBuffer::try_new(&mut bytes, desc) {
                print_error(rt, what, &refused)?;
            }
        }
    }
    Ok(())
}

/// Prints the texts of refused bytes: of items apart, of bytes that may only be read, and of both at once.
pub(crate) fn print_refusals(rt: &HostRuntime) -> Result<()> {
    let alloc = rt.alloc();
    print_refusal(rt, "refused apart", every_second(alloc, 2)?)?;
    print_refusal(
        rt,
        "refused readonly",
        BufferDescriptor::simple(alloc, 4, true)?,
    )?;
    let mut both = every_second(alloc, 2)?;
    both.readonly = true;
    print_refusal(rt, "refused apart and readonly", both)
}

/// Prints what an owned buffer lends to be written, and what it has then.
pub(crate) fn print_owned(rt: &HostRuntime) -> Result<()> {
    let alloc = rt.alloc();
    if let Ok(buffer) = OwnedBuffer::from_byte_vector(Vec::from_slice(alloc, b"abc")?) {
        println!(rt;
            "of a vector {:?}, readonly {}",
            buffer.view(),
            buffer.desc().readonly
        )?;
    }
    let bytes = VecBuffer::from(Vec::from_slice(alloc, b"abc")?);
    if let Ok(mut buffer) = bytes.into_pybuffer(false) {
        if let Some(mut all) = buffer.view_mut() {
            all.as_mut_slice().fill(b'v');
            println!(rt; "lent {}", all.as_slice().len())?;
        }
        println!(rt;
            "written {:?}, readonly {}",
            buffer.view(),
            buffer.desc().readonly
        )?;
    }
    Ok(())
}

/// Prints what an owned buffer has whose bytes aren't lent to be written, as it is readonly.
pub(crate) fn print_readonly(rt: &HostRuntime) -> Result<()> {
    let alloc = rt.alloc();
    if let Ok(mut buffer) = OwnedBuffer::from_byte_vector(Vec::from_slice(alloc, b"abc")?) {
        println!(rt; "lent to be written {}", buffer.view_mut().is_some())?;
        print_bytes(rt, "after it wasn't lent", buffer.view())?;
    }
    Ok(())
}

/// Prints what becomes of a vector by a descriptor of one's own: a buffer, or the bytes back.
pub(crate) fn print_described(rt: &HostRuntime) -> Result<()> {
    let alloc = rt.alloc();
    let bytes = VecBuffer::from(Vec::from_slice(alloc, b"abcdef")?);
    match bytes.into_pybuffer_with_descriptor(two_rows(alloc, 3, 6)?) {
        Ok(_) => println!(rt; "a third row is owned")?,
        Err(mut back) => {
            print_bytes(rt, "a vector back", &back.take())?;
            println!(rt; "left {}", back.take().len())?;
        }
    }
    let bytes = VecBuffer::from(Vec::from_slice(alloc, b"abcdef")?);
    if let Ok(buffer) = bytes.into_pybuffer_with_descriptor(two_rows(alloc, 2, 4)?) {
        println!(rt; "owned rows {:?}", buffer.desc().dim_desc)?;
        print_bytes(rt, "owned", &buffer.take())?;
    }
    Ok(())
}
