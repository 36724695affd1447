//! What a raw stream can do, as flags, and the modes that give them.
use bitflags::Flags;
use py_raw::{ModeError, RawFlags, compute_mode};
use std::process::Abort;

/// Each flag by its name, and its bit.
const FLAGS: [(&str, u8); 5] = [
    ("CREATED", 1),
    ("READABLE", 2),
    ("WRITABLE", 4),
    ("APPENDING", 8),
    ("SEEKABLE", 16),
];

/// Adds the flag of a name to those before it. Whether it has these bits, and was none of them until then.
fn adds(all: &mut RawFlags, name: &str, bits: u8) -> bool {
    let Some(flag) = RawFlags::from_name(name) else {
        return false;
    };
    let fits = flag.bits() == bits && !all.contains(flag);
    all.insert(flag);
    fits && all.contains(flag)
}

#[test]
fn each_flag_has_its_bit_and_a_union_contains_its_parts(rt: HostRuntime) {
    let mut all = RawFlags::empty();
    for (name, bits) in FLAGS {
        assert!(rt; adds(&mut all, name, bits), "at {name}");
    }
    assert!(rt; all.bits() == 31);
    assert!(rt; RawFlags::from_bits(32).is_none());
    let able = RawFlags::able(true, false, true);
    assert!(rt; able == RawFlags::READABLE | RawFlags::SEEKABLE);
}

/// The flags of a mode, or what is wrong with it.
fn assert_computes(rt: &impl Abort, modes: &[&str], answer: Result<RawFlags, ModeError>) {
    for mode in modes {
        assert!(rt; compute_mode(mode) == answer, "of {mode}");
    }
}

#[test]
fn each_letter_gives_its_flags_in_any_order(rt: HostRuntime) {
    let reads = RawFlags::READABLE;
    let writes = RawFlags::WRITABLE;
    let creates = RawFlags::CREATED | writes;
    let appends = RawFlags::APPENDING | writes;
    for (modes, flags) in [
        (["r", "rb", "br", "bbrb"], reads),
        (["r+", "rb+", "+r", "w+"], reads | writes),
        (["w", "wb", "bw", "wbb"], writes),
        (["x", "xb", "bx", "xbb"], creates),
        (["x+", "xb+", "+x", "b+x"], creates | reads),
        (["a", "ab", "ba", "abb"], appends),
        (["a+", "ab+", "+ba", "b+a"], appends | reads),
    ] {
        assert_computes(&rt, &modes, Ok(flags));
    }
}

/// Modes without just one letter for files, or with more than one plus.
const BAD_RWA: [&str; 10] = ["", "b", "+", "rr", "rw", "rwb", "xa", "r+b+", "++", "rwt"];

/// Modes whose first letter that offends is none of a mode.
const INVALID: [&str; 8] = ["rt", "rtw", "t", "R", "U", "r ", "ré", "\u{1F600}"];

#[test]
fn the_first_letter_that_offends_decides(rt: HostRuntime) {
    assert_computes(&rt, &BAD_RWA, Err(ModeError::BadRwa));
    assert_computes(&rt, &INVALID, Err(ModeError::Invalid));
}
