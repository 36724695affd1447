//! Compares the codecs and the plain slow program with what they must answer, and prints how many answers agree.
//!
//! The words are the paths of six tables. They are data of this program: five have what another program answers, CPython's
//! codecs and its texts, and vectors/make_vectors made them (docs/CODECS.md); the last is text, and its head says how a row is
//! written.
#![tactic(auto)]

mod blocks;
mod codec;
mod cuts;
mod fronts;
mod padding;
mod pieces;
mod pieces_of_texts;
mod records;
mod rows;
mod tables;
mod tally;
mod texts;
mod words;

use std::{env, fs, io};
use tables::Table;
use tally::Tally;

fn print(rt: &HostRuntime, what: &str, tally: &Tally) -> io::Result<()> {
    println!(rt;
        "{what}: {} inputs, {} answers agree, {} differ",
        tally.inputs, tally.agree, tally.differ
    )?;
    match &tally.first {
        Some(first) => println!(rt; "  the first that differs: {first}"),
        None => Ok(()),
    }
}

/// A table of another program's answers.
fn compare_table(rt: &HostRuntime, what: &str, table: Table, path: &str) -> io::Result<()> {
    let bytes = fs::read(rt, path)?;
    print(rt, what, &tables::compare(rt.alloc(), table, &bytes)?)
}

/// The table of rows, and the cuts of the bytes in it.
fn compare_rows(rt: &HostRuntime, path: &str) -> io::Result<()> {
    let bytes = fs::read(rt, path)?;
    let Ok(table) = str::from_utf8(&bytes) else {
        return rt.println("the rows are malformed: no UTF-8");
    };
    let (tallies, out_of_form) = rows::compare(rt.alloc(), table)?;
    print(rt, "decode rows", &tallies.decodings)?;
    print(rt, "encode rows", &tallies.encodings)?;
    print(rt, "pieces rows", &tallies.pieces)?;
    print(rt, "front rows", &tallies.fronts)?;
    print(rt, "cuts", &tallies.cuts)?;
    match &out_of_form {
        Some(place) => println!(rt; "malformed, and the end of the rows: {place}"),
        None => Ok(()),
    }
}

fn main(rt: HostRuntime) -> io::Result<()> {
    let mut words = env::args(&rt)?.skip(1);
    let (
        Some(decodings),
        Some(surrogates),
        Some(encodings),
        Some(texts),
        Some(pieces),
        Some(rows),
    ) = (
        words.next(),
        words.next(),
        words.next(),
        words.next(),
        words.next(),
        words.next(),
    ) else {
        return rt.println(
            "usage: py_codec_vectors <decodings> <surrogates> <encodings> <texts> <pieces> <rows>",
        );
    };
    compare_table(&rt, "decoding", Table::Decodings, decodings.as_str())?;
    compare_table(&rt, "surrogates", Table::Surrogates, surrogates.as_str())?;
    compare_table(&rt, "encoding", Table::Encodings, encodings.as_str())?;
    compare_table(&rt, "texts", Table::Texts, texts.as_str())?;
    compare_table(
        &rt,
        "pieces of texts",
        Table::PiecesOfTexts,
        pieces.as_str(),
    )?;
    compare_rows(&rt, rows.as_str())?;
    print(&rt, "blocks", &blocks::compare(rt.alloc())?)?;
    print(&rt, "long texts", &blocks::compare_long(rt.alloc())?)
}
