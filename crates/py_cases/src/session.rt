//! Running the session of a case, and what came.

use crate::report::{Report, hex_of};
use anyhow::Result;
use py_case_sessions::{Block, Opened, SessionCase, open};
use py_flat::Life;
use py_open::{Call, Detached};
use py_raw::RawStream;
use py_raw_memory::MemRaw;
use py_stream::NewRefused;

/// Runs the session of a block: each reply, the life, what is handed back, and what the raw came to.
pub(crate) fn run_session_block(block: &Block<'_>, report: &mut Report) -> Result<()> {
    let alloc = report.alloc;
    let case = SessionCase::parse(alloc, block.head, block.lines.as_slice())?;
    match open(alloc, &case)? {
        Ok(opened) => run_opened(opened, &case, report),
        Err(refused) => report_refused(&refused, report),
    }
}

/// Makes the calls of a case on its session, which ends then. Here and below nothing of a session is in hand where a `?` stands: the
/// proof of each would have that all of it may be dropped.
fn run_opened(opened: Opened, case: &SessionCase<'_>, report: &mut Report) -> Result<()> {
    let mut opened = opened;
    let made = make_calls(&mut opened, case, report);
    let life = life_word(opened.life());
    let handed = opened.finish();
    let ended = report_end(life, &handed, report);
    made.and(ended)
}

/// Makes the calls of a case, and a detach where it has one of a session that failed.
fn make_calls(opened: &mut Opened, case: &SessionCase<'_>, report: &mut Report) -> Result<()> {
    for call in &case.calls {
        make_call(opened, call, report)?;
    }
    if case.detaches && opened.life() == Life::Failed {
        make_call(opened, &Call::Detach, report)?;
    }
    Ok(())
}

/// Makes a call, and reports its answer.
fn make_call(opened: &mut Opened, call: &Call, report: &mut Report) -> Result<()> {
    let reply = opened.call(report.alloc, call);
    report.reply(&reply, opened.short())
}

/// Reports a refused opening, and the raw that was handed back.
fn report_refused(refused: &NewRefused<MemRaw>, report: &mut Report) -> Result<()> {
    report.refused(refused.fault)?;
    report_raw(&refused.raw, report)
}

/// Reports the life of a session, and what is handed back.
fn report_end(life: &str, handed: &Detached<MemRaw>, report: &mut Report) -> Result<()> {
    let owed = hex_of(report.alloc, handed.unwritten.as_slice())?;
    let line = match handed.place {
        Some(place) => format!(in report.alloc; "{life}, owes {owed} at {place}")?,
        None => format!(in report.alloc; "{life}, owes {owed}")?,
    };
    report.line(line.as_str())?;
    report_raw(&handed.raw, report)
}

/// Reports a raw: its bytes, where it stands, its transfers, faults and waits, and whether it is closed.
fn report_raw(raw: &MemRaw, report: &mut Report) -> Result<()> {
    let line = format!(in report.alloc;
        "raw {} at {}, transfers {}, faults {}, waits {}{}",
        hex_of(report.alloc, raw.bytes_of())?,
        raw.place_of(),
        raw.transfer_count(),
        raw.fault_count(),
        raw.wait_count(),
        if raw.closed() { ", closed" } else { "" }
    )?;
    report.line(line.as_str())
}

fn life_word(life: Life) -> &'static str {
    match life {
        Life::Live => "live",
        Life::Failed => "failed",
        Life::Closed => "closed",
        Life::Detached => "detached",
    }
}
