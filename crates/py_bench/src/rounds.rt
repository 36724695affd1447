use std::io;
use std::time::{Duration, Instant};

/// Does some work in each of some rounds; answers what came at last, and the time of the fastest round. Nothing comes of no rounds.
///
/// What `prepare` makes for a round is made before its clock begins.
pub fn best_of<P: Drop, T: Drop, M: FnMut() -> P, F: FnMut(P) -> T>(
    rt: &HostRuntime,
    rounds: u32,
    prepare: M,
    work: F,
) -> io::Result<(Option<T>, Duration)>
    requires prepare { M.IsAlwaysCallable prepare }
    requires work { F.IsAlwaysCallable work }
{
    let mut prepare = prepare;
    let mut work = work;
    let mut came = None;
    let mut best = Duration::MAX;
    for _ in 0..rounds {
        let prepared = prepare();
        let start = Instant::now(rt)?;
        came = Some(work(prepared));
        best = best.min(start.elapsed(rt)?);
    }
    Ok((came, best))
}
