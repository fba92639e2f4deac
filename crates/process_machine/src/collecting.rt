//! The ends of children.
ghost use Rattle.std.specs.Prelude.{◌≡◌, ◌<◌, IfOk, IfSome, length, vec_len};

use crate::hearing::Hear;
use crate::spawning::Flying;
use crate::trouble::Trouble;
use crate::world::World;
use proc_host::ChildEnd;
use std::alloc::Global;
use std::fs::OpenFile;
use std::io::{Read, Seek};
use std::os::unix::process::ExitStatusExt;
use std::process::{ExitStatus, OpenProcess};
use std::time::{Duration, Instant};

/// The shortest and the longest time between two looks at the children, in microseconds.
const LEAST_DELAY: u64 = 50;

const MOST_DELAY: u64 = 1_000;

/// The time between two looks at what the children have written, in milliseconds.
const HEARING_DELAY: u64 = 50;

/// A child that a signal ended.
#[derive(Clone, Copy, Debug, Drop, PartialEq, Eq)]
pub(crate) struct Killed {
    pub(crate) ticket: u64,
    pub(crate) signal: i32,
}

/// Waits for the end of a child, and takes that child out: of those that have ended the oldest. With one child of which nothing is
/// handed on it waits for that one; else it looks at each in turn, and sleeps for a hundredth of the time waited between two looks.
/// Which signal ended it is kept, if there is room for that.
pub(crate) fn next_end<R: World, H: Hear>(
    rt: &R,
    flying: &mut Vec<Flying<R::Started, R::File>>,
    killed: &mut Vec<Killed>,
    hearer: &mut H,
) -> Result<ChildEnd, Trouble> {
    match flying.len() {
        0 => Err(Trouble::Failed),
        1 if flying[0].messages.is_none() => {
            let status = flying[0].child.wait()?;
            taken(rt, flying, killed, 0, status)
        }
        _ => {
            let (index, status) = next_of_several(rt, flying, hearer)?;
            // What was written before the end is told before it.
            hand_on_all(rt.alloc(), flying, hearer);
            hand_on(rt.alloc(), &mut flying[index], true, hearer);
            taken(rt, flying, killed, index, status)
        }
    }
}

fn next_of_several<R: World, H: Hear>(
    rt: &R,
    flying: &mut [Flying<R::Started, R::File>],
    hearer: &mut H,
) -> Result<(usize, ExitStatus), Trouble>
    ensures { IfOk result (λ ended. ended.0 < length flying.new) }
{
    let start = Instant::now(rt)?;
    let mut next = 0;
    for _ in 0..u64::MAX {
        if let Some(ended) = first_ended(flying)? {
            return Ok(ended);
        }
        let waited = start.elapsed(rt)?;
        let turn = whole_millis(waited) / HEARING_DELAY;
        if turn >= next {
            hand_on_all(rt.alloc(), flying, hearer);
            next = turn.saturating_add(1);
        }
        rt.sleep(delay_after(waited));
    }
    Err(Trouble::Failed)
}

// The first child that has ended, and how.
fn first_ended<P: OpenProcess + Drop, F: OpenFile + Drop>(
    flying: &mut [Flying<P, F>],
) -> Result<Option<(usize, ExitStatus)>, Trouble>
    ensures { IfOk result (λ ended. IfSome ended (λ found. found.0 < length flying.new)) }
{
    for index in 0..flying.len() {
        if let Some(status) = flying[index].child.try_wait()? {
            return Ok(Some((index, status)));
        }
    }
    Ok(None)
}

fn hand_on_all<P: OpenProcess + Drop, F: OpenFile + Read + Seek + Drop, H: Hear>(
    alloc: Global,
    flying: &mut [Flying<P, F>],
    hearer: &mut H,
)
    ensures { length flying.new ≡ length flying.old }
{
    for index in 0..flying.len() {
        hand_on(alloc, &mut flying[index], false, hearer);
    }
}

// What can't be read is left out.
fn hand_on<P: OpenProcess + Drop, F: OpenFile + Read + Seek + Drop, H: Hear>(
    alloc: Global,
    child: &mut Flying<P, F>,
    is_last: bool,
    hearer: &mut H,
) {
    if let Some(messages) = &mut child.messages {
        let _handed_on = messages.hand_on(alloc, child.ticket, is_last, hearer);
    }
}

fn taken<R: World>(
    rt: &R,
    flying: &mut Vec<Flying<R::Started, R::File>>,
    killed: &mut Vec<Killed>,
    index: usize,
    status: ExitStatus,
) -> Result<ChildEnd, Trouble>
    requires { index < vec_len flying.old }
{
    let ended = flying.remove(index);
    if let Some(signal) = status.signal() {
        let _kept = killed.push(Killed {
            ticket: ended.ticket,
            signal,
        });
    }
    Ok(ChildEnd {
        ticket: ended.ticket,
        code: status.code(),
        millis: whole_millis(ended.started.elapsed(rt)?),
    })
}

// How long to sleep after having waited so long.
fn delay_after(waited: Duration) -> Duration {
    let part = waited.as_micros() / 100;
    let micros = u64::try_from(part).unwrap_or(MOST_DELAY);
    Duration::from_micros(micros.clamp(LEAST_DELAY, MOST_DELAY))
}

fn whole_millis(time: Duration) -> u64 {
    u64::try_from(time.as_millis()).unwrap_or(u64::MAX)
}
