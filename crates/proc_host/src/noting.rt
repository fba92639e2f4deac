//! The entries of a scripted host's log.
ghost use Rattle.std.specs.Prelude.{◌≡◌, ◌++◌, ◌∷◌, [], IfOk, OnOk, OnErr};

use crate::{Entry, HostAnswer, HostRequest};
use plain_data::{Items, Text};
use staging::{Found, Measure, listing_in};
use std::alloc::{AllocError, Global};

/// Notes a start in the log, and its ticket among those that run: both, or neither.
pub(crate) fn note_start(
    log: &mut Vec<Entry>,
    running: &mut Vec<u64>,
    request: HostRequest,
    number: u64,
) -> Result<(), AllocError>
    ensures log { OnOk result (log.new.items ≡ log.old.items
        ++ record { request = request; answer = HostAnswer.Started number } ∷ []) }
    ensures running { OnOk result (running.new.items ≡ running.old.items ++ number ∷ []) }
    ensures err { OnErr result ((log.new.items ≡ log.old.items)
        × (running.new.items ≡ running.old.items)) }
{
    running.reserve(1)?;
    log.push(Entry {
        request,
        answer: HostAnswer::Started(number),
    })?;
    running.push(number).unwrap();
    Ok(())
}

/// Notes in the log what is at a path.
pub(crate) fn note_measure(
    alloc: Global,
    log: &mut Vec<Entry>,
    path: &Text,
    measure: &Measure,
) -> Result<(), AllocError>
    ensures log { OnOk result (log.new.items ≡ log.old.items
        ++ record {
          request = HostRequest.Measure path.now;
          answer = HostAnswer.Measured
              measure.now;
        } ∷ []) }
    ensures err { OnErr result (log.new.items ≡ log.old.items) }
{
    let request = HostRequest::Measure(path.copied(alloc)?);
    let answer = HostAnswer::Measured(measure.clone_in(alloc)?);
    log.push(Entry { request, answer })?;
    Ok(())
}

/// Notes first bytes in the log.
pub(crate) fn note_head(
    alloc: Global,
    log: &mut Vec<Entry>,
    path: &Text,
    limit: u64,
    bytes: &Items<u8>,
) -> Result<(), AllocError>
    ensures log { OnOk result (log.new.items ≡ log.old.items
        ++ record {
          request = HostRequest.Head path.now limit;
          answer = HostAnswer.FirstBytes
              bytes.now;
        } ∷ []) }
    ensures err { OnErr result (log.new.items ≡ log.old.items) }
{
    let request = HostRequest::Head(path.copied(alloc)?, limit);
    let answer = HostAnswer::FirstBytes(bytes_in(alloc, bytes)?);
    log.push(Entry { request, answer })?;
    Ok(())
}

/// A copy in memory of its own.
pub(crate) fn bytes_in(alloc: Global, bytes: &Items<u8>) -> Result<Items<u8>, AllocError>
    ensures { IfOk result (λ copy. copy ≡ bytes.now) }
{
    Ok(Items::from_vec(Vec::from_slice(alloc, bytes.as_slice())?))
}

/// Notes a listing in the log.
pub(crate) fn note_scan(
    alloc: Global,
    log: &mut Vec<Entry>,
    folder: &Text,
    listed: &Items<Found>,
) -> Result<(), AllocError>
    ensures log { OnOk result (log.new.items ≡ log.old.items
        ++ record {
          request = HostRequest.Scan folder.now;
          answer = HostAnswer.Listed
              listed.now;
        } ∷ []) }
    ensures err { OnErr result (log.new.items ≡ log.old.items) }
{
    let request = HostRequest::Scan(folder.copied(alloc)?);
    let answer = HostAnswer::Listed(listing_in(alloc, listed)?);
    log.push(Entry { request, answer })?;
    Ok(())
}

/// Notes in the log what was there of a fetch's files.
pub(crate) fn note_fetch(
    alloc: Global,
    log: &mut Vec<Entry>,
    request: HostRequest,
    found: &Items<Found>,
) -> Result<(), AllocError>
    ensures log { OnOk result (log.new.items ≡ log.old.items
        ++ record { request = request; answer = HostAnswer.Fetched found.now } ∷ []) }
    ensures err { OnErr result (log.new.items ≡ log.old.items) }
{
    let answer = HostAnswer::Fetched(listing_in(alloc, found)?);
    log.push(Entry { request, answer })?;
    Ok(())
}
