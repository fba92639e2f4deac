//! What comes of a job once its child has ended well, until its outputs are collected.
ghost use Rattle.std.specs.Prelude.{◌≡◌, [], unwrap_or, IfOk, OnOk, reverse};
ghost use Rattle.collected_outputs.specs.HeadsWanted.{AreHeadsWanted, limit_of};
ghost use Rattle.collected_outputs.specs.Listing.{listing_of};
ghost use Rattle.proc_host.specs.declared.call.HostRequest.{HostRequest as Call};
ghost use Rattle.run_core.specs.inner.Due.{Collects, CollectsFirst, CollectsPast, Gathers, Scans};
ghost use Rattle.run_core.specs.inner.Turns.{PutsNext};
ghost use Rattle.run_rules.specs.Folders.{out_folder};
ghost use Rattle.staging.specs.Groups.{path_in as path_under};

use crate::folders::{out_folder, path_in};
use crate::keeping::kept as kept_as;
use crate::site::Site;
use crate::state::{JobNext, JobPhase, Kept, Reading};
use crate::turn::failing;
use crate::turns::{last_first, put_next};
use crate::{Cause, CollectCause};
use collected_outputs::{
    CollectError, LeftBehind, StreamNames, collect_outputs, head_limit, heads_wanted,
};
use plain_data::{Items, Keyed, Text};
use proc_host::HostRequest;
use staging::{Found, listing_in};
use std::alloc::{AllocError, Global};
use std::mem;

/// The output folder is listed next.
pub(crate) fn scanning(
    alloc: Global,
    site: Site<'_, '_, '_>,
    kept: Kept,
    millis: u64,
) -> Result<JobNext, AllocError>
    ensures { IfOk result (Scans site.entry kept millis) }
{
    match out_folder(alloc, &site.options.work, site.folder) {
        Ok(folder) => {
            Ok(JobNext::Asks(HostRequest::Scan(folder), JobPhase::Scanning(kept, millis)))
        }
        Err(error) => {
            mem::drop(kept);
            Err(error)
        }
    }
}

/// The output folder is listed: the first bytes of the files that need it are read, and then the outputs are collected.
pub(crate) fn listed(
    alloc: Global,
    site: Site<'_, '_, '_>,
    kept: Kept,
    millis: u64,
    found: &Items<Found>,
) -> Result<JobNext, AllocError>
    ensures { IfOk result (CollectsFirst site.entry kept millis found.now) }
{
    match first_reading(alloc, site, &kept, millis, found) {
        Ok(reading) => read_on(alloc, site, kept, reading),
        Err(error) => {
            mem::drop(kept);
            Err(error)
        }
    }
}

/// What is read before any first bytes are.
fn first_reading(
    alloc: Global,
    site: Site<'_, '_, '_>,
    kept: &Kept,
    millis: u64,
    found: &Items<Found>,
) -> Result<Reading, AllocError>
    ensures millis { IfOk result (λ reading. reading.millis ≡ millis) }
    ensures found { IfOk result (λ reading. reading.found ≡ found.now) }
    ensures left { IfOk result (λ reading. AreHeadsWanted (listing_of found.now) kept.now.inputs
        site.entry.tool.now.outputs (reverse reading.left)) }
    ensures heads { IfOk result (λ reading. reading.heads ≡ []) }
{
    Ok(Reading {
        millis,
        left: names_left(alloc, site, kept, found.as_slice())?,
        found: listing_in(alloc, found)?,
        heads: Keyed::new(alloc),
    })
}

/// The names of the files whose first bytes are read, the first of them last.
fn names_left(
    alloc: Global,
    site: Site<'_, '_, '_>,
    kept: &Kept,
    found: &[Found],
) -> Result<Items<Text>, AllocError>
    ensures { IfOk result (λ left. AreHeadsWanted (listing_of found.now) kept.now.inputs
        site.entry.tool.now.outputs (reverse left)) }
{
    match heads_wanted(alloc, site.tool, &kept.inputs, found) {
        Ok(wanted) => Ok(last_first(wanted)),
        Err(_) => Err(AllocError),
    }
}

/// The first bytes of a file are read.
pub(crate) fn read(
    alloc: Global,
    site: Site<'_, '_, '_>,
    kept: Kept,
    mut reading: Reading,
    bytes: &Items<u8>,
) -> Result<JobNext, AllocError>
    ensures { IfOk result (CollectsPast site.entry kept reading bytes.now) }
{
    put_head(alloc, &mut reading, bytes)?;
    read_on(alloc, site, kept, reading)
}

/// Puts the first bytes of the file whose turn it is under its name.
fn put_head(alloc: Global, reading: &mut Reading, bytes: &Items<u8>) -> Result<(), AllocError>
    ensures puts { OnOk result (PutsNext reading.old.left reading.old.heads bytes.now
        reading.new.left reading.new.heads) }
    ensures found { reading.new.found ≡ reading.old.found }
    ensures millis { reading.new.millis ≡ reading.old.millis }
{
    let bytes = Items::from_vec(bytes.as_slice().to_vec(alloc)?);
    put_next(&mut reading.left, &mut reading.heads, bytes)
}

/// The next file's first bytes are read; where all are, the outputs are collected.
fn read_on(
    alloc: Global,
    site: Site<'_, '_, '_>,
    kept: Kept,
    reading: Reading,
) -> Result<JobNext, AllocError>
    ensures { IfOk result (Collects site.entry kept reading.millis reading.found reading.heads
        (reverse reading.left)) }
{
    // That a list has fewer items than 2^64 is a fact of its type.
    let _few = reading.left.len();
    match reading.left.as_slice() {
        [] => gathered_from(alloc, site, kept, reading),
        [.., name] => {
            let asks = head_of(alloc, site, name)?;
            Ok(JobNext::Asks(asks, JobPhase::Reading(kept, reading)))
        }
    }
}

/// Asks for the first bytes of a file of the output folder.
fn head_of(alloc: Global, site: Site<'_, '_, '_>, name: &Text) -> Result<HostRequest, AllocError>
    ensures { IfOk result (λ asks. asks
        ≡ Call.Head (path_under (out_folder site.entry.options.now.work site.entry.folder) name.now)
        (limit_of name.now)) }
{
    let folder = out_folder(alloc, &site.options.work, site.folder)?;
    let path = path_in(alloc, &folder, name)?;
    Ok(HostRequest::Head(path, head_limit(name.as_str())))
}

fn name_or_empty(name: &Option<Text>) -> &str
    ensures { result.now ≡ unwrap_or name.now [] }
{
    match name {
        None => "",
        Some(name) => name.as_str(),
    }
}

fn gathered_from(
    alloc: Global,
    site: Site<'_, '_, '_>,
    kept: Kept,
    reading: Reading,
) -> Result<JobNext, AllocError>
    ensures { IfOk result (Gathers site.entry kept reading.millis reading.found reading.heads) }
{
    gathered(alloc, site, &kept, &reading)
}

/// The outputs are collected, or there is a cause why there are none.
fn gathered(
    alloc: Global,
    site: Site<'_, '_, '_>,
    kept: &Kept,
    reading: &Reading,
) -> Result<JobNext, AllocError>
    ensures { IfOk result (Gathers site.entry kept.now reading.now.millis reading.now.found
        reading.now.heads) }
{
    let streams = StreamNames {
        stdout: name_or_empty(&kept.stdout),
        stderr: name_or_empty(&kept.stderr),
    };
    let found = reading.found.as_slice();
    let left = LeftBehind {
        inputs: &kept.inputs,
        streams,
        found,
        heads: &reading.heads,
    };
    match collect_outputs(alloc, site.tool, left) {
        Ok(outputs) => kept_as(alloc, site, reading, outputs),
        Err(CollectError::Refused(fault)) => {
            let cause = CollectCause::Output(fault);
            Ok(failing(Cause::Collect(cause)))
        }
        Err(CollectError::OutOfMemory) => Err(AllocError),
    }
}
