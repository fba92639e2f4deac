//! What comes of a job once it is staged, until its child is asked for.
ghost use Rattle.std.specs.Prelude.{◌≡◌, [], IfErr, IfOk, OnOk, reverse};
ghost use Rattle.command_line.specs.Launch.{IsError, IsLaunch};
ghost use Rattle.input_files.specs.Contents.{heads_wanted as wanted_heads};
ghost use Rattle.proc_host.specs.declared.call.HostRequest.{HostRequest as Call};
ghost use Rattle.run_core.specs.declared.state.JobNext.{JobNext as Next};
ghost use Rattle.run_core.specs.declared.state.JobPhase.{JobPhase as InPhase};
ghost use Rattle.run_core.specs.inner.Due.{Launches, Starts, StartsPast, kept_of};
ghost use Rattle.run_core.specs.inner.Turns.{PutsNext};
ghost use Rattle.run_rules.specs.Folders.{runtime_of};

use crate::folders::runtime_of;
use crate::site::Site;
use crate::state::{Filling, JobNext, JobPhase, Kept};
use crate::turn::failing;
use crate::turns::{last_first, put_next};
use crate::{Cause, CollectCause};
use command_line::{BuildError, Launch, build};
use cwl_value::{MOST_CONTENTS, Value, copy_fields};
use input_files::{ContentsError, heads_wanted, with_contents};
use plain_data::{Items, Keyed, Text, copied_if_any};
use proc_host::HostRequest;
use std::alloc::{AllocError, Global};
use std::mem;

/// The job's folders are made: the contents of its inputs are read, and then it is started.
pub(crate) fn filled_first(
    alloc: Global,
    site: Site<'_, '_, '_>,
    staged: &Keyed<Value>,
) -> Result<JobNext, AllocError>
    ensures { IfOk result
        (λ next. Starts site.entry staged.now []
        (wanted_heads site.entry.tool.now.inputs staged.now) next) }
{
    let filling = first_filling(alloc, site, staged)?;
    fill_on(alloc, site, filling)
}

fn first_filling(
    alloc: Global,
    site: Site<'_, '_, '_>,
    staged: &Keyed<Value>,
) -> Result<Filling, AllocError>
    ensures staged { IfOk result (λ filling. filling.staged ≡ staged.now) }
    ensures left { IfOk result (λ filling. filling.left
        ≡ reverse (wanted_heads site.entry.tool.now.inputs staged.now)) }
    ensures heads { IfOk result (λ filling. filling.heads ≡ []) }
{
    let wanted = heads_wanted(alloc, site.tool.inputs.as_slice(), staged)?;
    Ok(Filling {
        left: last_first(wanted),
        staged: copy_fields(alloc, staged)?,
        heads: Keyed::new(alloc),
    })
}

/// The first bytes of an input file are read.
pub(crate) fn filled(
    alloc: Global,
    site: Site<'_, '_, '_>,
    mut filling: Filling,
    bytes: &Items<u8>,
) -> Result<JobNext, AllocError>
    ensures { IfOk result (StartsPast site.entry filling bytes.now) }
{
    put_contents(alloc, &mut filling, bytes)?;
    fill_on(alloc, site, filling)
}

fn put_contents(alloc: Global, filling: &mut Filling, bytes: &Items<u8>) -> Result<(), AllocError>
    ensures puts { OnOk result (PutsNext filling.old.left filling.old.heads bytes.now
        filling.new.left filling.new.heads) }
    ensures staged { filling.new.staged ≡ filling.old.staged }
{
    let bytes = Items::from_vec(bytes.as_slice().to_vec(alloc)?);
    put_next(&mut filling.left, &mut filling.heads, bytes)
}

/// The next input file's contents are read; where all are, the job is started.
fn fill_on(alloc: Global, site: Site<'_, '_, '_>, filling: Filling) -> Result<JobNext, AllocError>
    ensures { IfOk result (λ next. Starts site.entry filling.staged filling.heads
        (reverse filling.left) next) }
{
    // That a list has fewer items than 2^64 is a fact of its type.
    let _few = filling.left.len();
    match filling.left.as_slice() {
        [] => inputs_filled(alloc, site, filling),
        [.., path] => {
            let asks = HostRequest::Head(path.copied(alloc)?, MOST_CONTENTS);
            Ok(JobNext::Asks(asks, JobPhase::Filling(filling)))
        }
    }
}

/// The job is started on these inputs, or there is a fault of their contents.
fn inputs_filled(
    alloc: Global,
    site: Site<'_, '_, '_>,
    filling: Filling,
) -> Result<JobNext, AllocError>
    requires { filling.left ≡ [] }
    ensures { IfOk result (λ next. Starts site.entry filling.staged filling.heads [] next) }
{
    let Filling {
        staged,
        left: _,
        heads,
    } = filling;
    let found = with_contents(alloc, site.tool.inputs.as_slice(), staged, &heads);
    mem::drop(heads);
    match found {
        Ok(inputs) => launched(alloc, site, inputs),
        Err(ContentsError::Refused(fault)) => Ok(failing(Cause::Collect(CollectCause::Input(
            fault,
        )))),
        Err(ContentsError::OutOfMemory) => Err(AllocError),
    }
}

/// The job is started by its launch, or has none.
fn launched(
    alloc: Global,
    site: Site<'_, '_, '_>,
    inputs: Keyed<Value>,
) -> Result<JobNext, AllocError>
    ensures { IfOk result (Launches site.entry inputs) }
{
    match launch_of(alloc, site, &inputs) {
        Ok(launch) => starting(alloc, launch, inputs),
        Err(BuildError::Refused(fault)) => {
            mem::drop(inputs);
            Ok(failing(Cause::Build(fault)))
        }
        Err(BuildError::OutOfMemory) => {
            mem::drop(inputs);
            Err(AllocError)
        }
    }
}

fn launch_of(
    alloc: Global,
    site: Site<'_, '_, '_>,
    inputs: &Keyed<Value>,
) -> Result<Launch, BuildError>
    ensures ok { IfOk result
        (IsLaunch site.entry.tool.now inputs.now
        (runtime_of site.entry.options.now site.entry.folder)) }
    ensures err { IfErr result
        (IsError site.entry.tool.now inputs.now
        (runtime_of site.entry.options.now site.entry.folder)) }
{
    let runtime = runtime_of(alloc, site.options, site.folder)?;
    build(alloc, site.tool, inputs, &runtime)
}

/// The child is to be started.
fn starting(alloc: Global, launch: Launch, inputs: Keyed<Value>) -> Result<JobNext, AllocError>
    ensures { IfOk result (λ next. next
        ≡ Next.Asks (Call.Start launch) (InPhase.Starting (kept_of inputs launch))) }
{
    let kept = kept_of(alloc, &launch, inputs)?;
    Ok(JobNext::Asks(HostRequest::Start(launch), JobPhase::Starting(kept)))
}

/// What is kept of a job: its inputs, and the names of the files that take its child's streams.
fn kept_of(alloc: Global, launch: &Launch, inputs: Keyed<Value>) -> Result<Kept, AllocError>
    ensures { IfOk result (λ kept. kept ≡ kept_of inputs launch.now) }
{
    Ok(Kept {
        inputs,
        stdout: copied_if_any(alloc, &launch.stdout)?,
        stderr: copied_if_any(alloc, &launch.stderr)?,
    })
}
