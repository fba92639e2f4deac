//! The first bytes that are wanted of the files that were found.
ghost use Rattle.std.specs.Prelude.{◌≡◌, ◌++◌, false, Ok, IfOk, IfErr, OnOk, filter};
ghost use Rattle.collected_outputs.specs.HeadsWanted as spec;
ghost use Rattle.collected_outputs.specs.Listing.{listing_of};
ghost use Rattle.collected_outputs.specs.Outputs.{has_object};
ghost use Rattle.collected_outputs.specs.declared.fault.CollectError.TheVariants.{OutOfMemory};
ghost use Rattle.collected_outputs.specs.inner.Steps.{texts_by, NoNames};
ghost use Rattle.collected_outputs.specs.inner.Wanted.{AddsWanted, IsOnceOf, NoneWanted};

use crate::collect::{Folder, StreamNames, names_of, object_entry};
use crate::evaluation::{Speaks, runtime_of};
use crate::fault::{CollectError, Stop};
use crate::listing::{Entry, listing_of};
use crate::matches::without_repeats;
use crate::object::{MOST_OBJECT, OUTPUT_OBJECT};
use cwl_process::{OutputType, Tool, ToolOutput};
use cwl_value::{MOST_CONTENTS, Value};
use plain_data::{Items, Keyed, Text};
use staging::Found;
use std::alloc::{AllocError, Global};

/// The most bytes that are read of the file of that name.
pub fn head_limit(name: &str) -> u64
    ensures { result ≡ spec.limit_of name.now }
{
    if name == OUTPUT_OBJECT {
        MOST_OBJECT
    } else {
        MOST_CONTENTS
    }
}

/// Finds which files' first bytes `collect_outputs` has to be given: of `cwl.output.json` alone where it is found, and
/// else of each File whose contents an output asks for, where every pattern is read.
///
/// # Errors
///
/// Out of memory alone.
pub fn heads_wanted(
    alloc: Global,
    tool: &Tool,
    inputs: &Keyed<Value>,
    found: &[Found],
) -> Result<Items<Text>, CollectError>
    ensures ok { IfOk result (spec.AreHeadsWanted (listing_of found.now) inputs.now
        tool.now.outputs) }
    ensures err { IfErr result (λ e. e ≡ OutOfMemory) }
{
    let listing = listing_of(alloc, found)?;
    let wanted = wanted_in(alloc, tool, inputs, &listing);
    drop(listing);
    wanted
}

fn wanted_in(
    alloc: Global,
    tool: &Tool,
    inputs: &Keyed<Value>,
    listing: &Keyed<Entry>,
) -> Result<Items<Text>, CollectError>
    ensures ok { IfOk result (spec.AreHeadsWanted listing.now inputs.now tool.now.outputs) }
    ensures err { IfErr result (λ e. e ≡ OutOfMemory) }
{
    match object_entry(listing) {
        Some(entry) => Ok(object_wanted(alloc, entry)?),
        None => wanted_without_object(alloc, tool, inputs, listing),
    }
}

fn wanted_without_object(
    alloc: Global,
    tool: &Tool,
    inputs: &Keyed<Value>,
    listing: &Keyed<Entry>,
) -> Result<Items<Text>, CollectError>
    requires { has_object listing.now ≡ false }
    ensures ok { IfOk result (spec.AreHeadsWanted listing.now inputs.now tool.now.outputs) }
    ensures err { IfErr result (λ e. e ≡ OutOfMemory) }
{
    let no_heads = Keyed::new(alloc);
    let no_streams = StreamNames {
        stdout: "",
        stderr: "",
    };
    let wanted = wanted_by_outputs(alloc, tool, inputs, no_streams, listing, &no_heads);
    drop(no_heads);
    wanted
}

fn object_wanted(alloc: Global, entry: &Entry) -> Result<Items<Text>, AllocError>
    ensures { IfOk result (λ names. names ≡ spec.object_wanted entry.now) }
{
    let mut names = Items::new(alloc);
    if entry.size <= MOST_OBJECT {
        names.push(Text::from_text(alloc, OUTPUT_OBJECT)?)?;
    }
    Ok(names)
}

fn wanted_by_outputs(
    alloc: Global,
    tool: &Tool,
    inputs: &Keyed<Value>,
    streams: StreamNames<'_>,
    listing: &Keyed<Entry>,
    heads: &Keyed<Items<u8>>,
) -> Result<Items<Text>, CollectError>
    requires { has_object listing.now ≡ false }
    ensures ok { IfOk result (spec.AreHeadsWanted listing.now inputs.now tool.now.outputs) }
    ensures err { IfErr result (λ e. e ≡ OutOfMemory) }
{
    let runtime = runtime_of(alloc)?;
    let folder = Folder {
        listing,
        heads,
        streams,
        speaks: Speaks {
            inputs,
            runtime: &runtime,
        },
    };
    let wanted = all_wanted(alloc, tool.outputs.as_slice(), folder);
    drop(runtime);
    each_once(alloc, wanted)
}

fn all_wanted(
    alloc: Global,
    outputs: &[(Text, ToolOutput)],
    folder: Folder<'_>,
) -> Result<Items<Text>, Stop>
    ensures ok { IfOk result (λ wanted. spec.AreWantedBy folder.entry.listing.now
        folder.entry.speaks.inputs.now folder.entry.speaks.runtime.now outputs.now (Ok wanted)) }
    ensures err { IfErr result (NoneWanted folder.entry.listing.now folder.entry.speaks.inputs.now
        folder.entry.speaks.runtime.now outputs.now) }
{
    let mut wanted = Items::new(alloc);
    for output in outputs {
        push_wanted(alloc, &output.1, folder, &mut wanted)?;
    }
    Ok(wanted)
}

fn push_wanted(
    alloc: Global,
    output: &ToolOutput,
    folder: Folder<'_>,
    wanted: &mut Items<Text>,
) -> Result<(), Stop>
    ensures ok { OnOk result (AddsWanted folder.entry.listing.now output.now
        (texts_by folder.entry output.now) wanted.old wanted.new) }
    ensures err { IfErr result
        (NoNames folder.entry.listing.now (texts_by folder.entry output.now)) }
{
    let names = names_of(alloc, output, folder)?;
    if loads(output) {
        push_short(alloc, folder.listing, names.as_slice(), wanted)?;
    }
    Ok(())
}

fn loads(output: &ToolOutput) -> bool
    ensures { result ≡ spec.loads output.now.kind output.now.binding }
{
    match &output.kind {
        OutputType::Members(_) => match &output.binding {
            None => false,
            Some(binding) => binding.load_contents,
        },
        _ => false,
    }
}

fn push_short(
    alloc: Global,
    listing: &Keyed<Entry>,
    names: &[Text],
    wanted: &mut Items<Text>,
) -> Result<(), AllocError>
    ensures { OnOk result (wanted.new ≡ wanted.old
        ++ filter (spec.is_short listing.now) names.now) }
{
    for name in names {
        if is_short(listing, name.as_str()) {
            wanted.push(name.copied(alloc)?)?;
        }
    }
    Ok(())
}

fn is_short(listing: &Keyed<Entry>, name: &str) -> bool
    ensures { result ≡ spec.is_short listing.now name.now }
{
    match listing.get(name) {
        None => false,
        Some(entry) => !entry.is_dir && entry.size <= MOST_CONTENTS,
    }
}

// Each name once, and none where a pattern isn't read.
fn each_once(alloc: Global, wanted: Result<Items<Text>, Stop>) -> Result<Items<Text>, CollectError>
    ensures ok { IfOk result (λ once. IsOnceOf wanted once) }
    ensures err { IfErr result (λ e. e ≡ OutOfMemory) }
{
    match wanted {
        Ok(names) => {
            let once = without_repeats(alloc, names.as_slice());
            drop(names);
            Ok(once?)
        }
        Err(Stop::Refused(_)) => Ok(Items::new(alloc)),
        Err(Stop::OutOfMemory) => Err(CollectError::OutOfMemory),
    }
}
