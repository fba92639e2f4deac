ghost use Rattle.std.specs.Prelude.{◌≡◌, ◌++◌, IfOk, codes};
ghost use Rattle.staging.specs.Groups.{path_in as path_under};
ghost use Rattle.run_rules.specs.Folders.{fetched_folder, in_folder, left_folder, out_folder, tmp_folder, runtime_of};

use crate::Options;
use command_line::Runtime;
use plain_data::Text;
use std::alloc::{AllocError, Global};

/// The output folder of the job that was staged as the `number`-th.
pub(crate) fn out_folder(alloc: Global, work: &Text, number: u64) -> Result<Text, AllocError>
    ensures { IfOk result (λ folder. folder ≡ out_folder work.now number) }
{
    let work = work.as_str();
    Ok(Text::from_string(format!(in alloc; "{work}/j{number}/out")?))
}

/// A folder that has a job's outputs: that of a fetch, or of its child, by the number.
#[derive(Clone, Copy, Drop)]
pub(crate) struct Left {
    pub fetched: bool,
    pub number: u64,
}

/// The path of the folder that has a job's outputs.
pub(crate) fn left_folder(alloc: Global, work: &Text, left: Left) -> Result<Text, AllocError>
    ensures { IfOk result (λ folder. folder ≡ left_folder work.now left.fetched left.number) }
{
    if left.fetched {
        return fetched_folder(alloc, work, left.number);
    }
    out_folder(alloc, work, left.number)
}

/// The folder that the files of the `number`-th request are fetched to.
fn fetched_folder(alloc: Global, work: &Text, number: u64) -> Result<Text, AllocError>
    ensures { IfOk result (λ folder. folder ≡ fetched_folder work.now number) }
{
    let work = work.as_str();
    Ok(Text::from_string(format!(in alloc; "{work}/f{number}/out")?))
}

fn tmp_folder(alloc: Global, work: &Text, number: u64) -> Result<Text, AllocError>
    ensures { IfOk result (λ folder. folder ≡ tmp_folder work.now number) }
{
    let work = work.as_str();
    Ok(Text::from_string(format!(in alloc; "{work}/j{number}/tmp")?))
}

/// The folder that its input files are copied to.
pub(crate) fn in_folder(alloc: Global, work: &Text, number: u64) -> Result<Text, AllocError>
    ensures { IfOk result (λ folder. folder ≡ in_folder work.now number) }
{
    let work = work.as_str();
    Ok(Text::from_string(format!(in alloc; "{work}/j{number}/in")?))
}

/// What the `number`-th job is given to run in.
pub(crate) fn runtime_of(
    alloc: Global,
    options: &Options,
    number: u64,
) -> Result<Runtime, AllocError>
    ensures { IfOk result (λ runtime. runtime ≡ runtime_of options.now number) }
{
    Ok(Runtime {
        outdir: out_folder(alloc, &options.work, number)?,
        tmpdir: tmp_folder(alloc, &options.work, number)?,
        path_env: options.path_env.copied(alloc)?,
    })
}

/// The path of what has this name in a folder.
pub(crate) fn path_in(alloc: Global, folder: &Text, name: &Text) -> Result<Text, AllocError>
    ensures written { IfOk result (λ path. path ≡ folder.now ++ codes "/" ++ name.now) }
    ensures path { IfOk result (λ path. path ≡ path_under folder.now name.now) }
{
    let folder = folder.as_str();
    let name = name.as_str();
    Ok(Text::from_string(format!(in alloc; "{folder}/{name}")?))
}
