//! Names and paths as texts.
ghost use Rattle.std.specs.Prelude.{◌≡◌, ◌==◌, IfOk};
ghost use Rattle.std.specs.List.{before_last, after_last, list_any};
ghost use Rattle.cwl_value.specs.Reading.{is_name};
ghost use Rattle.file_values.specs.Names.{is_slash, without_last_slashes as trimmed};
ghost use Rattle.input_files.specs.Beside.{beside};
ghost use Rattle.input_files.specs.Listing.{path_below};
ghost use Rattle.input_files.specs.Paths.{each_once};

use plain_data::{Items, Text};
use std::alloc::{AllocError, Global};
use std::collections::BTreeSet;

/// The last component of a path.
pub(crate) fn last_of(path: &str) -> &str
    ensures { result.now ≡ after_last is_slash path.now }
{
    match path.rfind('/') {
        Some(at) => &path[at + 1..],
        None => path,
    }
}

/// What is before the last component, without the slash; nothing where there is no slash.
pub(crate) fn front_of(path: &str) -> &str
    ensures { result.now ≡ before_last is_slash path.now }
{
    match path.rfind('/') {
        Some(at) => &path[..at],
        None => "",
    }
}

/// The path of a name in the folder of another path.
pub(crate) fn beside(alloc: Global, path: &str, name: &str) -> Result<Text, AllocError>
    ensures { IfOk result (λ path_beside. path_beside ≡ beside path.now name.now) }
{
    match path.rfind('/') {
        Some(at) => {
            let folder = &path[..at];
            Ok(Text::from_string(format!(in alloc; "{folder}/{name}")?))
        }
        None => Text::from_text(alloc, name),
    }
}

/// The path of a name below a folder.
pub(crate) fn path_below(alloc: Global, folder: &str, name: &str) -> Result<Text, AllocError>
    ensures { IfOk result (λ path. path ≡ path_below folder.now name.now) }
{
    let folder = without_last_slashes(folder);
    Ok(Text::from_string(format!(in alloc; "{folder}/{name}")?))
}

fn without_last_slashes(path: &str) -> &str
    ensures { result.now ≡ trimmed path.now }
{
    let mut whole = path;
    while let Some(front) = whole.strip_suffix('/') {
        whole = front;
    }
    whole
}

/// Whether a file may have this name.
pub(crate) fn is_name(name: &str) -> bool
    ensures { result ≡ is_name name.now }
{
    !(name.is_empty() || name == "." || name == ".." || has_slash(name))
}

fn has_slash(name: &str) -> bool
    ensures { result ≡ list_any (λ c. c == 47) name.now }
{
    name.as_bytes().iter().any(|byte| *byte == b'/')
}

/// Each name once, where it stands first.
pub fn each_once(alloc: Global, names: &[Text]) -> Result<Items<Text>, AllocError>
    ensures { IfOk result (λ once. once ≡ each_once names.now) }
{
    let mut seen = BTreeSet::new(alloc);
    let mut once = Items::new(alloc);
    for name in names {
        if seen.insert(name.as_str())? {
            once.push(name.copied(alloc)?)?;
        }
    }
    Ok(once)
}
