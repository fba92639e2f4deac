//! The folders that files are copied to.
ghost use Rattle.std.specs.Prelude.{◌≡◌, IfOk, string_bytes};
ghost use Rattle.staging.specs.Groups.{path_in};
ghost use Rattle.staging.specs.Plan.{folder_path};

use plain_data::Text;
use std::alloc::{AllocError, Global};

/// `DIR/0`, `DIR/1`, .. or `DIR`, `DIR/_1`, `DIR/_2`, ..
#[derive(Clone, Copy, Drop)]
pub(crate) struct Folders<'d> {
    pub(crate) dir: &'d str,
    /// Whether `DIR` is the first, and holds the others.
    pub(crate) holds_others: bool,
}

/// The path of the folder of a number.
pub(crate) fn folder_path(
    alloc: Global,
    folders: Folders<'_>,
    number: usize,
) -> Result<String, AllocError>
    ensures { IfOk result (λ path. string_bytes path
        ≡ folder_path folders.entry.holds_others folders.entry.dir.now number) }
{
    let dir = folders.dir;
    if !folders.holds_others {
        return format!(in alloc; "{dir}/{number}");
    }
    if number == 0 {
        return String::from_str(alloc, dir);
    }
    format!(in alloc; "{dir}/_{number}")
}

/// The path of a name in a folder.
pub(crate) fn path_in(alloc: Global, folder: &str, name: &str) -> Result<Text, AllocError>
    ensures { IfOk result (λ path. path ≡ path_in folder.now name.now) }
{
    Ok(Text::from_string(format!(in alloc; "{folder}/{name}")?))
}
