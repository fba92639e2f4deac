//! What holds of paths and locations together.
ghost use Rattle.std.specs.Prelude.{◌≡◌, Ok, IfOk, IfErr, string_bytes};
ghost use Rattle.file_values.specs.Location.{location_of, is_long, Refuses};
ghost use Rattle.file_values.specs.Laws.{IsPlainPath};

use crate::location::{location_to_path, path_to_location};
use crate::refusal::FileError;
use std::alloc::Global;
use url::Url;

/// The path that a path's location names. Where the path begins with a slash and has no component `.` or `..`, that is
/// the same path, on every base.
pub fn there_and_back(alloc: Global, path: &str, base: &Url) -> Result<String, FileError>
    ensures ok { IsPlainPath path.now → IfOk result (λ back. string_bytes back ≡ path.now) }
    ensures err { IsPlainPath path.now
        → IfErr result (Refuses (Ok path.now) (is_long base.now (location_of path.now))) }
{
    let location = path_to_location(alloc, path)?;
    location_to_path(alloc, location.as_str(), base)
}
