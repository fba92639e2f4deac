//! Paths of what stands below a folder.
ghost use Rattle.std.specs.Prelude.{◌≡◌, ◌==◌};
ghost use Rattle.std.specs.List.{list_any};
ghost use Rattle.cwl_value.specs.Reading.{is_name};
ghost use Rattle.collected_outputs.specs.Listing as spec;

use staging::Found;

/// Says whether each of these stands below the folder that was scanned.
pub fn are_paths(found: &[Found]) -> bool
    ensures { result ≡ spec.are_paths found.now }
{
    found.iter().all(|entry| is_path(entry.name.as_str()))
}

/// Says whether this is the path of what stands below a folder: names with slashes between them.
pub fn is_path(path: &str) -> bool
    ensures { result ≡ spec.is_path path.now }
{
    path.split('/').all(may_name)
}

/// Whether the text may be the name of a file in a folder.
pub(crate) fn may_name(name: &str) -> bool
    ensures { result ≡ is_name name.now }
{
    !(name.is_empty() || name == "." || name == ".." || has_slash(name))
}

fn has_slash(name: &str) -> bool
    ensures { result ≡ list_any (λ c. c == 47) name.now }
{
    name.as_bytes().iter().any(|byte| *byte == b'/')
}
