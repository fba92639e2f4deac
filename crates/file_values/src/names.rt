//! Names that files have, and names beside them.
ghost use Rattle.std.specs.Prelude.{◌≡◌, IfOk, string_bytes};
ghost use Rattle.file_values.specs.Names as spec;

use std::alloc::{AllocError, Global};

/// The name that a pattern of `secondaryFiles` gives to a file beside the one of this name
/// (CWL v1.2, SecondaryFileSchema: `pattern`).
///
/// One `?` at the pattern's end says that the file may be absent, and is no part of the name. Each `^` at its front
/// takes the last extension off the name, and what is left of the pattern is put at the name's end.
pub fn secondary_name(alloc: Global, pattern: &str, basename: &str) -> Result<String, AllocError>
    ensures { IfOk result (λ name. string_bytes name
        ≡ spec.secondary_name pattern.now basename.now) }
{
    let mut rest = required(pattern);
    let mut front = basename;
    while let Some(others) = rest.strip_prefix('^') {
        front = stem(front);
        rest = others;
    }
    let mut name = String::from_str(alloc, front)?;
    name.push_str(rest)?;
    Ok(name)
}

// The pattern without one `?` at its end.
fn required(pattern: &str) -> &str
    ensures { result.now ≡ spec.required pattern.now }
{
    match pattern.strip_suffix('?') {
        Some(front) => front,
        None => pattern,
    }
}

// The name without its last period and what follows it.
fn stem(name: &str) -> &str
    ensures { result.now ≡ spec.stem name.now }
{
    match name.rfind('.') {
        Some(at) => &name[..at],
        None => name,
    }
}

/// The path's last component that isn't empty, or nothing where there is none.
pub(crate) fn last_component(path: &str) -> &str
    ensures { result.now ≡ spec.last_component path.now }
{
    let whole = without_last_slashes(path);
    match whole.rfind('/') {
        Some(at) => &whole[at + 1..],
        None => whole,
    }
}

fn without_last_slashes(path: &str) -> &str
    ensures { result.now ≡ spec.without_last_slashes path.now }
{
    let mut whole = path;
    while let Some(front) = whole.strip_suffix('/') {
        whole = front;
    }
    whole
}
