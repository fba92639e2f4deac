//! Lists whose last item comes next.
ghost use Rattle.std.specs.Prelude.{◌≡◌, ◌<◌, ◌^◌, OnOk, length, reverse};
ghost use Rattle.run_core.specs.inner.Turns.{PutsNext};

use plain_data::{Items, Keyed, Text};
use std::alloc::AllocError;
use std::mem;

/// The names, the first of them last.
pub(crate) fn last_first(names: Items<Text>) -> Items<Text>
    ensures left { result ≡ reverse names }
    ensures few { length result < 2 ^ 64 }
{
    let _few = names.len();
    let mut names = names.into_vec();
    names.reverse();
    Items::from_vec(names)
}

/// Puts a value under the name that comes next.
pub(crate) fn put_next<T: Drop>(
    left: &mut Items<Text>,
    found: &mut Keyed<T>,
    value: T,
) -> Result<(), AllocError>
    ensures { OnOk result (PutsNext left.old found.old value left.new found.new) }
{
    match left.pop() {
        None => mem::drop(value),
        Some(name) => mem::drop(found.insert(name, value)?),
    }
    Ok(())
}
