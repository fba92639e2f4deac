ghost use Rattle.std.specs.Prelude.{◌≡◌, OnOk};
ghost use Rattle.plain_data.specs.ByName.{with_value};

use cwl_value::Value;
use plain_data::{Keyed, Text};
use std::alloc::{AllocError, Global};
use std::mem;

/// Puts a value under a copy of a name.
pub(crate) fn put(
    alloc: Global,
    named: &mut Keyed<Value>,
    name: &Text,
    value: Value,
) -> Result<(), AllocError>
    ensures { OnOk result (named.new ≡ with_value name.now value named.old) }
{
    let name = name.copied(alloc)?;
    mem::drop(named.insert(name, value)?);
    Ok(())
}
