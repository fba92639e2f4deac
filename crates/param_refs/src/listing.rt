ghost use Rattle.std.specs.Prelude.{◌≡◌, IfOk};
ghost use Rattle.param_refs.specs.Listings.{entry_name, in_order};

use cwl_value::{Value, copy_items};
use plain_data::Items;
use std::alloc::{AllocError, Global};

/// A copy of a listing, in the order of the basenames.
pub(crate) fn in_order(alloc: Global, listing: &Items<Value>) -> Result<Items<Value>, AllocError>
    ensures { IfOk result (λ found. found ≡ in_order listing.now) }
{
    let copy = copy_items(alloc, listing)?;
    let mut found = copy.into_vec();
    found.sort_by(|one, other| name_of(one).cmp(name_of(other)))?;
    Ok(Items::from_vec(found))
}

fn name_of(entry: &Value) -> &str
    ensures { result.now ≡ entry_name entry.now }
{
    let basename = match entry {
        Value::FileVal(file) => &file.basename,
        Value::DirVal(dir) => &dir.basename,
        _ => return "",
    };
    match basename {
        None => "",
        Some(basename) => basename.as_str(),
    }
}
