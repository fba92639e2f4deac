//! The files of a row, by name.
ghost use Rattle.std.specs.Prelude.{◌≡◌, IfOk, OnOk};
ghost use Rattle.collected_outputs.specs.Listing.{listing_of};
ghost use Rattle.job_reuse.specs.inner.Index.{listing_by, with_found};

use plain_data::Keyed;
use staging::Found;
use std::alloc::{AllocError, Global};

/// Returns the files by name; of two that have one name, the first.
pub(crate) fn index_of(alloc: Global, files: &[Found]) -> Result<Keyed<Found>, AllocError>
    ensures { IfOk result (λ index. listing_by index ≡ listing_of files.now) }
{
    let mut index = Keyed::new(alloc);
    for found in files {
        add(alloc, found, &mut index)?;
    }
    Ok(index)
}

fn add(alloc: Global, found: &Found, index: &mut Keyed<Found>) -> Result<(), AllocError>
    ensures { OnOk result (index.new ≡ with_found found.now index.old) }
{
    if index.contains(found.name.as_str()) {
        return Ok(());
    }
    let name = found.name.copied(alloc)?;
    let before = index.insert(name, found.clone_in(alloc)?)?;
    drop(before);
    Ok(())
}
