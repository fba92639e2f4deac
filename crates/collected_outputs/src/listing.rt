//! What a scan found, by name.
ghost use Rattle.std.specs.Prelude.{◌≡◌, IfOk, OnOk};
ghost use Rattle.collected_outputs.specs.Listing as spec;
ghost use Rattle.collected_outputs.specs.inner.Listings.{with_entry};

use plain_data::{Keyed, Text};
use staging::Found;
use std::alloc::{AllocError, Global};

/// A file or folder below the output folder, without its name.
#[derive(Drop)]
pub(crate) struct Entry {
    pub(crate) is_dir: bool,
    pub(crate) size: u64,
    pub(crate) sum: Text,
}

/// What was found, by name; of two that have one name, the first.
pub(crate) fn listing_of(alloc: Global, found: &[Found]) -> Result<Keyed<Entry>, AllocError>
    ensures { IfOk result (λ listing. listing ≡ spec.listing_of found.now) }
{
    let mut listing = Keyed::new(alloc);
    for one in found {
        add_entry(alloc, one, &mut listing)?;
    }
    Ok(listing)
}

fn add_entry(alloc: Global, one: &Found, listing: &mut Keyed<Entry>) -> Result<(), AllocError>
    ensures { OnOk result (listing.new ≡ with_entry one.now listing.old) }
{
    if listing.contains(one.name.as_str()) {
        return Ok(());
    }
    let name = one.name.copied(alloc)?;
    let entry = Entry {
        is_dir: one.is_dir,
        size: one.size,
        sum: one.sum.copied(alloc)?,
    };
    drop(listing.insert(name, entry)?);
    Ok(())
}
