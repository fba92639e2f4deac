//! Listings of folders.
ghost use Rattle.std.specs.Prelude.{IfErr, IfOk, IsTrue};
ghost use Rattle.collected_outputs.specs.Listing.{are_paths, is_path as is_below};
ghost use Rattle.process_machine.specs.Listing.{IsOn};

use crate::layout::joined;
use crate::tree::{Below, Others, tree_below};
use crate::trusting::Sums;
use crate::unlisted::{NoListing, Obstacle};
use crate::world::World;
use collected_outputs::is_path;
use file_values::FileSum;
use plain_data::{Items, Text};
use staging::Found;
use std::mem;

/// Lists all that is below a folder, by name, each file with its sum. A link is taken as what it points to.
pub(crate) fn listing_of<R: World>(
    rt: &R,
    folder: &str,
    others: Others,
    sums: &mut Sums,
) -> Result<Items<Found>, NoListing>
    ensures { IfOk result (λ found. IsTrue (are_paths found)) }
{
    let tree = tree_below(rt, folder, others)?;
    let found = found_in(rt, folder, tree.as_slice(), sums);
    mem::drop(tree);
    found
}

fn found_in<R: World>(
    rt: &R,
    folder: &str,
    tree: &[Below],
    sums: &mut Sums,
) -> Result<Items<Found>, NoListing>
    ensures { IfOk result (λ found. IsTrue (are_paths found)) }
{
    let mut found = Items::new(rt.alloc());
    for below in tree {
        found.push(found_at(rt, folder, below, sums)?)?;
    }
    Ok(found)
}

// What is below the folder, if its name is a path there. The names of entries are names on every system, but no contract says so.
fn found_at<R: World>(
    rt: &R,
    folder: &str,
    below: &Below,
    sums: &mut Sums,
) -> Result<Found, NoListing>
    ensures { IfOk result (λ found. IsTrue (is_below found.name)) }
{
    if !is_path(below.name.as_str()) {
        return Err(NoListing::at(rt.alloc(), folder, Obstacle::Other));
    }
    let FileSum { sum, size } = sum_below(rt, folder, below, sums)?;
    Ok(Found {
        name: below.name.copied(rt.alloc())?,
        is_dir: below.is_dir,
        size,
        sum,
    })
}

// The sum of a file; of a folder the empty one.
fn sum_below<R: World>(
    rt: &R,
    folder: &str,
    below: &Below,
    sums: &mut Sums,
) -> Result<FileSum, NoListing> {
    if below.is_dir {
        let sum = Text::from_text(rt.alloc(), "")?;
        return Ok(FileSum { sum, size: 0 });
    }
    let path = joined(rt.alloc(), folder, below.name.as_str())?;
    listed_sum(rt, path.as_str(), below.size, sums)
}

fn listed_sum<R: World>(
    rt: &R,
    path: &str,
    size: u64,
    sums: &mut Sums,
) -> Result<FileSum, NoListing>
    ensures { IfErr result (IsOn path.now) }
{
    match sums.sum_at(rt, path, size) {
        Ok(sum) => Ok(sum),
        Err(trouble) => Err(NoListing::unread(rt.alloc(), path, trouble)),
    }
}
