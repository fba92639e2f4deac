//! What is copied where.
ghost use Rattle.std.specs.Prelude.{◌≡◌, false, true, IfOk};
ghost use Rattle.cwl_value.specs.Erased.{fields_erased};
ghost use Rattle.staging.specs.Plan.{IsPlan};

use crate::groups::push_field_groups;
use crate::index::FolderIndex;
use crate::moves::moves_of;
use crate::moving::{Way, moved_fields};
use crate::placing::place_groups;
use crate::targets::Folders;
use cwl_value::Value;
use plain_data::{Items, Keyed, Text};
use std::alloc::{AllocError, Global};

/// A File or Directory to copy: from one path to another.
#[derive(Debug, Drop)]
pub struct Move {
    pub source: Text,
    pub target: Text,
}

/// Files to copy, and the values that name them by their new paths.
#[derive(Drop)]
pub struct StagePlan {
    pub moves: Items<Move>,
    pub value: Keyed<Value>,
}

/// Plans where a job's input files are copied to: to the lowest of `DIR/0`, `DIR/1`, .. in which none of their names
/// stands. A File goes there with its secondary files, and a Directory with all that is in it; what its listing names
/// is found in it. Files and Directories at the same places with the same names share their copies.
pub fn stage_plan(alloc: Global, inputs: &Keyed<Value>, dir: &str) -> Result<StagePlan, AllocError>
    ensures plan { IfOk result (IsPlan false dir.now inputs.now) }
    ensures same { IfOk result (λ plan. fields_erased plan.value ≡ fields_erased inputs.now) }
{
    plan(
        alloc,
        inputs,
        Folders {
            dir,
            holds_others: false,
        },
    )
}

/// Plans where output files are put: the same with `DIR`, `DIR/_1`, `DIR/_2`, .. A name of `_` and digits never goes to
/// `DIR` itself.
pub fn deliver_plan(
    alloc: Global,
    outputs: &Keyed<Value>,
    dir: &str,
) -> Result<StagePlan, AllocError>
    ensures plan { IfOk result (IsPlan true dir.now outputs.now) }
    ensures same { IfOk result (λ plan. fields_erased plan.value ≡ fields_erased outputs.now) }
{
    plan(
        alloc,
        outputs,
        Folders {
            dir,
            holds_others: true,
        },
    )
}

fn plan(alloc: Global, values: &Keyed<Value>, folders: Folders<'_>) -> Result<StagePlan, AllocError>
    ensures { IfOk result (IsPlan folders.entry.holds_others folders.entry.dir.now values.now) }
{
    let mut groups = Vec::new(alloc);
    push_field_groups(alloc, values, &mut groups)?;
    let placed = place_groups(alloc, groups, folders.holds_others)?;
    let mut index = FolderIndex::new(alloc);
    let moves = moves_of(alloc, placed.as_slice(), folders, &mut index)?;
    let value = moved_fields(alloc, values, Way::Placed(&index, folders))?;
    Ok(StagePlan { moves, value })
}
