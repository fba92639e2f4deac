//! The folders of a run.
ghost use Rattle.std.specs.Prelude.{◌≡◌, ℕ, List, IfSome, IsSome};
ghost use Rattle.process_machine.specs.Targets as spec;

use crate::copying::copy;
use crate::making::make_private;
use crate::missed::Missed;
use crate::past::Past;
use crate::trouble::{Trouble, or_trouble};
use crate::world::World;
use staging::{Move, StagePlan};
use std::alloc::{AllocError, Global};
use std::fs;
use std::rt::Files;

/// Makes the folder of a job with `out` and `tmp` in it, and copies the files and folders of its plan into `in`, which is made for them.
///
/// The job's folder has to be absent.
pub(crate) fn lay_out<R: World>(
    rt: &R,
    past: Past<'_>,
    work: &str,
    plan: &StagePlan,
    number: u64,
    missed: &mut Missed,
) -> Result<(), Trouble> {
    let folder = format!(in rt.alloc(); "{work}/j{number}")?;
    lay_out_in(rt, past, folder.as_str(), plan, missed)
}

fn lay_out_in<R: World>(
    rt: &R,
    past: Past<'_>,
    folder: &str,
    plan: &StagePlan,
    missed: &mut Missed,
) -> Result<(), Trouble> {
    or_trouble(make_private(rt, folder))?;
    make_part(rt, folder, "out")?;
    make_part(rt, folder, "tmp")?;
    let inputs = joined(rt.alloc(), folder, "in")?;
    copy_all(rt, past, plan.moves.as_slice(), inputs.as_str(), missed)
}

fn make_part<R: AllocGlobal + Files>(rt: &R, folder: &str, name: &str) -> Result<(), Trouble> {
    let part = joined(rt.alloc(), folder, name)?;
    or_trouble(fs::create_dir(rt, part.as_str()))
}

pub(crate) fn joined(alloc: Global, folder: &str, name: &str) -> Result<String, AllocError> {
    format!(in alloc; "{folder}/{name}")
}

/// Copies files and folders to their targets, each of which has to be below this folder. The folders between it and a target are
/// made where they are absent, and none of them may be a link, since what is put there would be elsewhere. Where one fails, `missed`
/// tells which.
pub(crate) fn copy_all<R: World>(
    rt: &R,
    past: Past<'_>,
    moves: &[Move],
    below: &str,
    missed: &mut Missed,
) -> Result<(), Trouble> {
    let mut made = "";
    for (index, planned) in moves.iter().enumerate() {
        missed.at = Some(index);
        let target = planned.target.as_str();
        let Some(name) = name_below(target, below) else {
            return Err(Trouble::Failed);
        };
        if index == 0 {
            or_trouble(fs::create_dir_all(rt, below))?;
        }
        make_way(rt, below, made, way_of(name))?;
        made = way_of(name);
        copy(
            rt,
            past,
            planned.source.as_str(),
            target,
            &mut missed.changed,
        )?;
    }
    Ok(())
}

/// The folders that lead to a name below a folder; the empty way if there are none.
pub(crate) fn way_of(name: &str) -> &str {
    match name.rsplit_once('/') {
        Some((way, _)) => way,
        None => "",
    }
}

/// Makes the folders along a way below a folder, which is there, unless they are those that were made last. None of them may be a link.
pub(crate) fn make_way<R: AllocGlobal + Files>(
    rt: &R,
    folder: &str,
    made: &str,
    way: &str,
) -> Result<(), Trouble> {
    if way.is_empty() || way == made {
        Ok(())
    } else {
        make_along(rt, folder, way)
    }
}

/// Makes the folders along a way below a folder, which is there. None of them may be a link.
pub(crate) fn make_along<R: AllocGlobal + Files>(
    rt: &R,
    folder: &str,
    way: &str,
) -> Result<(), Trouble> {
    let mut path = String::from_str(rt.alloc(), folder)?;
    for part in way.split('/') {
        path.push('/')?;
        path.push_str(part)?;
        make_own(rt, path.as_str())?;
    }
    Ok(())
}

/// Makes a folder where it is absent.
pub(crate) fn make_own<R: Files>(rt: &R, path: &str) -> Result<(), Trouble> {
    match fs::create_dir(rt, path) {
        Ok(()) => Ok(()),
        // Where a folder can't be made, one that is there is as good; a link to one is not.
        Err(error) => match fs::symlink_metadata(rt, path) {
            Ok(metadata) if metadata.is_dir() => Ok(()),
            _ => Err(Trouble::of(&error)),
        },
    }
}

// The name by which a path goes on from a folder, by names alone.
fn name_below<'a>(path: &'a str, folder: &str) -> Option<&'a str>
    ensures there { IfSome result (λ name. spec.IsBelow folder.now path.now name.now) }
    ensures every { (name : List ℕ) → spec.IsBelow folder.now path.now name → IsSome result }
{
    let rest = path.strip_prefix(folder)?;
    let name = rest.strip_prefix('/')?;
    if name.is_empty() || climbs(name) {
        None
    } else {
        Some(name)
    }
}

// Whether a path goes up at one of its components.
fn climbs(path: &str) -> bool
    ensures { result ≡ spec.climbs path.now }
{
    path.split('/').any(|component| component == "..")
}
