//! Values whose files stand elsewhere.
ghost use Rattle.std.specs.Prelude.{◌≡◌, IfOk, option_copied};
ghost use Rattle.run_rules.specs.Delivered.{location_place, made_path};
ghost use Rattle.run_core.specs.inner.Places.{left_at_source, left_by, left_place, place_by};

use crate::folders::{Left, left_folder, path_in};
use crate::job_states::JobState;
use cwl_value::{JobPlace, Place, Placing};
use file_values::path_to_location;
use job_graph::Unfolding;
use plain_data::Text;
use std::alloc::{AllocError, Global};

/// Where the files of jobs are: below the work folder, in the folders of the job that made them.
#[derive(Clone, Copy, Drop)]
pub(crate) struct Sources<'s, 'a> {
    pub work: &'s Text,
    pub known: &'s Option<Unfolding<'a>>,
    pub jobs: &'s [JobState],
}

/// Where files go.
#[derive(Clone, Copy, Drop)]
pub(crate) enum Way<'s, 'a> {
    /// From the job that made them to their paths.
    Left(Sources<'s, 'a>),
    /// From paths to locations.
    Located,
}

impl Placing for Way<'_, '_> {
    ghost use Rattle.run_core.specs.inner.Places.{place_by};

    ghost goes = { place_by };

    fn place(&self, alloc: Global, place: &Place) -> Result<Place, AllocError> {
        moved_place(alloc, *self, place)
    }
}

fn moved_place(alloc: Global, way: Way<'_, '_>, place: &Place) -> Result<Place, AllocError>
    ensures { IfOk result (λ found. found ≡ place_by way.entry place.now) }
{
    match way {
        Way::Left(sources) => left_place(alloc, sources, place),
        Way::Located => located_place(alloc, place),
    }
}

/// What a job made becomes its path.
fn left_place(alloc: Global, sources: Sources<'_, '_>, place: &Place) -> Result<Place, AllocError>
    ensures { IfOk result (λ found. found ≡ left_place sources.entry place.now) }
{
    match place {
        Place::Made(job, name) => {
            let folder = left_folder(alloc, sources.work, left_in(sources, job))?;
            Ok(Place::Path(path_below(alloc, &folder, name)?))
        }
        _ => place.clone_in(alloc),
    }
}

/// The folder that has the outputs of the job at a place.
fn left_in(sources: Sources<'_, '_>, place: &JobPlace) -> Left
    ensures { result ≡ left_at_source sources.entry place.now }
{
    match sources.known {
        None => left_by(None),
        Some(known) => match known.number_of(place) {
            None => left_by(None),
            Some(number) => left_by(sources.jobs.get(number)),
        },
    }
}

/// The folder that a job has; none without one.
fn left_by(job: Option<&JobState>) -> Left
    ensures { result ≡ left_by (option_copied job.entry) }
{
    match job {
        None => Left {
            fetched: false,
            number: 0,
        },
        Some(job) => Left {
            fetched: job.fetched,
            number: job.folder,
        },
    }
}

/// The path of what has this name below a folder; `.` is the folder itself.
fn path_below(alloc: Global, folder: &Text, name: &Text) -> Result<Text, AllocError>
    ensures { IfOk result (λ path. path ≡ made_path folder.now name.now) }
{
    if name.as_str() == "." {
        return folder.copied(alloc);
    }
    path_in(alloc, folder, name)
}

/// A path becomes its location.
fn located_place(alloc: Global, place: &Place) -> Result<Place, AllocError>
    ensures { IfOk result (λ found. found ≡ location_place place.now) }
{
    match place {
        Place::Path(path) => {
            let location = path_to_location(alloc, path.as_str())?;
            Ok(Place::Url(Text::from_string(location)))
        }
        _ => place.clone_in(alloc),
    }
}
