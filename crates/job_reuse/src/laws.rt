//! Laws of rows and of what was collected: each is the contract of a function that does nothing.
ghost use Rattle.job_reuse.specs.Laws.{CollectedOutputsAreKept, CollectedOutputsReadBack, RowsOfJobsAreSound, RowsAreSoundOrNot, SameWhereErasedAndNamedAlike, FetchedFilesStandIn, FilesAreTheSameOrNot, OutputsAreTheSameOrNot};

/// Says that the outputs of a job are such as a record keeps and gives back as they were, by whatever way they were collected:
/// where what was found has paths below the job's folder, and the job's inputs stand elsewhere. That the outputs are in form is
/// known of each row that is made of them (`row_of`).
pub fn collected_outputs_are_kept()
    ensures kept { CollectedOutputsAreKept }
    ensures read { CollectedOutputsReadBack }
{}

/// Says that the row that is put of a job is one of the job's tool, so that it isn't refused when it is found.
pub fn rows_of_jobs_are_sound()
    ensures { RowsOfJobsAreSound }
{}

/// Says that of each row it can be told whether it is one of a tool: a run goes on by its answer also where there is no memory to
/// look.
pub fn rows_are_sound_or_not()
    ensures { RowsAreSoundOrNot }
{}

/// Says that of any outputs it can be told whether they are the same, whether or not there is memory to look.
pub fn outputs_are_the_same_or_not()
    ensures { OutputsAreTheSameOrNot }
{}

/// Says that of any files it can be told whether they are those of a row, whether or not there is memory to look.
pub fn files_are_the_same_or_not()
    ensures { FilesAreTheSameOrNot }
{}

/// Says what a difference of outputs is: one in their values without places, or in the names that their Files and Directories have
/// in the job's folder.
pub fn outputs_differ_in_values_or_names()
    ensures { SameWhereErasedAndNamedAlike }
{}

/// Says that fetched files which agree with a row's stand in for them: what its outputs name is among them.
pub fn fetched_files_stand_in()
    ensures { FetchedFilesStandIn }
{}
