//! What a run knows of an earlier computation of a job, and why it computes the job again.
ghost use Rattle.std.specs.Prelude.{◌≡◌, option_map};
ghost use Rattle.program_words.specs.Reuse as spec;

/// What the record said of a job.
#[derive(Clone, Copy, Drop)]
pub struct Recalled {
    pub has_row: bool,
    /// Whether its row says that its files are archived.
    pub is_archived: bool,
    /// The milliseconds that computing it took; 0 without a row.
    pub cost: u64,
}

/// Why a job is computed.
#[derive(Clone, Copy, Debug, PartialEq, Eq)]
pub enum Why {
    /// Its tool does not allow reuse.
    NotReusable,
    /// The record has no row of it.
    NotRecorded,
    /// Its row says that no files are archived.
    NotArchived,
    /// They are, and this run keeps no archive.
    NoArchive,
    /// What is archived is not what its row has.
    Altered,
    /// It could be loaded, and computing it costs less.
    Dearer,
}

/// Why a job is computed of which the record said this, in a run that keeps an archive or not. The record is asked for each job whose
/// tool allows reuse.
pub fn reason_for(recalled: Option<&Recalled>, keeps: bool, is_altered: bool) -> Why
    ensures { result ≡ spec.reason_for (option_map (λ r. r.now) recalled.entry) keeps is_altered }
{
    match recalled {
        None => Why::NotReusable,
        Some(recalled) => reason_of(recalled, keeps, is_altered),
    }
}

fn reason_of(recalled: &Recalled, keeps: bool, is_altered: bool) -> Why
    ensures { result ≡ spec.reason_of recalled.now keeps is_altered }
{
    if !recalled.has_row {
        return Why::NotRecorded;
    }
    if !recalled.is_archived {
        return Why::NotArchived;
    }
    if !keeps {
        return Why::NoArchive;
    }
    if is_altered {
        return Why::Altered;
    }
    Why::Dearer
}

impl Why {
    /// In words.
    pub fn words(self) -> &'static str
        ensures { result.now ≡ spec.why_words self }
    {
        match self {
            Why::NotReusable => "its tool does not allow reuse",
            Why::NotRecorded => "nothing is recorded of it",
            Why::NotArchived => "its files are not archived",
            Why::NoArchive => "its files are archived, but this run has no archive",
            Why::Altered => "its archived files are not what they were",
            Why::Dearer => "computing it costs less than fetching its files",
        }
    }
}
