use plain_data::Text;

/// An archive that is kept of the files of a job.
#[derive(Drop)]
pub struct Archive {
    /// That of the job's row.
    pub key: Text,
    /// How many bytes the files have together.
    pub bytes: u64,
    /// The number of its last use. A later use has a greater one.
    pub used: u64,
}
