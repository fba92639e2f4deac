use plain_data::{Items, Text};

/// One step of a job's place: the step's id, and the indexes of its job among those of a scattered step.
#[derive(Drop)]
pub struct Segment {
    pub step: Text,
    /// One index for each scattered input, or none where the step is not scattered.
    pub index: Items<usize>,
}

/// The place of a job in its workflow: the steps that lead to it. The job at the root has no segment.
pub type JobPlace = Items<Segment>;

/// Where the contents of a File or Directory are.
#[derive(Drop)]
pub enum Place {
    Nowhere,
    /// A location, as it is written.
    Url(Text),
    /// A path, as it is written.
    Path(Text),
    /// Made by a job: its place, and the relative name in its output folder.
    Made(JobPlace, Text),
}
