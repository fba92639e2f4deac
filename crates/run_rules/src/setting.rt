use cwl_value::Value;
use document_links::Process;
use plain_data::{Keyed, Text};

/// What a run may use, and where.
#[derive(Drop)]
pub struct Options {
    /// The path of the folder that the jobs' folders are made in.
    pub work: Text,
    /// The path of the folder that the result's files are put in.
    pub outdir: Text,
    /// Where children seek programs: the text of their `PATH`.
    pub path_env: Text,
    /// How many children may run side by side, from 1 to 64.
    pub slots: u64,
    /// How often a job that fails temporarily is started again, from 0 to 10.
    pub retries: u64,
    /// What any load costs, from 0 to 10^12.
    pub base: u64,
    /// How many bytes are loaded for a cost of 1, from 1 to 10^12.
    pub rate: u64,
    /// Whether an archive is kept.
    pub keep: bool,
}

/// What a run is of: a process, its input object, and what it may use.
#[derive(Drop)]
pub struct Setting {
    pub process: Process,
    pub inputs: Keyed<Value>,
    pub options: Options,
}
