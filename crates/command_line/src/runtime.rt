use plain_data::Text;

/// What a job is given to run in, as paths and a list of paths (CWL v1.2, Command Line Tool, "Runtime environment").
#[derive(Debug, Drop)]
pub struct Runtime {
    /// The output folder, which the child runs in and finds in `HOME`.
    pub outdir: Text,
    /// The folder for what it throws away, which it finds in `TMPDIR`.
    pub tmpdir: Text,
    /// Where it seeks programs: the text of `PATH`.
    pub path_env: Text,
}
