use plain_data::{Items, Text};

/// A File or Directory that is copied.
#[derive(Debug, Drop)]
pub struct Member {
    /// The path where it is.
    pub source: Text,
    /// Its basename, which it keeps.
    pub name: Text,
}

/// What is copied into one folder: a File and its secondary files, or a Directory.
#[derive(Debug, Drop)]
pub struct Placed {
    pub members: Items<Member>,
    /// The number of the folder.
    pub folder: usize,
}
