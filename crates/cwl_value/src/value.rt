use crate::place::Place;
use plain_data::{Items, Keyed, SharedItems, Text};

/// The most bytes that a file has whose contents are read (CWL v1.2, `loadContents`).
pub const MOST_CONTENTS: u64 = 65_536;

/// A value of CWL, as inputs and outputs are made of (CWL v1.2, "Data concepts").
#[derive(Drop)]
#[cycle(value)]
pub enum Value {
    Null,
    Bool(bool),
    Whole(i64),
    Text(Text),
    FileVal(FileVal),
    DirVal(DirVal),
    List(SharedItems<Value>),
    Fields(Keyed<Value>),
}

/// A File (CWL v1.2, section 5.2.1.1 of the command line tool document).
#[derive(Drop)]
#[cycle(value)]
pub struct FileVal {
    pub place: Place,
    pub basename: Option<Text>,
    /// `sha1$` and the sum in hexadecimal.
    pub checksum: Option<Text>,
    /// In bytes.
    pub size: Option<u64>,
    pub contents: Option<Text>,
    pub secondary: Items<Value>,
}

#[derive(Drop)]
#[cycle(value)]
pub struct DirVal {
    pub place: Place,
    pub basename: Option<Text>,
    pub listing: Option<Items<Value>>,
}
