//! Why no process is read.
ghost use Rattle.std.specs.Prelude.{◌≡◌};
ghost use Rattle.document_links.specs.Codes.{code_of};
ghost use Rattle.document_links.specs.declared.fault.LinkError.TheVariants.{OutOfMemory};

use document_table::DocumentFault;
use plain_data::Text;
use std::alloc::AllocError;
use std::fmt;

/// Why documents make no process.
#[derive(Drop)]
pub enum LinkFault {
    /// What is wrong with the document of this URL.
    Document(Text, DocumentFault),
    /// A step names the document of this URL, which isn't there.
    NotLoaded(Text),
    /// A step names the item of this id, which isn't in its document.
    NoItem(Text),
    /// Over `MOST_WORKFLOWS` workflows are inside one another.
    TooDeep,
    /// There are over `MOST_PROCESSES` processes.
    TooMany,
}

/// Why no process is read.
#[derive(Drop)]
pub enum LinkError {
    Refused(LinkFault),
    /// Nothing is said of the documents.
    OutOfMemory,
}

impl LinkFault {
    /// The fault's short name.
    pub fn code(&self) -> &'static str
        ensures { result.now ≡ code_of self.now }
    {
        match self {
            LinkFault::Document(_, fault) => fault.code(),
            LinkFault::NotLoaded(_) => "C10",
            LinkFault::NoItem(_) => "C10",
            LinkFault::TooDeep => "C9",
            LinkFault::TooMany => "C9",
        }
    }
}

impl fmt::Display for LinkFault {
    fn fmt<W: fmt::Write>(&self, f: &mut fmt::Formatter<W>) -> fmt::Result {
        match self {
            LinkFault::Document(url, fault) => write!(f, "{fault} in {url}"),
            LinkFault::NotLoaded(url) => write!(f, "no such document: {url}"),
            LinkFault::NoItem(id) => write!(f, "no such process: {id}"),
            LinkFault::TooDeep => f.write_str("over 16 workflows inside one another"),
            LinkFault::TooMany => f.write_str("over 4,096 processes"),
        }
    }
}

impl From<AllocError> for LinkError {
    ghost from_gives = { λ _ e. e ≡ OutOfMemory };

    fn from(_error: AllocError) -> LinkError {
        LinkError::OutOfMemory
    }
}
