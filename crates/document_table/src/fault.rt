//! What is wrong with a document, and where.
ghost use Rattle.std.specs.Prelude.{◌≡◌, IfOk};
ghost use Rattle.document_table.specs.Codes.{code_of};
ghost use Rattle.document_table.specs.declared.fault.DocumentError.TheVariants.{OutOfMemory};
ghost use Rattle.document_table.specs.Faults.{here, under, at};

use plain_data::{Items, Text};
use std::alloc::{AllocError, Global};
use std::fmt;

/// Why a value of a document is refused.
#[derive(Clone, Copy, Drop)]
pub enum Cause {
    /// The bytes are no JSON text of at most 127 levels (RFC 8259).
    NotJson,
    /// The JSON nests over `MOST_NESTING` deep.
    TooDeep,
    /// `cwlVersion` is something other than the text `v1.2`.
    WrongVersion,
    /// `class` is something other than `CommandLineTool` and `Workflow`.
    WrongClass,
    /// This field has to be there.
    MissingField,
    /// No object there has a field of this name.
    UnknownField,
    /// The value has another form.
    WrongForm,
    /// The text names an item of another document, and only those of its own have names.
    ItemElsewhere,
    /// The runner doesn't know this requirement.
    UnknownRequirement,
    /// Two items of the list have this name.
    RepeatedId,
}

/// A step from a value of a document to one in it.
#[derive(Drop)]
pub enum Way {
    /// To the field of this name.
    Under(Text),
    /// To the item at this index.
    At(usize),
}

/// What is wrong with a document: the cause, and the place where it is.
#[derive(Drop)]
pub struct DocumentFault {
    pub cause: Cause,
    /// The place's steps, the last one first.
    pub outward: Items<Way>,
}

/// Why no document is read.
#[derive(Drop)]
pub enum DocumentError {
    Refused(DocumentFault),
    OutOfMemory,
}

impl Cause {
    /// The cause's short name.
    pub fn code(self) -> &'static str
        ensures { result.now ≡ code_of self }
    {
        match self {
            Cause::NotJson => "C1",
            Cause::WrongVersion => "C2",
            Cause::WrongClass => "C3",
            Cause::MissingField => "C4",
            Cause::UnknownField => "C5",
            Cause::WrongForm => "C6",
            Cause::ItemElsewhere => "C6",
            Cause::UnknownRequirement => "C7",
            Cause::RepeatedId => "C8",
            Cause::TooDeep => "C9",
        }
    }

    /// The cause in words, which go before the place.
    fn words(self) -> &'static str {
        match self {
            Cause::NotJson => "no JSON",
            Cause::WrongVersion => "the version is not v1.2",
            Cause::WrongClass => "the class is neither CommandLineTool nor Workflow",
            Cause::MissingField => "a field is missing",
            Cause::UnknownField => "no such field",
            Cause::WrongForm => "a value of another form",
            Cause::ItemElsewhere => "only names in this document",
            Cause::UnknownRequirement => "a requirement that is not met",
            Cause::RepeatedId => "a name that stands twice",
            Cause::TooDeep => "nested over 100 deep",
        }
    }
}

impl DocumentFault {
    /// The fault's short name.
    pub fn code(&self) -> &'static str
        ensures { result.now ≡ code_of self.now.cause }
    {
        self.cause.code()
    }
}

impl fmt::Display for Way {
    fn fmt<W: fmt::Write>(&self, f: &mut fmt::Formatter<W>) -> fmt::Result {
        match self {
            Way::Under(name) => write!(f, "{name}"),
            Way::At(index) => write!(f, "{index}"),
        }
    }
}

/// The cause in words, then the place, as `steps/a/in/x`.
impl fmt::Display for DocumentFault {
    fn fmt<W: fmt::Write>(&self, f: &mut fmt::Formatter<W>) -> fmt::Result {
        write!(f, "{}", self.cause.words())?;
        let mut first = true;
        for way in self.outward.as_slice().iter().rev() {
            if first {
                write!(f, " at {way}")?;
            } else {
                write!(f, "/{way}")?;
            }
            first = false;
        }
        Ok(())
    }
}

impl From<AllocError> for DocumentError {
    ghost from_gives = { λ _ e. e ≡ OutOfMemory };

    fn from(_error: AllocError) -> DocumentError {
        DocumentError::OutOfMemory
    }
}

/// The fault at the value itself.
pub fn here(alloc: Global, cause: Cause) -> DocumentFault
    ensures { result ≡ here cause }
{
    DocumentFault {
        cause,
        outward: Items::new(alloc),
    }
}

/// The fault of a value, seen from the value that has it in a field.
pub fn under(alloc: Global, name: &str, fault: DocumentFault) -> Result<DocumentFault, AllocError>
    ensures { IfOk result (λ outer. outer ≡ under name.now fault) }
{
    let DocumentFault { cause, mut outward } = fault;
    outward.push(Way::Under(Text::from_text(alloc, name)?))?;
    Ok(DocumentFault { cause, outward })
}

/// The fault of an item, seen from its list.
pub fn at(index: usize, fault: DocumentFault) -> Result<DocumentFault, AllocError>
    ensures { IfOk result (λ outer. outer ≡ at index fault) }
{
    let DocumentFault { cause, mut outward } = fault;
    outward.push(Way::At(index))?;
    Ok(DocumentFault { cause, outward })
}

impl DocumentFault {
    /// The same fault in memory of its own.
    pub fn clone_in(&self, alloc: Global) -> Result<DocumentFault, AllocError>
        ensures { IfOk result (λ copy. copy ≡ self.now) }
    {
        let outward = copied_ways(alloc, self.outward.as_slice())?;
        Ok(DocumentFault {
            cause: self.cause,
            outward,
        })
    }
}

fn copied_ways(alloc: Global, ways: &[Way]) -> Result<Items<Way>, AllocError>
    ensures { IfOk result (λ copies. copies ≡ ways.now) }
{
    let mut copies = Items::new(alloc);
    for way in ways {
        copies.push(copied_way(alloc, way)?)?;
    }
    Ok(copies)
}

fn copied_way(alloc: Global, way: &Way) -> Result<Way, AllocError>
    ensures { IfOk result (λ copy. copy ≡ way.now) }
{
    match way {
        Way::Under(name) => Ok(Way::Under(name.copied(alloc)?)),
        Way::At(index) => Ok(Way::At(*index)),
    }
}
