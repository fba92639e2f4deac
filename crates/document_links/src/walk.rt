//! What is wrong first with a document and those that it leads to, while they are walked.
ghost use Rattle.std.specs.Prelude.{◌≡◌, Ok, IfOk, IfErr};
ghost use Rattle.document_links.specs.Walks.{Left, elsewhere, told_of, within};
ghost use Rattle.document_links.specs.Refused.{IsWalkErrorOf};
ghost use Rattle.document_links.specs.declared.walk.WalkError.TheVariants.{OutOfMemory};

use crate::fault::LinkFault;
use crate::joining::url_text;
use document_table::{DocumentFault, in_item, under};
use plain_data::Text;
use std::alloc::{AllocError, Global};
use url::Url;

/// What is wrong first, seen from a value in a document.
#[derive(Drop)]
pub enum WalkFault {
    /// In that document, seen from the value.
    Own(DocumentFault),
    /// In another one that it leads to, or of all of them together.
    Other(LinkFault),
}

/// Why a walk ends before its end.
#[derive(Drop)]
pub enum WalkError {
    Refused(WalkFault),
    OutOfMemory,
}

impl From<AllocError> for WalkError {
    ghost from_gives = { λ _ e. e ≡ OutOfMemory };

    fn from(_error: AllocError) -> WalkError {
        WalkError::OutOfMemory
    }
}

/// What was found under that name of a value, seen from the value.
pub(crate) fn within(
    alloc: Global,
    name: &str,
    found: Result<usize, WalkError>,
) -> Result<usize, WalkError>
    ensures ok { (left : Left) → IfOk found (λ n. left ≡ Ok n)
        → IfOk result (λ n. within name.now left ≡ Ok n) }
    ensures err { (left : Left) → IfErr found (IsWalkErrorOf left)
        → IfErr result (IsWalkErrorOf (within name.now left)) }
{
    match found {
        Err(WalkError::Refused(WalkFault::Own(fault))) => {
            Err(WalkError::Refused(WalkFault::Own(under(alloc, name, fault)?)))
        }
        other => other,
    }
}

/// What was found of a process in the document at that URL, seen from outside; of the item of that index where it is packed.
pub(crate) fn elsewhere(
    alloc: Global,
    url: &Url,
    index: Option<usize>,
    found: Result<usize, WalkError>,
) -> Result<usize, WalkError>
    ensures ok { (left : Left) → IfOk found (λ n. left ≡ Ok n)
        → IfOk result (λ n. elsewhere url.now index left ≡ Ok n) }
    ensures err { (left : Left) → IfErr found (IsWalkErrorOf left)
        → IfErr result (IsWalkErrorOf (elsewhere url.now index left)) }
{
    match found {
        Err(WalkError::Refused(fault)) => {
            let told = told_of(alloc, url, index, fault)?;
            Err(WalkError::Refused(WalkFault::Other(told)))
        }
        other => other,
    }
}

/// The fault of a process in the document at that URL, seen from outside.
pub(crate) fn told_of(
    alloc: Global,
    url: &Url,
    index: Option<usize>,
    fault: WalkFault,
) -> Result<LinkFault, AllocError>
    ensures { IfOk result (λ told. told ≡ told_of url.now index fault) }
{
    match fault {
        WalkFault::Own(fault) => {
            let fault = in_item(alloc, index, fault)?;
            let text = Text::from_text(alloc, url_text(url))?;
            Ok(LinkFault::Document(text, fault))
        }
        WalkFault::Other(fault) => Ok(fault),
    }
}
