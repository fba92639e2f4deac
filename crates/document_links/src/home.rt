//! Where a process is.
use document_table::Indexed;
use url::Url;

/// A document that a process is in, and the URL that names in it are joined to.
#[derive(Clone, Copy, Drop)]
pub struct Home<'d> {
    pub url: &'d Url,
    pub document: &'d Indexed,
}
