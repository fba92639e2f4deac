//! URLs of documents.
ghost use Rattle.std.specs.Prelude.{◌≡◌, IfOk};
ghost use Rattle.document_links.specs.Urls.{is_long, joined, url_text};

use std::alloc::AllocError;
use url::{ParseError, Url};

/// How long a base URL and a name may be together, less one. `url` itself reports out of memory and a URL of 4 GB in the same way.
pub const LONG: usize = 1 << 24;

/// A URL's text.
#[tactic(auto, unfolding(crate::specs::Urls::url_text))]
pub(crate) fn url_text(url: &Url) -> &str
    ensures { result.now ≡ url_text url.now }
{
    url.as_str()
}

/// The URL that a name has on a base, if it has one.
#[tactic(auto, unfolding(crate::specs::Urls::joined))]
pub(crate) fn joined(base: &Url, name: &str) -> Result<Option<Url>, AllocError>
    ensures { IfOk result (λ url. url ≡ joined base.now name.now) }
{
    if is_long(base, name) {
        return Ok(None);
    }
    match base.join(name) {
        Ok(url) => Ok(Some(url)),
        Err(ParseError::OutOfMemory) => Err(AllocError),
        Err(ParseError::Overflow) => Err(AllocError),
        Err(_) => Ok(None),
    }
}

pub(crate) fn is_long(base: &Url, name: &str) -> bool
    ensures { result ≡ is_long base.now name.now }
{
    let length = url_text(base).len();
    length >= LONG || name.len() >= LONG - length
}
