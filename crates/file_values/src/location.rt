//! Paths and their locations.
ghost use Rattle.std.specs.Prelude.{◌≡◌, false, Ok, IfOk, IfErr, string_bytes, codes, is_some};
ghost use Rattle.percent_encoding.specs.Percent.{percent_decode};
ghost use Rattle.url.specs.Parts.{kind_of};
ghost use Rattle.url.specs.Scheme.{is_file};
ghost use Rattle.file_values.specs.Location as spec;

use crate::refusal::{FileError, FileFault};
use percent_encoding::{DecodeError, percent_decode_str, percent_encode_byte};
use std::alloc::{AllocError, Global};
use url::{ParseError, Url};

/// A path as a location: `file://`, and each byte of it as it is or escaped.
///
/// A path that doesn't begin with a slash gives a location that names another path, or none.
pub fn path_to_location(alloc: Global, path: &str) -> Result<String, AllocError>
    ensures { IfOk result (λ location. string_bytes location ≡ spec.location_of path.now) }
{
    let mut location = String::from_str(alloc, "file://")?;
    for byte in path.as_bytes() {
        if stays(*byte) {
            location.push(char::from(*byte))?;
        } else {
            location.push_str(percent_encode_byte(*byte))?;
        }
    }
    Ok(location)
}

// Whether a byte of a path stands for itself in a location.
fn stays(byte: u8) -> bool
    ensures { result ≡ spec.stays byte }
{
    byte.is_ascii_alphanumeric() || matches!(byte, b'-' | b'.' | b'_' | b'~' | b'/')
}

/// The path that a location names, joined to a base.
///
/// # Errors
///
/// `NotAFileUrl` where the location is none, for its length too, or the URL has another scheme than `file`, a host, a
/// query or a fragment; `NotUtf8` where its path is no text once the escapes are read; `OutOfMemory`.
pub fn location_to_path(alloc: Global, location: &str, base: &Url) -> Result<String, FileError>
    ensures ok { IfOk result (λ path. spec.located base.now location.now ≡ Ok (string_bytes path)) }
    ensures err { IfErr result (spec.Refuses (spec.located base.now location.now)
        (spec.is_long base.now location.now)) }
{
    let url = joined(location, base)?;
    path_of(alloc, &url)
}

// The location on the base. `url` reports out of memory and a URL of 4 GB in the same way,
// and no short one is that long.
fn joined(location: &str, base: &Url) -> Result<Url, FileError>
    ensures ok { IfOk result (λ url. spec.joined base.now location.now ≡ Ok url) }
    ensures err { IfErr result (spec.Refuses (spec.joined base.now location.now)
        (spec.is_long base.now location.now)) }
{
    match base.join(location) {
        Ok(url) => Ok(url),
        Err(ParseError::OutOfMemory) => Err(FileError::OutOfMemory),
        Err(ParseError::Overflow) if !is_long(location, base) => Err(FileError::OutOfMemory),
        Err(_) => Err(FileError::Refused(FileFault::NotAFileUrl)),
    }
}

const LONG: usize = 1 << 24;

fn is_long(location: &str, base: &Url) -> bool
    ensures { result ≡ spec.is_long base.now location.now }
{
    let length = base.as_str().len();
    length >= LONG || location.len() >= LONG - length
}

// The path that a URL names.
fn path_of(alloc: Global, url: &Url) -> Result<String, FileError>
    ensures ok { IfOk result (λ path. spec.path_of url.now ≡ Ok (string_bytes path)) }
    ensures err { IfErr result (spec.Refuses (spec.path_of url.now) false) }
{
    if names_a_file(url) {
        decoded(alloc, url.path())
    } else {
        Err(FileError::Refused(FileFault::NotAFileUrl))
    }
}

fn names_a_file(url: &Url) -> bool
    ensures { result ≡ spec.names_a_file url.now }
{
    is_of_files(url) && !url.has_host() && !has_query(url) && !has_fragment(url)
}

fn is_of_files(url: &Url) -> bool
    ensures { result ≡ is_file (kind_of url.now) }
{
    url.scheme() == "file"
}

fn has_query(url: &Url) -> bool
    ensures { result ≡ is_some url.now.query }
{
    url.query().is_some()
}

fn has_fragment(url: &Url) -> bool
    ensures { result ≡ is_some url.now.fragment }
{
    url.fragment().is_some()
}

// The text that an escaped path stands for.
fn decoded(alloc: Global, path: &str) -> Result<String, FileError>
    ensures ok { IfOk result (λ text. spec.text_of (percent_decode path.now)
        ≡ Ok (string_bytes text)) }
    ensures err { IfErr result (spec.Refuses (spec.text_of (percent_decode path.now)) false) }
{
    match percent_decode_str(path).decode_utf8(alloc) {
        Ok(text) => Ok(text.into_owned(alloc)?),
        Err(DecodeError::OutOfMemory) => Err(FileError::OutOfMemory),
        Err(DecodeError::Utf8(_)) => Err(FileError::Refused(FileFault::NotUtf8)),
    }
}

/// A path as it is written, added to the folder of the base unless it is absolute.
pub(crate) fn path_on(alloc: Global, path: &str, base: &Url) -> Result<String, FileError>
    ensures ok { IfOk result (λ whole. spec.placed base.now path.now ≡ Ok (string_bytes whole)) }
    ensures err { IfErr result (spec.Refuses (spec.placed base.now path.now)
        (spec.is_long base.now (codes "."))) }
{
    if is_absolute(path) {
        return Ok(String::from_str(alloc, path)?);
    }
    let mut whole = location_to_path(alloc, ".", base)?;
    whole.push_str(path)?;
    Ok(whole)
}

fn is_absolute(path: &str) -> bool
    ensures { result ≡ spec.is_absolute path.now }
{
    matches!(path.as_bytes(), [b'/', ..])
}
