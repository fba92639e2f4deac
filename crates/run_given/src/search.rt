//! The documents that a document leads to.

use crate::reading::{MOST_BYTES, NoBytes, bytes_of_file};
use document_links::{Docs, Document, LinkError, MOST_PROCESSES, needed_docs};
use end_words::Unreadable;
use file_values::{FileError, location_to_path};
use plain_data::{Items, Keyed, Text};
use std::alloc::{AllocError, Global};
use std::rt::Files;
use std::{fs, mem};
use url::{ParseError, Url};

/// The documents that a document leads to, the paths of their files, and why others of them can't be read, under their paths.
#[derive(Drop)]
pub struct Reached {
    pub docs: Docs,
    pub files: Items<Text>,
    pub missed: Keyed<Unreadable>,
}

/// The documents that are read so far.
#[derive(Drop)]
struct Search {
    docs: Keyed<Document>,
    missed: Keyed<Unreadable>,
    // the URLs that were named so far
    named: Keyed<bool>,
    // those of them whose files were not looked at
    waiting: Vec<Text>,
    // how many bytes may still be read
    room: u64,
}

/// Reads the documents that a document leads to, each once, if their files can be read: `MOST_PROCESSES` at most, since more are refused,
/// and 64 MiB in all.
///
/// A document with a fault names nothing here: what is wrong, and what is absent, is said when the documents are put together.
pub fn reached_from<R: AllocGlobal + Files>(
    rt: &R,
    document: &Document,
    base: &Url,
) -> Result<Reached, AllocError> {
    let mut search = Search::new(rt.alloc());
    search.add_named(rt.alloc(), document, base)?;
    for _ in 0..u64::MAX {
        match search.next() {
            Some(url) => search.visit(rt, url)?,
            None => break,
        }
    }
    let Search {
        docs,
        missed,
        named,
        waiting,
        room: _,
    } = search;
    mem::drop(named);
    mem::drop(waiting);
    all_reached(rt.alloc(), docs, missed)
}

fn all_reached(
    alloc: Global,
    docs: Keyed<Document>,
    missed: Keyed<Unreadable>,
) -> Result<Reached, AllocError> {
    let files = files_of(alloc, &docs)?;
    match Docs::of(alloc, docs) {
        Ok(docs) => Ok(Reached {
            docs,
            files,
            missed,
        }),
        Err(error) => {
            mem::drop(files);
            mem::drop(missed);
            Err(error)
        }
    }
}

// The paths of the files that documents were read of, by their URLs.
fn files_of(alloc: Global, docs: &Keyed<Document>) -> Result<Items<Text>, AllocError> {
    let mut files = Items::new(alloc);
    for (url, _) in docs.as_slice() {
        if let Some(path) = path_at(alloc, url)? {
            files.push(path)?;
        }
    }
    Ok(files)
}

impl Search {
    fn new(alloc: Global) -> Search {
        Search {
            docs: Keyed::new(alloc),
            missed: Keyed::new(alloc),
            named: Keyed::new(alloc),
            waiting: Vec::new(alloc),
            room: MOST_BYTES,
        }
    }

    // The next file to be looked at.
    fn next(&mut self) -> Option<Text> {
        if self.docs.len() < MOST_PROCESSES {
            self.waiting.pop()
        } else {
            None
        }
    }

    // Reads the document of a URL, if it can be read.
    fn visit<R: AllocGlobal + Files>(&mut self, rt: &R, url: Text) -> Result<(), AllocError> {
        let Some(base) = url_of(rt.alloc(), &url)? else {
            return Ok(());
        };
        let Some(path) = path_of(rt.alloc(), &url, &base)? else {
            return Ok(());
        };
        match self.bytes_at(rt, path.as_str()) {
            Ok(bytes) => self.add_document(rt.alloc(), url, &base, bytes),
            Err(NoBytes::Unreadable(why)) => self.add_missed(path, why),
            Err(NoBytes::OutOfMemory) => Err(AllocError),
        }
    }

    // A file for which there is no room beside those that were read is not read, and no other one then is.
    fn bytes_at<R: AllocGlobal + Files>(&mut self, rt: &R, path: &str) -> Result<Vec<u8>, NoBytes> {
        let found = fs::metadata(rt, path)?;
        if found.is_file() && self.room < found.len() && found.len() <= MOST_BYTES {
            self.room = 0;
            return Err(NoBytes::Unreadable(Unreadable::TooMuch));
        }
        let bytes = bytes_of_file(rt, path)?;
        self.room = self.room.saturating_sub(bytes.len() as u64);
        Ok(bytes)
    }

    fn add_document(
        &mut self,
        alloc: Global,
        url: Text,
        base: &Url,
        bytes: Vec<u8>,
    ) -> Result<(), AllocError> {
        let document = Document::read(alloc, Items::from_vec(bytes))?;
        self.add_named(alloc, &document, base)?;
        self.docs.insert(url, document)?;
        Ok(())
    }

    fn add_missed(&mut self, path: Text, why: Unreadable) -> Result<(), AllocError> {
        self.missed.insert(path, why)?;
        Ok(())
    }

    // Adds the URLs that a document names.
    fn add_named(
        &mut self,
        alloc: Global,
        document: &Document,
        base: &Url,
    ) -> Result<(), AllocError> {
        match needed_docs(alloc, document, base) {
            Ok(urls) => self.add_all(alloc, urls.as_slice()),
            Err(LinkError::Refused(_)) => Ok(()),
            Err(LinkError::OutOfMemory) => Err(AllocError),
        }
    }

    fn add_all(&mut self, alloc: Global, urls: &[Text]) -> Result<(), AllocError> {
        for url in urls {
            if !self.named.contains(url.as_str()) {
                self.add(alloc, url)?;
            }
        }
        Ok(())
    }

    fn add(&mut self, alloc: Global, url: &Text) -> Result<(), AllocError> {
        self.waiting.push(url.copied(alloc)?)?;
        self.named.insert(url.copied(alloc)?, true)?;
        Ok(())
    }
}

/// The path that a URL names, if it names one.
pub fn path_at(alloc: Global, url: &Text) -> Result<Option<Text>, AllocError> {
    match url_of(alloc, url)? {
        Some(base) => path_of(alloc, url, &base),
        None => Ok(None),
    }
}

// The URL that a text is, if it is one.
fn url_of(alloc: Global, text: &Text) -> Result<Option<Url>, AllocError> {
    match Url::parse(alloc, text.as_str()) {
        Ok(url) => Ok(Some(url)),
        Err(ParseError::OutOfMemory) => Err(AllocError),
        Err(_) => Ok(None),
    }
}

fn path_of(alloc: Global, text: &Text, url: &Url) -> Result<Option<Text>, AllocError> {
    match location_to_path(alloc, text.as_str(), url) {
        Ok(path) => Ok(Some(Text::from_string(path))),
        Err(FileError::Refused(_)) => Ok(None),
        Err(FileError::OutOfMemory) => Err(AllocError),
    }
}
