//! What the folder of a cache's files has that its record does not know, and the other way round.
ghost use Rattle.std.specs.Prelude.{◌≡◌, ◌<◌, IfOk, IfErr, filter, not};
ghost use Rattle.std.specs.List.{list_all};
ghost use Rattle.plain_data.specs.ByName.{by_name, names, times};
ghost use Rattle.job_record.specs.declared.fault.RecordFault.TheVariants.{NotARecord, OutOfMemory};
ghost use Rattle.record_program.specs.Checking as spec;

use crate::lines::sum_of_key;
use job_record::RecordFault;
use job_rows::Archive;
use plain_data::{Items, Keyed, Text};
use std::alloc::{AllocError, Global};

/// How many digits a SHA-1 has.
const DIGITS: usize = 40;

/// How the folder of a cache's files and the archives of its record differ, in the order of bytes.
#[derive(Drop)]
pub struct Difference {
    /// The names of folders that have nothing of an archive.
    pub unknown: Items<Text>,
    /// The sums of the keys of archives that have no folder.
    pub missing: Items<Text>,
}

/// Compares the names in the folder of a cache's files with the archives of its record. Other names than those of an archive, and of what
/// stores of one left, are passed over.
///
/// # Errors
///
/// R1 if a name is there twice, or the keys of two archives have one sum; out of memory.
pub fn compared(
    alloc: Global,
    names: &[Text],
    archives: &[Archive],
) -> Result<Difference, RecordFault>
    ensures unknown { IfOk result (λ found. found.unknown ≡ spec.unknown names.now archives.now) }
    ensures missing { IfOk result (λ found. found.missing ≡ spec.missing names.now archives.now) }
    ensures err { IfErr result (spec.Refuses names.now archives.now) }
{
    let folders = folders_of(alloc, names)?;
    let sums = sums_of(alloc, archives)?;
    differ(alloc, &folders, &sums)
}

fn differ(alloc: Global, folders: &Keyed<()>, sums: &Keyed<()>) -> Result<Difference, RecordFault>
    ensures unknown { IfOk result (λ found. found.unknown
        ≡ filter (λ name. not (spec.may_hold (spec.is_in folders.now) (spec.is_in sums.now) name))
        (names folders.now)) }
    ensures missing { IfOk result (λ found. found.missing
        ≡ filter (λ sum. not (spec.is_in folders.now sum)) (names sums.now)) }
    ensures err { IfErr result (λ fault. fault ≡ OutOfMemory) }
{
    Ok(Difference {
        unknown: unknown_of(alloc, folders, sums)?,
        missing: missing_of(alloc, folders, sums)?,
    })
}

fn folders_of(alloc: Global, names: &[Text]) -> Result<Keyed<()>, RecordFault>
    ensures ok { IfOk result (λ keyed. keyed ≡ by_name (spec.entries (spec.stored names.now))) }
    ensures err { IfErr result (spec.IsUnordered (spec.stored names.now)) }
{
    in_order(stored(alloc, names)?)
}

fn sums_of(alloc: Global, archives: &[Archive]) -> Result<Keyed<()>, RecordFault>
    ensures ok { IfOk result (λ keyed. keyed ≡ by_name (spec.entries (spec.sums archives.now))) }
    ensures err { IfErr result (spec.IsUnordered (spec.sums archives.now)) }
{
    in_order(sums(alloc, archives)?)
}

fn in_order(texts: Vec<(Text, ())>) -> Result<Keyed<()>, RecordFault>
    ensures ok { IfOk result (λ keyed. keyed ≡ by_name texts.items) }
    ensures err { IfErr result (λ fault. (fault ≡ NotARecord)
        × ((name : _) × (1 < times name texts.items))) }
{
    match Keyed::from_entries(texts) {
        Ok(keyed) => Ok(keyed),
        Err(_) => Err(RecordFault::NotARecord),
    }
}

// Each is found by halving.
fn unknown_of(
    alloc: Global,
    folders: &Keyed<()>,
    sums: &Keyed<()>,
) -> Result<Items<Text>, AllocError>
    ensures { IfOk result (λ left. left
        ≡ filter (λ name. not (spec.may_hold (spec.is_in folders.now) (spec.is_in sums.now) name))
        (names folders.now)) }
{
    let mut left = Items::new(alloc);
    for folder in folders.as_slice() {
        if !may_hold(folders, sums, folder.0.as_str()) {
            left.push(folder.0.copied(alloc)?)?;
        }
    }
    Ok(left)
}

// Whether a folder may have the files of an archive: it is its own, or the only one that stores of it left.
fn may_hold(folders: &Keyed<()>, sums: &Keyed<()>, name: &str) -> bool
    ensures { result ≡ spec.may_hold (spec.is_in folders.now) (spec.is_in sums.now) name.now }
{
    sums.contains(name) || is_only_left(folders, sums, name)
}

fn is_only_left(folders: &Keyed<()>, sums: &Keyed<()>, name: &str) -> bool
    ensures { result ≡ spec.is_only_left (spec.is_in folders.now) (spec.is_in sums.now) name.now }
{
    match name.strip_prefix('.') {
        Some(sum) => sums.contains(sum) && !folders.contains(sum),
        None => false,
    }
}

fn missing_of(
    alloc: Global,
    folders: &Keyed<()>,
    sums: &Keyed<()>,
) -> Result<Items<Text>, AllocError>
    ensures { IfOk result (λ left. left
        ≡ filter (λ sum. not (spec.is_in folders.now sum)) (names sums.now)) }
{
    let mut left = Items::new(alloc);
    for sum in sums.as_slice() {
        if !folders.contains(sum.0.as_str()) {
            left.push(sum.0.copied(alloc)?)?;
        }
    }
    Ok(left)
}

fn stored(alloc: Global, all: &[Text]) -> Result<Vec<(Text, ())>, AllocError>
    ensures { IfOk result (λ entries. entries.items ≡ spec.entries (spec.stored all.now)) }
{
    let mut entries = Vec::new(alloc);
    for name in all {
        if is_stored(name.as_str()) {
            entries.push((name.copied(alloc)?, ()))?;
        }
    }
    Ok(entries)
}

fn sums(alloc: Global, archives: &[Archive]) -> Result<Vec<(Text, ())>, AllocError>
    ensures { IfOk result (λ entries. entries.items ≡ spec.entries (spec.sums archives.now)) }
{
    let mut entries = Vec::new(alloc);
    for archive in archives {
        let sum = sum_of_key(alloc, archive.key.as_str())?;
        entries.push((Text::from_string(sum), ()))?;
    }
    Ok(entries)
}

/// Whether a name is that of an archive, or of what stores of one left.
pub fn is_stored(name: &str) -> bool
    ensures { result ≡ spec.is_stored name.now }
{
    match name.as_bytes() {
        [b'.', digits @ ..] => is_sum(digits),
        digits => is_sum(digits),
    }
}

fn is_sum(digits: &[u8]) -> bool
    ensures { result ≡ spec.is_sum digits.now }
{
    digits.len() == DIGITS && are_digits(digits)
}

fn are_digits(digits: &[u8]) -> bool
    ensures { result ≡ list_all spec.is_digit digits.now }
{
    digits.iter().all(|digit| is_digit(*digit))
}

fn is_digit(digit: u8) -> bool
    ensures { result ≡ spec.is_digit digit }
{
    matches!(digit, b'0'..=b'9' | b'a'..=b'f')
}
