//! The archives of a record, by the rising numbers of their last use.

ghost use Rattle.std.specs.Prelude.{◌≡◌, ◌+◌, ◌-◌, ◌++◌, ◌∷◌, ◌≤◌, ◌<◌, [], take, drop, find, option_map, option_to_list, IsTrue, IfOk, IfErr, OnOk, OnErr};
ghost use Rattle.std.specs.Option.{option_copied};
ghost use Rattle.std.specs.Vec.{vec_len, vec_capacity};
ghost use Rattle.job_rows.specs.declared.refusal.RecordError.TheVariants.{Refused};
ghost use Rattle.job_rows.specs.declared.refusal.RecordRefusal.TheVariants.{UsesSpent};
ghost use Rattle.job_rows.specs.Map.{AreSpent, AreUnspent, fits, has_archive, is_of, keeps_archive, keys_in, left_for, loses_own, lost_by, lost_count, next_used, own_archives, own_keys, total_bytes, touched, without_archive};
ghost use Rattle.job_rows.specs.Memory.{CannotPut, CannotTouch};
ghost use Rattle.job_rows.specs.inner.Ready.{IsReady};

use crate::archive::Archive;
use crate::{RecordError, RecordRefusal, Row};
use plain_data::{Items, Text};
use std::alloc::{AllocError, Global};

/// The greatest number of a use and of bytes, which is that of a store.
pub(crate) const GREATEST_NUMBER: u64 = 9_223_372_036_854_775_807;

pub(crate) fn has_archive(archives: &[Archive], key: &Text) -> bool
    ensures { result ≡ has_archive key.now archives.now }
{
    archives.iter().any(|archive| *key == archive.key)
}

/// Takes the archive of a key out.
pub(crate) fn remove(archives: &mut Vec<Archive>, key: &Text)
    ensures items { archives.new.items ≡ without_archive key.now archives.old.items }
    ensures len { vec_len archives.new ≤ vec_len archives.old }
    ensures capacity { vec_capacity archives.new ≡ vec_capacity archives.old }
{
    archives.retain(|archive| *key != archive.key);
}

/// Notes that the archive of a key was used: it comes last. R3 where there is none, and R5 where no number is left.
pub(crate) fn touch(
    alloc: Global,
    archives: &mut Vec<Archive>,
    key: &Text,
) -> Result<(), RecordError>
    ensures ok { OnOk result (archives.new.items ≡ touched key.now archives.old.items) }
    ensures can { OnOk result (IsTrue (has_archive key.now archives.old.items)
        × AreUnspent archives.old.items) }
    ensures same { OnErr result (archives.new.items ≡ archives.old.items) }
    ensures err { IfErr result (CannotTouch key.now archives.old.items) }
{
    let Some(archive) = archive_at(archives, key) else {
        return Err(RecordError::Refused(RecordRefusal::NoRow));
    };
    let bytes = archive.bytes;
    let used = next_used(archives)?;
    let key = key.copied(alloc)?;
    archives.reserve(1)?;
    renew(archives, Archive { key, bytes, used });
    Ok(())
}

fn archive_at<'a>(archives: &'a [Archive], key: &Text) -> Option<&'a Archive>
    ensures { option_copied result ≡ find (is_of key.now) archives.now }
{
    archives.iter().find(|archive| *key == archive.key)
}

// The number of the next use: R5 where none is left.
fn next_used(archives: &[Archive]) -> Result<u64, RecordError>
    ensures ok { IfOk result (λ used. used ≡ next_used archives.now) }
    ensures unspent { OnOk result (AreUnspent archives.now) }
    ensures err { IfErr result (λ e. (e ≡ Refused UsesSpent) × AreSpent archives.now) }
{
    let mut greatest = 0;
    for archive in archives {
        greatest = archive.used.max(greatest);
    }
    if greatest >= GREATEST_NUMBER {
        return Err(RecordError::Refused(RecordRefusal::UsesSpent));
    }
    Ok(greatest + 1)
}

// Puts an archive last, in place of the one that its key had.
fn renew(archives: &mut Vec<Archive>, archive: Archive)
    requires { vec_len archives.old < vec_capacity archives.old }
    ensures { archives.new.items
        ≡ without_archive archive.key archives.old.items ++ archive ∷ [] }
{
    remove(archives, &archive.key);
    archives.push_reserved(archive);
}

/// What a row needs to be put: its archive, and room for the keys that are without theirs by it.
#[derive(Drop)]
pub(crate) struct Ready {
    archive: Option<Archive>,
    own: Option<Text>,
    lost: Vec<Text>,
}

impl Ready {
    /// Makes what a row needs, and changes nothing. R5 where the row needs a number and none is left.
    pub(crate) fn new(
        alloc: Global,
        archives: &mut Vec<Archive>,
        budget: Option<u64>,
        row: &Row,
    ) -> Result<Ready, RecordError>
        ensures same { archives.new.items ≡ archives.old.items }
        ensures ready { IfOk result (IsReady row.now budget archives.new) }
        ensures can { OnOk result (IsTrue (keeps_archive row.now budget)
            → AreUnspent archives.old.items) }
        ensures err { IfErr result (CannotPut row.now budget archives.old.items) }
    {
        let archive = own_archive(alloc, archives.as_slice(), budget, row)?;
        let own = own_key(alloc, archives.as_slice(), budget, row)?;
        let count = lost_count(archives.as_slice(), room_beside(budget, &archive));
        let mut lost = Vec::new(alloc);
        lost.reserve(count + 1)?;
        archives.reserve(1)?;
        Ok(Ready { archive, own, lost })
    }

    /// Makes of the archives what the row that is put makes of them, and returns the keys that are without theirs.
    pub(crate) fn put(
        self,
        archives: &mut Vec<Archive>,
        budget: Option<u64>,
        row: &Row,
    ) -> Items<Text>
        requires { IsReady row.now budget archives.old self }
        ensures archives { archives.new.items ≡ left_for row.now budget archives.old.items }
        ensures lost { result ≡ lost_by row.now budget archives.old.items }
    {
        let Ready {
            archive,
            own,
            mut lost,
        } = self;
        match archive {
            Some(archive) => renew(archives, archive),
            None => remove(archives, &row.key),
        }
        lose(archives, budget, &mut lost);
        if let Some(own) = own {
            lost.push_reserved(own);
        }
        Items::from_vec(lost)
    }
}

// The archive that the row gets, if any, with the next number.
fn own_archive(
    alloc: Global,
    archives: &[Archive],
    budget: Option<u64>,
    row: &Row,
) -> Result<Option<Archive>, RecordError>
    ensures ok { IfOk result (λ own. option_to_list own
        ≡ own_archives row.now budget archives.now) }
    ensures can { OnOk result (IsTrue (keeps_archive row.now budget) → AreUnspent archives.now) }
    ensures err { IfErr result (CannotPut row.now budget archives.now) }
{
    if !keeps_archive(row, budget) {
        return Ok(None);
    }
    let used = next_used(archives)?;
    Ok(Some(Archive {
        key: row.key.copied(alloc)?,
        bytes: row.bytes(),
        used,
    }))
}

// The key of the row, where its own archive is lost or refused.
fn own_key(
    alloc: Global,
    archives: &[Archive],
    budget: Option<u64>,
    row: &Row,
) -> Result<Option<Text>, AllocError>
    ensures { IfOk result (λ own. option_to_list own ≡ own_keys row.now budget archives.now) }
{
    if loses_own(archives, budget, row) {
        return Ok(Some(row.key.copied(alloc)?));
    }
    Ok(None)
}

fn loses_own(archives: &[Archive], budget: Option<u64>, row: &Row) -> bool
    ensures { result ≡ loses_own row.now budget archives.now }
{
    !keeps_archive(row, budget) && (row.archived || has_archive(archives, &row.key))
}

// Whether the row has an archive that alone is within the budget.
fn keeps_archive(row: &Row, budget: Option<u64>) -> bool
    ensures { result ≡ keeps_archive row.now budget }
{
    row.archived && fits(row.bytes(), budget)
}

fn fits(bytes: u64, budget: Option<u64>) -> bool
    ensures { result ≡ fits bytes budget }
{
    match budget {
        Some(budget) => bytes <= budget,
        None => true,
    }
}

// What the budget has for the other archives.
fn room_beside(budget: Option<u64>, own: &Option<Archive>) -> Option<u64>
    ensures { result ≡ option_map (λ bytes. bytes - total_bytes (option_to_list own.now)) budget }
{
    match (budget, own) {
        (Some(budget), Some(own)) => Some(budget.saturating_sub(own.bytes)),
        _ => budget,
    }
}

/// Returns how many archives have to go, the first of these, until the rest is within the budget.
pub fn lost_count(archives: &[Archive], budget: Option<u64>) -> usize
    ensures { result ≡ lost_count budget archives.now }
{
    let Some(most) = budget else {
        return 0;
    };
    let mut room = most;
    let mut count = archives.len();
    while count > 0 && archives[count - 1].bytes <= room {
        count -= 1;
        room -= archives[count].bytes;
    }
    count
}

// Takes out the archives that have to go, and adds their keys to the list, which has room for them.
fn lose(archives: &mut Vec<Archive>, budget: Option<u64>, lost: &mut Vec<Text>)
    requires { vec_len lost.old + lost_count budget archives.old.items < vec_capacity lost.old }
    ensures left { archives.new.items
        ≡ drop (lost_count budget archives.old.items) archives.old.items }
    ensures lost { lost.new.items ≡ lost.old.items
        ++ keys_in (take (lost_count budget archives.old.items) archives.old.items) }
    ensures room { vec_len lost.new < vec_capacity lost.new }
{
    let count = lost_count(archives.as_slice(), budget);
    for _ in 0..count {
        let Archive { key, .. } = archives.remove(0);
        lost.push_reserved(key);
    }
}
