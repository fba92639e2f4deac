//! The jobs that made the Files and Directories in some values, found without going down the values for each job.
ghost use Rattle.std.specs.Prelude.{◌≡◌, ◌||◌, IfOk, OnOk, false, map, true};
ghost use Rattle.std.specs.List.{list_any};
ghost use Rattle.plain_data.specs.ByName.{map_values};
ghost use Rattle.job_graph.specs.Words.{JobPlace, is_same_place};
ghost use Rattle.cwl_value.specs.Fileless.{some_true};
ghost use Rattle.job_graph.specs.Made.{any_made, dir_holds, file_holds, holds_made, is_of};
ghost use Rattle.job_graph.specs.inner.Makers.{Gathers, Puts, is_noted, is_this};
ghost use Rattle.job_graph.specs.inner.Marks.{mark_of};

use crate::known::Known;
use crate::mark::mark_of;
use crate::place::is_same_place;
use cwl_value::{DirVal, FileVal, JobPlace, Place, Value};
use plain_data::{Keyed, Text};
use std::alloc::{AllocError, Global};
use std::collections::{BTreeMap, BTreeSet};
use std::marker::Model;

/// Named values, which contracts see as the list of them, with the jobs that made what is in them.
#[derive(Drop)]
pub(crate) struct Makers<'v> {
    fields: &'v [(Text, Value)],
    noted: Noted<'v>,
}

impl<'v> Model for Makers<'v> {
    ghost use Rattle.job_graph.specs.Words.{Fields, JobPlace};
    ghost use Rattle.job_graph.specs.inner.Makers.{AreMakers};

    ghost Value = { Fields };

    ghost use Rattle.cwl_value.specs.contracts.value.Value as value;
    ghost use Rattle.std.specs.Coded.{coded_list, coded×, coded_ℕ};

    ghost coded = { coded_list (coded× (coded_list coded_ℕ) value.the_row.coded) };

    ghost view = { λ fields. fields.fields.now };

    ghost invariant = { λ fields. AreMakers fields.noted fields.fields.now };
}

impl<'v> Makers<'v> {
    /// The jobs that made a File or Directory in one of the values.
    pub(crate) fn of(alloc: Global, fields: &'v [(Text, Value)]) -> Result<Makers<'v>, AllocError>
        ensures { IfOk result (λ makers. makers ≡ fields.now) }
    {
        let noted = noted_in(alloc, fields)?;
        Ok(Makers { fields, noted })
    }

    /// Whether no job made one.
    pub(crate) fn is_empty(&self) -> bool
        ensures { result ≡ true → (job : JobPlace) → any_made job self.now ≡ false }
    {
        self.noted.is_empty()
    }

    /// Whether the job at a place made one, where the mark of the place is given too.
    pub(crate) fn has(&self, job: &JobPlace, mark: u64) -> bool
        requires { mark ≡ mark_of job.now }
        ensures { result ≡ any_made job.now self.now }
    {
        self.noted.has(job, mark)
    }

    /// The numbers of all known jobs that made one, and maybe of others, in ascending order.
    pub(crate) fn numbers(
        &self,
        alloc: Global,
        known: &Known<'_>,
    ) -> Result<BTreeSet<usize>, AllocError>
        ensures { IfOk result (Gathers (λ job. any_made job self.now) known.now) }
    {
        self.noted.numbers(alloc, known)
    }
}

/// Places of jobs, by their marks.
#[derive(Drop)]
pub(crate) struct Noted<'v> {
    by_mark: BTreeMap<u64, &'v JobPlace>,
    /// Those whose mark another place has, which is rare.
    others: Vec<&'v JobPlace>,
}

impl<'v> Noted<'v> {
    fn new(alloc: Global) -> Noted<'v>
        ensures { (job : JobPlace) → is_noted job result ≡ false }
    {
        Noted {
            by_mark: BTreeMap::new(alloc),
            others: Vec::new(alloc),
        }
    }

    fn is_empty(&self) -> bool
        ensures { result ≡ true → (job : JobPlace) → is_noted job self.now ≡ false }
    {
        self.by_mark.is_empty() && self.others.is_empty()
    }

    fn has(&self, job: &JobPlace, mark: u64) -> bool
        requires { mark ≡ mark_of job.now }
        ensures { result ≡ is_noted job.now self.now }
    {
        if let Some(place) = self.by_mark.get(&mark) {
            if is_same_place(place.as_slice(), job.as_slice()) {
                return true;
            }
        }
        self.is_other(job)
    }

    fn numbers(&self, alloc: Global, known: &Known<'_>) -> Result<BTreeSet<usize>, AllocError>
        ensures { IfOk result (Gathers (λ job. is_noted job self.now) known.now) }
    {
        let mut numbers = BTreeSet::new(alloc);
        for place in self.by_mark.values() {
            put_number(&mut numbers, known, place)?;
        }
        put_numbers(&mut numbers, known, self.others.as_slice())?;
        Ok(numbers)
    }

    fn is_other(&self, job: &JobPlace) -> bool
        ensures { result ≡ list_any (is_this job.now) self.now.others.items }
    {
        for place in &self.others {
            if is_same_place(place.as_slice(), job.as_slice()) {
                return true;
            }
        }
        false
    }

    fn add(&mut self, place: &'v JobPlace) -> Result<(), AllocError>
        ensures { OnOk result ((job : JobPlace) → is_noted job self.new
            ≡ (is_noted job self.old || is_same_place place.now job)) }
    {
        let mark = mark_of(place.as_slice());
        match self.by_mark.get(&mark).copied() {
            None => {
                self.by_mark.insert(mark, place)?;
            }
            Some(found) => {
                if !is_same_place(found.as_slice(), place.as_slice()) {
                    self.others.push(place)?;
                }
            }
        }
        Ok(())
    }
}

/// Puts the numbers of the known jobs at these places.
fn put_numbers(
    numbers: &mut BTreeSet<usize>,
    known: &Known<'_>,
    places: &[&JobPlace],
) -> Result<(), AllocError>
    ensures { OnOk result (Puts (λ job. list_any (is_this job) places.now) known.now numbers.old
        numbers.new) }
{
    for place in places {
        put_number(numbers, known, place)?;
    }
    Ok(())
}

fn put_number(
    numbers: &mut BTreeSet<usize>,
    known: &Known<'_>,
    place: &JobPlace,
) -> Result<(), AllocError>
    ensures { OnOk result (Puts (is_same_place place.now) known.now numbers.old numbers.new) }
{
    if let Some(number) = known.number_of(place) {
        numbers.insert(number)?;
    }
    Ok(())
}

fn noted_in<'v>(alloc: Global, fields: &'v [(Text, Value)]) -> Result<Noted<'v>, AllocError>
    ensures { IfOk result (λ noted. (job : JobPlace) → is_noted job noted
        ≡ any_made job fields.now) }
{
    let mut noted = Noted::new(alloc);
    for field in fields {
        note_value(&mut noted, &field.1)?;
    }
    Ok(noted)
}

/// Notes who made what is in a value, at any depth.
#[cycle(noting)]
fn note_value<'v>(noted: &mut Noted<'v>, value: &'v Value) -> Result<(), AllocError>
    ensures { OnOk result ((job : JobPlace) → is_noted job noted.new
        ≡ (is_noted job noted.old || holds_made job value.now)) }
{
    match value {
        Value::FileVal(file) => note_file(noted, file),
        Value::DirVal(dir) => note_dir(noted, dir),
        Value::List(items) => note_items(noted, items.as_slice()),
        Value::Fields(fields) => note_fields(noted, fields),
        _ => Ok(()),
    }
}

#[cycle(noting)]
fn note_file<'v>(noted: &mut Noted<'v>, file: &'v FileVal) -> Result<(), AllocError>
    ensures { OnOk result ((job : JobPlace) → is_noted job noted.new
        ≡ (is_noted job noted.old || file_holds job file.now)) }
{
    note_place(noted, &file.place)?;
    note_items(noted, file.secondary.as_slice())
}

#[cycle(noting)]
fn note_dir<'v>(noted: &mut Noted<'v>, dir: &'v DirVal) -> Result<(), AllocError>
    ensures { OnOk result ((job : JobPlace) → is_noted job noted.new
        ≡ (is_noted job noted.old || dir_holds job dir.now)) }
{
    note_place(noted, &dir.place)?;
    match &dir.listing {
        None => Ok(()),
        Some(items) => note_items(noted, items.as_slice()),
    }
}

#[cycle(noting)]
fn note_items<'v>(noted: &mut Noted<'v>, items: &'v [Value]) -> Result<(), AllocError>
    ensures { OnOk result ((job : JobPlace) → is_noted job noted.new
        ≡ (is_noted job noted.old || some_true (map (holds_made job) items.now))) }
{
    for item in items {
        note_value(noted, item)?;
    }
    Ok(())
}

#[cycle(noting)]
fn note_fields<'v>(noted: &mut Noted<'v>, fields: &'v Keyed<Value>) -> Result<(), AllocError>
    ensures { OnOk result ((job : JobPlace) → is_noted job noted.new
        ≡ (is_noted job noted.old
        || some_true (map (λ f. f.1) (map_values (holds_made job) fields.now)))) }
{
    for field in fields.as_slice() {
        note_value(noted, &field.1)?;
    }
    Ok(())
}

fn note_place<'v>(noted: &mut Noted<'v>, place: &'v Place) -> Result<(), AllocError>
    ensures { OnOk result ((job : JobPlace) → is_noted job noted.new
        ≡ (is_noted job noted.old || is_of job place.now)) }
{
    match place {
        Place::Made(maker, _) => noted.add(maker),
        _ => Ok(()),
    }
}
