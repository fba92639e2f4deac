//! A record that is looked into for a plan.
ghost use Rattle.std.specs.Prelude.{◌≡◌, ◌++◌};
ghost use Rattle.job_rows.specs.declared.log.Command.TheVariants as command;
ghost use Rattle.job_rows.specs.Log.{entries_of, told_of};
ghost use Rattle.job_rows.specs.Map.{RowMap, Finds, Puts, Touches, Drops};

use job_rows::{Record, RecordError, Row};
use plain_data::{Items, Text};
use plan_words::Known;
use run_facts::KeyParts;
use run_watch::Nearby;
use std::alloc::{AllocError, Global};

/// What a record said of a job, and how the job differs from the nearest one, in lines, if it is not recorded.
#[derive(Drop)]
pub struct Look {
    pub known: Known,
    pub near: Text,
}

/// Another record, with what it said of the jobs that it was asked for, in their order. What there is no room for is left out.
#[derive(Drop)]
pub struct Looks<'a, K: Record> {
    rows: &'a mut K,
    nearby: Nearby<'a>,
    answers: Vec<Look>,
}

impl<'a, K: Record> Looks<'a, K> {
    /// Looks into a record that had these jobs.
    pub fn new(alloc: Global, kept: &'a [KeyParts], rows: &'a mut K) -> Looks<'a, K> {
        Looks {
            rows,
            nearby: Nearby::new(alloc, kept),
            answers: Vec::new(alloc),
        }
    }

    /// What the record said.
    pub fn answers(&self) -> &[Look] {
        self.answers.as_slice()
    }
}

impl<K: Record> Record for Looks<'_, K> {
    ghost log = { λ looks. K.log looks.rows.now };

    ghost is_sound = { λ looks. K.is_sound looks.rows.now };

    ghost holds = { λ looks map. K.holds looks.rows.now map };

    fn find(&mut self, key: &Text) -> Result<Option<Row>, RecordError> {
        let answer = self.rows.find(key);
        if let Ok(row) = &answer {
            let _noted = note(&mut self.answers, &mut self.nearby, key, row);
        }
        answer
    }

    fn put(&mut self, row: &Row) -> Result<Items<Text>, RecordError> {
        self.rows.put(row)
    }

    fn touch(&mut self, key: &Text) -> Result<(), RecordError> {
        self.rows.touch(key)
    }

    fn drop_archive(&mut self, key: &Text) -> Result<(), RecordError> {
        self.rows.drop_archive(key)
    }
}

fn note(
    answers: &mut Vec<Look>,
    nearby: &mut Nearby<'_>,
    key: &Text,
    row: &Option<Row>,
) -> Result<(), AllocError> {
    let near = nearby.lines_on(key, row.is_some())?;
    let known = known_by(row);
    answers.push(Look { known, near })?;
    Ok(())
}

// What a row says of its job.
fn known_by(row: &Option<Row>) -> Known {
    match row {
        None => Known::NotRecorded,
        Some(row) if row.archived => Known::Archived,
        Some(_) => Known::NotArchived,
    }
}
