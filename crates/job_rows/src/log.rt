ghost use Rattle.std.specs.Prelude.{◌≡◌, ◌+◌, ◌++◌, ◌≤◌, IfOk, OnOk};
ghost use Rattle.std.specs.Vec.{vec_len, vec_capacity};
ghost use Rattle.job_rows.specs.Log.{entries_of, told_of};

use crate::{RecordError, RecordRefusal};
use plain_data::Text;
use std::alloc::{AllocError, Global};

/// The commands of a record.
#[derive(Clone, Copy, Debug, PartialEq, Eq)]
pub enum Command {
    Find,
    Put,
    Touch,
    DropArchive,
    Forget,
}

/// One line of a record's log: what was asked, under which key, and whether it was done or refused.
#[derive(Drop)]
pub struct Entry {
    pub command: Command,
    pub key: Text,
    pub answer: Result<(), RecordRefusal>,
}

/// A copy of the key, and room for an entry of the log.
pub(crate) fn room(alloc: Global, log: &mut Vec<Entry>, key: &Text) -> Result<Text, AllocError>
    ensures key { IfOk result (λ copy. copy ≡ key.now) }
    ensures room { OnOk result (vec_len log.new + 1 ≤ vec_capacity log.new) }
    ensures same { log.new.items ≡ log.old.items }
{
    log.reserve(1)?;
    key.copied(alloc)
}

/// Notes in the log what a command was answered, where there is something to tell.
pub(crate) fn note(
    log: &mut Vec<Entry>,
    command: Command,
    key: Text,
    told: Option<Result<(), RecordRefusal>>,
)
    requires { vec_len log.old + 1 ≤ vec_capacity log.old }
    ensures { log.new.items ≡ log.old.items ++ entries_of command key told }
{
    if let Some(answer) = told {
        log.push_reserved(Entry {
            command,
            key,
            answer,
        });
    }
}

/// What the log says of a command: done, its refusal, or nothing where memory ran out.
pub(crate) fn told_of<T>(answer: &Result<T, RecordError>) -> Option<Result<(), RecordRefusal>>
    ensures { result ≡ told_of answer.now }
{
    match answer {
        Ok(_) => Some(Ok(())),
        Err(RecordError::Refused(refusal)) => Some(Err(*refusal)),
        Err(RecordError::OutOfMemory) => None,
    }
}
