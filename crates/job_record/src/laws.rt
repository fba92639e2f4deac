//! Laws of the record: each is the contract of a function that does nothing.
ghost use Rattle.sqlite.specs.Held.{state};
ghost use Rattle.job_record.specs.Commands.{CompilesThere};
ghost use Rattle.job_record.specs.Crash.{FindsAgain};
ghost use Rattle.job_record.specs.Places.{StandsFirst, StandsMade};
ghost use Rattle.job_record.specs.Rows.{HasRows};

use sqlite::{Alter, Connection};

/// A connection that is opened over what a record left shows that record: what a close, a stop or a power cut left of it.
pub fn see_record<S: Alter>(_conn: &Connection<S>)
    ensures { FindsAgain (state S.Store _conn.now) }
{}

/// The columns of each record read as some map of rows, so that what is said of a run with any map is said of any record.
pub fn see_rows<S: Alter>(_conn: &Connection<S>)
    ensures { HasRows (state S.Store _conn.now) }
{}

/// Each statement of the record is understood as its command wherever the three tables stand, also with tables of others
/// before them or between them: it writes to a table at its place, and reads it by its tree.
pub fn see_statements<S: Alter>(_conn: &Connection<S>)
    ensures { CompilesThere (state S.Store _conn.now).now.schema }
{}

/// The tables that version 1 made stand behind all that was there, and the store takes the third: such a store is migrated.
pub fn see_first_tables<S: Alter>(_conn: &Connection<S>)
    ensures { StandsFirst (state S.Store _conn.now).now.schema }
{}

/// In a store where no table has one of the three names, the tables of a new record stand behind all that is there.
pub fn see_tables<S: Alter>(_conn: &Connection<S>)
    ensures { StandsMade (state S.Store _conn.now).now.schema }
{}
