ghost use Rattle.std.specs.Prelude.{◌≡◌, OnOk};
ghost use Rattle.record_program.specs.Endings.{IsEnding, Prints, status_of, unclosed};

use job_record::RecordFault;
use plain_data::Text;
use sqlite::Error;
use std::io;
use std::io::Write;

/// How the command ends.
#[derive(Drop)]
pub enum Ending {
    /// The lines of the rows, for standard output.
    Rows(Text),
    /// The file is not there, is a folder, or can't be looked at.
    Input,
    /// The record was refused.
    Record(RecordFault),
}

impl Ending {
    /// Returns the exit status: 0, or 3 for a fault.
    pub fn status(&self) -> u8
        ensures { result ≡ status_of self.now }
    {
        match self {
            Ending::Rows(_) => 0,
            Ending::Input | Ending::Record(_) => 3,
        }
    }

    /// Writes the rows to `out`, or the fault to `err`.
    pub fn print<O: Write, E: Write>(&self, out: &mut O, err: &mut E) -> io::Result<()>
        ensures { OnOk result (Prints self.now (O.contents out.old) (O.contents out.new)
            (E.contents err.old) (E.contents err.new)) }
    {
        match self {
            Ending::Rows(lines) => write!(out, "{lines}"),
            Ending::Input => writeln!(err, "fault: input"),
            Ending::Record(fault) => writeln!(err, "fault: {}", fault.code()),
        }
    }
}

/// Returns how the command ends if the record could not be closed: with that, in place of rows. What went wrong first is said.
#[tactic(auto, using(crate::specs::Endings::no_file, crate::specs::Endings::faulty))]
pub fn unclosed(ending: Ending, error: Error) -> Ending
    ensures told { result ≡ unclosed error ending }
    ensures ending { IsEnding ending → IsEnding result }
    ensures status { status_of result ≡ 3 }
{
    match ending {
        Ending::Rows(_) => Ending::Record(RecordFault::Store(error)),
        other => other,
    }
}
