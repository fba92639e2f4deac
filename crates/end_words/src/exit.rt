ghost use Rattle.std.specs.Prelude.{◌≡◌, OnOk};
ghost use Rattle.std.specs.Io.KnownBytes.{Appends};
ghost use Rattle.end_words.specs.Status.{status_of};
ghost use Rattle.end_words.specs.Told.{Prints};
ghost use Rattle.end_words.specs.Words.{name_of, word_of, refusal_code};

use cwl_value::ValueRefusal;
use document_links::LinkFault;
use file_values::FileFault;
use job_record::RecordFault;
use job_rows::RecordRefusal;
use plain_data::Text;
use plan_checker::Broken;
use proc_host::HostFault;
use process_machine::Hindrance;
use record_program::Ending;
use run_facts::WorkTrouble;
use run_rules::Cause;
use std::io;
use std::io::Write;
use workflow_check::LinkCheckFault;

/// How the program ends, and what it says.
#[derive(Drop)]
pub enum Exit {
    /// A line for standard output.
    Output(Text),
    /// What a plan is.
    Plan(PlanTexts),
    /// A certificate breaks this rule.
    Broken(Broken),
    /// The rows of a record, or why they can't be shown.
    Record(Ending),
    /// A job failed permanently: its place as JSON text, and why.
    Permanent(Text, Cause),
    /// A job failed temporarily; its place as JSON text.
    Temporary(Text),
    /// The job at this place (as JSON text) did not give what its row in the record has.
    Mismatch(Text),
    /// What the program was given is refused.
    Refused(Refusal),
    /// Anything else went wrong.
    Fault(Fault),
}

/// What is said of a plan.
#[derive(Drop)]
pub struct PlanTexts {
    /// Its certificate or its picture, for standard output.
    pub paper: Text,
    /// What it costs, and what is done with each job.
    pub lines: Text,
    /// Why that is done, in words.
    pub reasons: Text,
}

/// Why what the program was given is no document, input object or certificate.
#[derive(Drop)]
pub enum Refusal {
    /// The document, or one that it leads to, represents no process.
    Document(LinkFault),
    /// A link of the process is wrong.
    Links(LinkCheckFault),
    Inputs(ValueRefusal),
    /// A document or a file of the inputs has no path.
    Location(FileFault),
    /// The text is no certificate's, and this line is the first that is wrong, counted from 1.
    Certificate(usize),
}

/// What went wrong outside documents and jobs.
#[derive(Drop)]
pub enum Fault {
    /// A call of the host failed: which, and the path or the program that it was about.
    Host(HostFault, Option<Text>),
    /// The record of jobs refused a command.
    Record(RecordRefusal),
    /// The record of the file of this name can't be opened, and why.
    Unopened(Text, RecordFault),
    /// The words name a cache beside a record or an archive.
    Words,
    /// The words of `record` can't be used with one another, or name no cache.
    RecordWords,
    /// The name of the current folder can't be found.
    Folder,
    /// The file of this name can't be read, and why.
    Unread(Text, Unreadable),
    /// The value of the inputs' text is no object.
    NoObject,
    /// The work folder of this path is there already, or can't be made, and why.
    Work(Text, WorkTrouble),
    /// The output folder of this path can't be used, and why.
    Outdir(Text, Hindrance),
    /// A run has more jobs than the limits allow.
    TooManyJobs,
    OutOfMemory,
}

/// Why a file can't be read.
#[derive(Clone, Copy, Debug, PartialEq, Eq)]
pub enum Unreadable {
    Absent,
    Forbidden,
    IsFolder,
    /// It is neither a file nor a folder.
    NoFile,
    /// It has this many bytes, which are too many.
    TooLong(u64),
    /// With the documents that were read before it there are too many bytes.
    TooMuch,
    Other,
}

impl Refusal {
    /// The refusal's short name.
    pub fn code(&self) -> &'static str
        ensures { result.now ≡ refusal_code self.now }
    {
        match self {
            Refusal::Document(fault) => fault.code(),
            Refusal::Links(fault) => fault.code(),
            Refusal::Inputs(refusal) => refusal.code(),
            Refusal::Location(fault) => fault.code(),
            Refusal::Certificate(_) => "X1",
        }
    }
}

impl Fault {
    /// The word for it on standard error.
    pub fn word(&self) -> &'static str
        ensures { result.now ≡ word_of self.now }
    {
        match self {
            Fault::Host(fault, _) => fault.code(),
            Fault::Record(refusal) => refusal.code(),
            Fault::Unopened(_, fault) => fault.code(),
            Fault::Words | Fault::RecordWords => "words",
            Fault::Folder | Fault::Unread(_, _) | Fault::NoObject => "input",
            Fault::Work(_, _) => "work",
            Fault::Outdir(_, _) => "H9",
            Fault::TooManyJobs => "TooManyJobs",
            Fault::OutOfMemory => "OutOfMemory",
        }
    }
}

/// Returns the name of a rule of certificates.
fn rule_name(broken: Broken) -> &'static str
    ensures { result.now ≡ name_of broken }
{
    match broken {
        Broken::MarkCount => "MarkCount",
        Broken::ChargeCount => "ChargeCount",
        Broken::NeededPruned(_) => "NeededPruned",
        Broken::NoLoad(_) => "NoLoad",
        Broken::ParentPruned(_, _) => "ParentPruned",
        Broken::EnterNotNeeded(_) => "EnterNotNeeded",
        Broken::ThroughOverLoad(_) => "ThroughOverLoad",
        Broken::PayOverCompute(_) => "PayOverCompute",
        Broken::InNotThrough(_) => "InNotThrough",
        Broken::ThroughNotOut(_) => "ThroughNotOut",
        Broken::Sum(_, _) => "Sum",
    }
}

impl Exit {
    /// Returns the exit status.
    pub fn status(&self) -> u8
        ensures { result ≡ status_of self.now }
    {
        match self {
            Exit::Output(_) | Exit::Plan(_) => 0,
            Exit::Broken(_) | Exit::Permanent(_, _) => 1,
            Exit::Temporary(_) => 2,
            Exit::Record(ending) => ending.status(),
            Exit::Fault(_) | Exit::Mismatch(_) => 3,
            Exit::Refused(_) => 33,
        }
    }

    /// Writes the line that says it: results to `out`, what went wrong to `err`.
    pub fn print<O: Write, E: Write>(&self, out: &mut O, err: &mut E) -> io::Result<()>
        ensures { OnOk result (Prints self.now (O.contents out.old) (O.contents out.new)
            (E.contents err.old) (E.contents err.new)) }
    {
        match self {
            Exit::Output(line) => writeln!(out, "{line}"),
            Exit::Plan(texts) => print_plan(texts, out, err),
            Exit::Broken(broken) => writeln!(out, "broken {}", rule_name(*broken)),
            Exit::Record(ending) => ending.print(out, err),
            Exit::Permanent(place, _) => writeln!(err, "permanentFail {place}"),
            Exit::Temporary(place) => writeln!(err, "temporaryFail {place}"),
            Exit::Mismatch(place) => writeln!(err, "fault: Mismatch {place}"),
            Exit::Refused(refusal) => writeln!(err, "refused: {}", refusal.code()),
            Exit::Fault(fault) => writeln!(err, "fault: {}", fault.word()),
        }
    }
}

// The certificate goes to the output, and the lines to the errors.
fn print_plan<O: Write, E: Write>(texts: &PlanTexts, out: &mut O, err: &mut E) -> io::Result<()>
    ensures { OnOk result (Appends (O.contents out.old) (O.contents out.new) texts.now.paper
        × Appends (E.contents err.old) (E.contents err.new) texts.now.lines) }
{
    let (paper, lines) = (&texts.paper, &texts.lines);
    write!(out, "{paper}")?;
    write!(err, "{lines}")
}
