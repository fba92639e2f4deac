//! What a run says of its jobs on standard error while it goes on.
ghost use Rattle.std.specs.Prelude.{◌≡◌, ◌≢◌, List, [], ℕ, ◌++◌, Some, codes, option_copied, option_map, unwrap_or, IfOk, OnOk, string_bytes};
ghost use Rattle.std.specs.Io.KnownBytes.{Appends};
ghost use Rattle.plain_data.specs.ByName.{value_at, with_value};
ghost use Rattle.program_words.specs.JobLines as spec;
ghost use Rattle.program_words.specs.JobObjects as objects;
ghost use Rattle.program_words.specs.Launcher.{launched as as_launched};
ghost use Rattle.program_words.specs.Progress as progress;
ghost use Rattle.program_words.specs.Savings.{savings_line};

use crate::launcher::launched;
use crate::objects::{
    command_json, end_object, load_object, omit_object, start_object, words_json,
};
use crate::progress::{Counts, Longest, progress_line};
use crate::reuse::Why;
use crate::savings::{Savings, savings_line};
use crate::shell_words::line_of;
use crate::shown::visible;
use command_line::Launch;
use plain_data::{Keyed, Text};
use proc_host::ChildEnd;
use std::alloc::{AllocError, Global};
use std::io;
use std::io::Write;

/// What a run says of its jobs.
#[derive(Clone, Copy, Debug, PartialEq, Eq)]
pub enum Telling {
    Nothing,
    /// Lines as each job starts, ends or is loaded.
    Lines,
    /// One line that is rewritten, for a terminal.
    OneLine,
    /// Lines of JSON, for programs.
    Objects,
}

/// Hears what becomes of the jobs of a run, each by its place as JSON text.
pub trait Listen {
    /// The job is about to be started, for this reason if it could have been loaded.
    fn starts(&mut self, place: &Text, launch: &Launch, why: Option<Why>, counts: Counts);

    /// The command of a job has been started, under this ticket, and this job runs longest.
    fn started(&mut self, place: &Text, ticket: u64, counts: Counts, longest: Option<Longest<'_>>);

    fn ended(&mut self, place: &Text, end: &ChildEnd, counts: Counts, longest: Option<Longest<'_>>);

    /// The files of the job were fetched and are used.
    fn loaded(&mut self, place: &Text, counts: Counts, longest: Option<Longest<'_>>);

    /// The run has succeeded without the job.
    fn omitted(&mut self, place: &Text);
}

/// Says nothing.
#[derive(Clone, Copy, Debug)]
pub struct Silent;

impl Listen for Silent {
    fn starts(&mut self, _place: &Text, _launch: &Launch, _why: Option<Why>, _counts: Counts) {}

    fn started(
        &mut self,
        _place: &Text,
        _ticket: u64,
        _counts: Counts,
        _longest: Option<Longest<'_>>,
    ) {}

    fn ended(
        &mut self,
        _place: &Text,
        _end: &ChildEnd,
        _counts: Counts,
        _longest: Option<Longest<'_>>,
    ) {}

    fn loaded(&mut self, _place: &Text, _counts: Counts, _longest: Option<Longest<'_>>) {}

    fn omitted(&mut self, _place: &Text) {}
}

/// Takes a terminal back to the beginning of its line, and empties it.
const ERASE: &str = "\r\u{1b}[K";

/// Says what becomes of the jobs of a run. What can't be written is left out.
#[derive(Drop)]
pub struct Teller<'a, E: Write> {
    alloc: Global,
    err: &'a mut E,
    telling: Telling,
    // the text of the words that stand before each command
    launcher: Option<&'a str>,
    // the command that is about to be started, as JSON text, if its start is said in JSON
    command: Option<Text>,
    // how jobs that are not recorded differ from the nearest ones, in lines
    near: Keyed<Text>,
}

impl<'a, E: Write> Teller<'a, E> {
    /// Makes one that says so, on this writer, of jobs whose commands stand behind the words of a launcher's text.
    pub fn new(
        alloc: Global,
        err: &'a mut E,
        telling: Telling,
        launcher: Option<&'a str>,
    ) -> Teller<'a, E>
        ensures told { result.telling ≡ telling }
        ensures err { E.contents result.err.now ≡ E.contents err.old }
        ensures near { result.near ≡ [] }
    {
        Teller {
            alloc,
            err,
            telling,
            launcher,
            command: None,
            near: Keyed::new(alloc),
        }
    }

    /// Keeps lines on what is near to the job at a place, which follow the one that says why it is computed.
    pub fn know_near(&mut self, place: Text, lines: Text) -> Result<(), AllocError>
        ensures err { E.contents self.new.err.now ≡ E.contents self.old.err.now }
        ensures kept { OnOk result (self.new.near ≡ with_value place lines self.old.near) }
    {
        let _before = self.near.insert(place, lines)?;
        Ok(())
    }

    /// Erases the line that was rewritten, and puts in its place what became of the jobs.
    pub fn finish(&mut self, savings: Option<&Savings>)
        ensures { self.old.telling ≢ Telling.OneLine → E.contents self.new.err.now
            ≡ E.contents self.old.err.now }
    {
        if !matches!(self.telling, Telling::OneLine) {
            return;
        }
        let _erased = write!(self.err, "{ERASE}");
        if let Some(savings) = savings {
            let _told = self.tell_savings(savings);
        }
    }

    fn tell_savings(&mut self, savings: &Savings) -> io::Result<()>
        ensures { OnOk result (Appends (E.contents self.old.err.now) (E.contents self.new.err.now)
            (savings_line savings.now ++ codes "\n")) }
    {
        let line = savings_line(self.alloc, savings)?;
        writeln!(self.err, "{line}")
    }

    /// Writes a line that the command of the job at a place has written, as it is shown.
    pub fn say(&mut self, place: &Text, words: &str) {
        let _told = self.tell_line(place, words);
    }

    fn tell_line(&mut self, place: &Text, words: &str) -> io::Result<()>
        ensures silent { self.old.telling ≢ Telling.Lines → E.contents self.new.err.now
            ≡ E.contents self.old.err.now }
        ensures told { OnOk result (self.old.telling ≡ Telling.Lines
            → Appends (E.contents self.old.err.now) (E.contents self.new.err.now)
            (spec.said_line place.now words.now ++ codes "\n")) }
    {
        if !matches!(self.telling, Telling::Lines) {
            return Ok(());
        }
        let line = said_line(self.alloc, place, words)?;
        writeln!(self.err, "{line}")
    }

    fn tell_why(&mut self, place: &Text, why: Why) -> io::Result<()>
        ensures silent { self.old.telling ≢ Telling.Lines → E.contents self.new.err.now
            ≡ E.contents self.old.err.now }
        ensures told { OnOk result (self.old.telling ≡ Telling.Lines
            → Appends (E.contents self.old.err.now) (E.contents self.new.err.now)
            (spec.why_line place.now why ++ codes "\n"
            ++ unwrap_or (value_at place.now self.old.near) [])) }
    {
        if !matches!(self.telling, Telling::Lines) {
            return Ok(());
        }
        let line = why_line(self.alloc, place, why)?;
        let near = lines_of(self.near.get(place.as_str()));
        write!(self.err, "{line}\n{near}")
    }

    fn tell_start(&mut self, place: &Text, launch: &Launch, counts: Counts) -> io::Result<()>
        ensures silent { self.old.telling ≢ Telling.Lines → E.contents self.new.err.now
            ≡ E.contents self.old.err.now }
        ensures told { OnOk result (self.old.telling ≡ Telling.Lines → (line : List ℕ)
            × spec.IsStartLine place.now (as_launched (option_map (λ s. s.now) self.old.launcher)
            launch.now) counts line
            × Appends (E.contents self.old.err.now) (E.contents self.new.err.now) (line
            ++ codes "\n")) }
    {
        if !matches!(self.telling, Telling::Lines) {
            return Ok(());
        }
        let launch = launched(self.alloc, self.launcher, launch)?;
        let line = start_line(self.alloc, place, &launch, counts)?;
        writeln!(self.err, "{line}")
    }

    fn tell_end(&mut self, place: &Text, end: &ChildEnd, counts: Counts) -> io::Result<()>
        ensures silent { self.old.telling ≢ Telling.Lines → E.contents self.new.err.now
            ≡ E.contents self.old.err.now }
        ensures told { OnOk result (self.old.telling ≡ Telling.Lines
            → Appends (E.contents self.old.err.now) (E.contents self.new.err.now)
            (spec.end_line place.now counts end.now ++ codes "\n")) }
    {
        if !matches!(self.telling, Telling::Lines) {
            return Ok(());
        }
        let line = end_line(self.alloc, place, end, counts)?;
        writeln!(self.err, "{line}")
    }

    fn tell_load(&mut self, place: &Text, counts: Counts) -> io::Result<()>
        ensures silent { self.old.telling ≢ Telling.Lines → E.contents self.new.err.now
            ≡ E.contents self.old.err.now }
        ensures told { OnOk result (self.old.telling ≡ Telling.Lines
            → Appends (E.contents self.old.err.now) (E.contents self.new.err.now)
            (spec.load_line place.now counts ++ codes "\n")) }
    {
        if !matches!(self.telling, Telling::Lines) {
            return Ok(());
        }
        let line = load_line(self.alloc, place, counts)?;
        writeln!(self.err, "{line}")
    }

    fn tell_omitted(&mut self, place: &Text) -> io::Result<()>
        ensures silent { self.old.telling ≢ Telling.Lines → E.contents self.new.err.now
            ≡ E.contents self.old.err.now }
        ensures told { OnOk result (self.old.telling ≡ Telling.Lines
            → Appends (E.contents self.old.err.now) (E.contents self.new.err.now)
            (spec.omit_line place.now ++ codes "\n")) }
    {
        if !matches!(self.telling, Telling::Lines) {
            return Ok(());
        }
        writeln!(self.err, "omit {place}: not needed")
    }

    fn rewrite(&mut self, counts: Counts, longest: Option<Longest<'_>>) -> io::Result<()>
        ensures silent { self.old.telling ≢ Telling.OneLine → E.contents self.new.err.now
            ≡ E.contents self.old.err.now }
        ensures told { OnOk result (self.old.telling ≡ Telling.OneLine
            → Appends (E.contents self.old.err.now) (E.contents self.new.err.now) (progress.erase
            ++ progress.progress_line counts longest.entry)) }
    {
        if !matches!(self.telling, Telling::OneLine) {
            return Ok(());
        }
        self.write_progress(counts, longest)?;
        self.err.flush()
    }

    fn write_progress(&mut self, counts: Counts, longest: Option<Longest<'_>>) -> io::Result<()>
        ensures { OnOk result (Appends (E.contents self.old.err.now) (E.contents self.new.err.now)
            (progress.erase ++ progress.progress_line counts longest.entry)) }
    {
        let line = progress_line(self.alloc, counts, longest)?;
        write!(self.err, "{ERASE}{line}")
    }

    // Keeps the words of the command that is about to be started.
    fn keep_command(&mut self, launch: &Launch) -> Result<(), AllocError>
        ensures err { E.contents self.new.err.now ≡ E.contents self.old.err.now }
        ensures kept { OnOk result (self.old.telling ≡ Telling.Objects
            → self.new.command ≡ Some (objects.command_json launch.now)) }
    {
        self.command = None;
        if matches!(self.telling, Telling::Objects) {
            self.command = Some(command_json(self.alloc, launch)?);
        }
        Ok(())
    }

    fn put_start(&mut self, place: &Text, number: u64) -> io::Result<()>
        ensures silent { self.old.telling ≢ Telling.Objects → E.contents self.new.err.now
            ≡ E.contents self.old.err.now }
        ensures told { OnOk result (self.old.telling ≡ Telling.Objects
            → Appends (E.contents self.old.err.now) (E.contents self.new.err.now)
            (objects.start_object place.now number (objects.words_json self.old.command)
            ++ codes "\n")) }
    {
        if !matches!(self.telling, Telling::Objects) {
            return Ok(());
        }
        let command = words_json(&self.command);
        let line = start_object(self.alloc, place, number, command)?;
        writeln!(self.err, "{line}")
    }

    fn put_end(&mut self, place: &Text, end: &ChildEnd) -> io::Result<()>
        ensures silent { self.old.telling ≢ Telling.Objects → E.contents self.new.err.now
            ≡ E.contents self.old.err.now }
        ensures told { OnOk result (self.old.telling ≡ Telling.Objects
            → Appends (E.contents self.old.err.now) (E.contents self.new.err.now)
            (objects.end_object place.now end.now ++ codes "\n")) }
    {
        if !matches!(self.telling, Telling::Objects) {
            return Ok(());
        }
        let line = end_object(self.alloc, place, end)?;
        writeln!(self.err, "{line}")
    }

    fn put_load(&mut self, place: &Text) -> io::Result<()>
        ensures silent { self.old.telling ≢ Telling.Objects → E.contents self.new.err.now
            ≡ E.contents self.old.err.now }
        ensures told { OnOk result (self.old.telling ≡ Telling.Objects
            → Appends (E.contents self.old.err.now) (E.contents self.new.err.now)
            (objects.load_object place.now ++ codes "\n")) }
    {
        if !matches!(self.telling, Telling::Objects) {
            return Ok(());
        }
        let line = load_object(self.alloc, place)?;
        writeln!(self.err, "{line}")
    }

    fn put_omitted(&mut self, place: &Text) -> io::Result<()>
        ensures silent { self.old.telling ≢ Telling.Objects → E.contents self.new.err.now
            ≡ E.contents self.old.err.now }
        ensures told { OnOk result (self.old.telling ≡ Telling.Objects
            → Appends (E.contents self.old.err.now) (E.contents self.new.err.now)
            (objects.omit_object place.now ++ codes "\n")) }
    {
        if !matches!(self.telling, Telling::Objects) {
            return Ok(());
        }
        let line = omit_object(self.alloc, place)?;
        writeln!(self.err, "{line}")
    }
}

impl<E: Write> Listen for Teller<'_, E> {
    fn starts(&mut self, place: &Text, launch: &Launch, why: Option<Why>, counts: Counts) {
        if let Some(why) = why {
            let _told = self.tell_why(place, why);
        }
        let _told = self.tell_start(place, launch, counts);
        let _kept = self.keep_command(launch);
    }

    fn started(&mut self, place: &Text, ticket: u64, counts: Counts, longest: Option<Longest<'_>>) {
        let _put = self.put_start(place, ticket);
        let _rewritten = self.rewrite(counts, longest);
    }

    fn ended(
        &mut self,
        place: &Text,
        end: &ChildEnd,
        counts: Counts,
        longest: Option<Longest<'_>>,
    ) {
        let _told = self.tell_end(place, end, counts);
        let _put = self.put_end(place, end);
        let _rewritten = self.rewrite(counts, longest);
    }

    fn loaded(&mut self, place: &Text, counts: Counts, longest: Option<Longest<'_>>) {
        let _told = self.tell_load(place, counts);
        let _put = self.put_load(place);
        let _rewritten = self.rewrite(counts, longest);
    }

    fn omitted(&mut self, place: &Text) {
        let _told = self.tell_omitted(place);
        let _put = self.put_omitted(place);
    }
}

fn counts_words(alloc: Global, counts: Counts) -> Result<String, AllocError>
    ensures { IfOk result (λ words. string_bytes words ≡ spec.counts_words counts) }
{
    let (done, known) = (counts.done, counts.known);
    format!(in alloc; " [{done}/{known}]")
}

fn start_line(
    alloc: Global,
    place: &Text,
    launch: &Launch,
    counts: Counts,
) -> Result<String, AllocError>
    ensures { IfOk result (λ line. spec.IsStartLine place.now launch.now counts
        (string_bytes line)) }
{
    let words = line_of(alloc, launch)?;
    let counts = counts_words(alloc, counts)?;
    format!(in alloc; "start {place}{counts} {words}")
}

fn why_line(alloc: Global, place: &Text, why: Why) -> Result<String, AllocError>
    ensures { IfOk result (λ line. string_bytes line ≡ spec.why_line place.now why) }
{
    let why = why.words();
    format!(in alloc; "compute {place}: {why}")
}

fn lines_of(near: Option<&Text>) -> &str
    ensures { result.now ≡ unwrap_or (option_copied near.entry) [] }
{
    match near {
        Some(lines) => lines.as_str(),
        None => "",
    }
}

fn said_line(alloc: Global, place: &Text, words: &str) -> Result<String, AllocError>
    ensures { IfOk result (λ line. string_bytes line ≡ spec.said_line place.now words.now) }
{
    let words = visible(alloc, words)?;
    format!(in alloc; "{place}: {words}")
}

fn end_line(
    alloc: Global,
    place: &Text,
    end: &ChildEnd,
    counts: Counts,
) -> Result<String, AllocError>
    ensures { IfOk result (λ line. string_bytes line ≡ spec.end_line place.now counts end.now) }
{
    let how = ending(alloc, end.code)?;
    let counts = counts_words(alloc, counts)?;
    let millis = end.millis;
    format!(in alloc; "end {place}{counts} {how}, {millis} ms")
}

fn load_line(alloc: Global, place: &Text, counts: Counts) -> Result<String, AllocError>
    ensures { IfOk result (λ line. string_bytes line ≡ spec.load_line place.now counts) }
{
    let counts = counts_words(alloc, counts)?;
    format!(in alloc; "load {place}{counts}")
}

/// How a command ended: by a code, or by a signal.
pub fn ending(alloc: Global, code: Option<i32>) -> Result<String, AllocError>
    ensures { IfOk result (λ text. string_bytes text ≡ spec.ending code) }
{
    match code {
        Some(code) => format!(in alloc; "exit {code}"),
        None => String::from_str(alloc, "signal"),
    }
}
