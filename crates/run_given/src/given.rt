//! What a call is given.
ghost use Rattle.std.specs.Prelude.{◌≡◌, false, IfErr, IfOk, OnOk};
ghost use Rattle.program_words.specs.RunWords.{wish_of_run};
ghost use Rattle.run_given.specs.Caches as spec;
ghost use Rattle.run_given.specs.Named.{AreHinted, IsNamedProcess, IsNotGiven, IsNotReady, IsReady};
ghost use Rattle.run_given.specs.Stops.{IsStop};

use crate::caches::is_twofold;
use crate::named::{inputs_of, process_of};
use crate::stop::Stop;
use cwl_value::Value;
use document_links::Process;
use end_words::{Exit, Fault};
use plain_data::{Items, Keyed, Text, copied_if_any};
use process_machine::World;
use program_words::RunWords;
use resource_hints::Resources;
use std::alloc::{AllocError, Global};
use std::mem;

/// What the program was called with: the folder that it is in, the words of `run`, and `PATH`.
#[derive(Drop)]
pub struct Call<'a> {
    pub here: &'a str,
    pub words: &'a RunWords<'a>,
    pub path: &'a str,
}

/// What is run: an accepted process, its input object, the files of the documents that the process leads to, and what their hints ask of
/// launchers, if there is one.
#[derive(Drop)]
pub struct Given {
    pub process: Process,
    pub inputs: Keyed<Value>,
    pub files: Items<Text>,
    pub hints: Keyed<Resources>,
}

/// What documents say beside their process.
#[derive(Drop)]
pub(crate) struct Beside {
    pub files: Items<Text>,
    pub hints: Keyed<Resources>,
}

/// Where a run has its folders and files.
#[derive(Drop)]
pub struct Places {
    pub work: Text,
    pub outdir: Text,
    /// The archive's folder, if one is kept.
    pub archive: Option<Text>,
    /// The file of the times that are trusted, if they are, as the words name it.
    pub times: Option<Text>,
}

impl Places {
    /// The same folders, in memory of their own.
    pub fn clone_in(&self, alloc: Global) -> Result<Places, AllocError> {
        let work = self.work.copied(alloc)?;
        let outdir = self.outdir.copied(alloc)?;
        let archive = copied_if_any(alloc, &self.archive)?;
        let times = copied_if_any(alloc, &self.times)?;
        Ok(Places {
            work,
            outdir,
            archive,
            times,
        })
    }
}

/// What a call is given: the process of its document, and its inputs. The document is looked at first.
pub fn given_of<R: World + Input>(rt: &R, call: &Call<'_>) -> Result<Given, Stop>
    ensures ok { IfOk result (IsReady call.now.here.now (wish_of_run call.now.words.now)) }
    ensures err { IfErr result
        (IsStop (IsNotGiven call.now.here.now (wish_of_run call.now.words.now))) }
{
    let mut beside = Beside {
        files: Items::new(rt.alloc()),
        hints: Keyed::new(rt.alloc()),
    };
    match process_of(rt, call, &mut beside) {
        Ok(process) => with_inputs(rt, call, process, beside),
        Err(stop) => {
            mem::drop(beside);
            Err(stop)
        }
    }
}

fn with_inputs<R: World + Input>(
    rt: &R,
    call: &Call<'_>,
    process: Process,
    beside: Beside,
) -> Result<Given, Stop>
    requires process { IsNamedProcess call.now.here.now (wish_of_run call.now.words.now) process }
    requires hints { AreHinted call.now.here.now (wish_of_run call.now.words.now) process
        beside.hints }
    ensures ok { IfOk result (IsReady call.now.here.now (wish_of_run call.now.words.now)) }
    ensures err { IfErr result
        (IsStop (IsNotGiven call.now.here.now (wish_of_run call.now.words.now))) }
{
    match inputs_of(rt, call) {
        Ok(inputs) => {
            let Beside { files, hints } = beside;
            Ok(Given {
                process,
                inputs,
                files,
                hints,
            })
        }
        Err(stop) => {
            mem::drop(process);
            mem::drop(beside);
            Err(stop)
        }
    }
}

/// What a run or a plan is given, unless its words name a cache beside a record or an archive.
pub fn ready_of<R: World + Input>(rt: &R, call: &Call<'_>) -> Result<Given, Stop>
    ensures ok { IfOk result (IsReady call.now.here.now (wish_of_run call.now.words.now)) }
    ensures one { OnOk result (spec.is_twofold (wish_of_run call.now.words.now) ≡ false) }
    ensures err { IfErr result
        (IsStop (IsNotReady call.now.here.now (wish_of_run call.now.words.now))) }
{
    if is_twofold(call.words) {
        return Err(Stop::Early(Exit::Fault(Fault::Words)));
    }
    given_of(rt, call)
}
