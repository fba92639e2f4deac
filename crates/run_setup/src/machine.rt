//! The machine that a run works on, what it may use, and what it asks of earlier runs.
ghost use Rattle.std.specs.Prelude.{◌≡◌, [], IfOk, option_map};
ghost use Rattle.program_words.specs.RunWords.{wish_of_run};
ghost use Rattle.run_given.specs.Named.{AreNamed, IsAsked};
ghost use Rattle.run_rules.specs.Limits.{IsWithinLimits};
ghost use Rattle.program_words.specs.Launcher.{launcher_in};
ghost use Rattle.run_given.specs.Held.{IsHeld};

use plain_data::Text;
use process_machine::{Machine, World};
use program_words::{
    RunWords, Telling, launcher_of, load_base_of, load_rate_of, retries_of, slots_of,
};
use run_facts::KeyParts;
use run_given::{Call, Given, Places, file_of, held_by, keeps_archive, remembers};
use run_rules::Options;
use run_watch::Memory;
use std::alloc::{AllocError, Global};
use std::mem;

/// A machine of a run, which replaces none of the files that the run reads or holds, and puts the launcher's words before each command.
pub fn guarded_machine<R: World>(
    rt: &R,
    given: &Given,
    places: &Places,
    words: &RunWords,
) -> Result<Machine<R>, AllocError>
    ensures idle { IfOk result (λ host. host.running ≡ []) }
    ensures guarded { IfOk result (λ host. IsHeld (wish_of_run words.now) given.now.files
        host.guarded) }
    ensures launched { IfOk result (λ host. host.launcher
        ≡ launcher_in (option_map (λ s. s.now) words.now.launcher)) }
{
    let held = held_by(rt, given, words)?;
    let launcher = launcher_of(rt.alloc(), words.launcher)?;
    let mut host = machine_of(rt, places, words.keep)?;
    host.guard(held);
    host.launch_by(launcher);
    Ok(host)
}

/// A machine that works in these places, trusts times if a file of them is named, and keeps the folders of its jobs or not.
pub fn machine_of<R: World>(rt: &R, places: &Places, keep: bool) -> Result<Machine<R>, AllocError>
    ensures { IfOk result (λ host. host.running ≡ []) }
{
    let places = places.clone_in(rt.alloc())?;
    machine_at(rt.clone()?, places, keep)
}

fn machine_at<R: World>(rt: R, places: Places, keep: bool) -> Result<Machine<R>, AllocError>
    ensures { IfOk result (λ host. host.running ≡ []) }
{
    let Places {
        work,
        outdir,
        archive,
        times,
    } = places;
    match trusting(Machine::new(rt, work, archive, outdir), times) {
        Ok(host) => Ok(keeping(host, keep)),
        Err(error) => Err(error),
    }
}

fn trusting<R: World>(mut host: Machine<R>, times: Option<Text>) -> Result<Machine<R>, AllocError>
    ensures { IfOk result (λ same. same.running ≡ host.running) }
{
    match times {
        None => Ok(host),
        Some(file) => match host.trust_times(file) {
            Ok(()) => Ok(host),
            Err(error) => {
                mem::drop(host);
                Err(error)
            }
        },
    }
}

fn keeping<R: World>(mut host: Machine<R>, keep: bool) -> Machine<R>
    ensures { result.running ≡ host.running }
{
    if keep {
        host.keep_folders();
    }
    host
}

/// What the words let a run use, and where.
pub fn options_of(alloc: Global, places: &Places, call: &Call<'_>) -> Result<Options, AllocError>
    requires { AreNamed call.now.here.now (wish_of_run call.now.words.now) places.now }
    ensures limits { IfOk result IsWithinLimits }
    ensures asked { IfOk result (IsAsked call.now.here.now (wish_of_run call.now.words.now)
        call.now.path.now) }
{
    Ok(Options {
        work: places.work.copied(alloc)?,
        outdir: places.outdir.copied(alloc)?,
        path_env: Text::from_text(alloc, call.path)?,
        slots: slots_of(call.words),
        retries: retries_of(call.words),
        base: load_base_of(call.words),
        rate: load_rate_of(call.words),
        keep: keeps_archive(call.words),
    })
}

/// What the words of a run ask for, whose record had these jobs.
pub fn memory_of<'a>(words: &RunWords<'a>, recorded: &'a [KeyParts]) -> Memory<'a> {
    Memory {
        document: words.document,
        inputs: file_of(words.inputs),
        record: words.cache.or(words.record_file),
        archive: words.cache.or(words.archive),
        remembers: remembers(words),
        keeps: keeps_archive(words),
        recorded,
        counts: remembers(words) || !matches!(words.telling, Telling::Nothing),
    }
}
