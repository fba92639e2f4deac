//! The start of a child.
ghost use Rattle.std.specs.Prelude.{◌≡◌, ◌++◌, [], List, ℕ, Some, IfOk, OnOk, filter, not, true};
ghost use Rattle.std.specs.List.{list_any};
ghost use Rattle.std.specs.Process.{SameEnv, SameOtherVars, SameProgramAndArgs, clears_env, command_args, command_dir, command_program, command_var};
ghost use Rattle.process_machine.specs.Launched.{IsOf, Keeps, hiding, left_of, sets, text_behind, text_under};

use crate::hearing::Messages;
use crate::layout::joined;
use crate::messages::messages_file;
use crate::trouble::Trouble;
use crate::world::World;
use command_line::{Launch, Variable};
use plain_data::Text;
use std::alloc::{AllocError, Global};
use std::fs::{File, OpenFile};
use std::process::{Child, Command, OpenProcess, Stdio};
use std::time::Instant;
use std::{fs, mem};

/// A child that was not collected yet.
#[derive(Drop)]
pub(crate) struct Flying<P: OpenProcess, F: OpenFile> {
    pub ticket: u64,
    pub child: Child<P>,
    pub started: Instant,
    // where they are to be handed on
    pub messages: Option<Messages<F>>,
}

/// Starts the child of a launch by a launcher, which is none without words, and which is told what is advised. Its messages are to be
/// handed on or not where no file takes them.
pub(crate) fn spawned<R: World>(
    rt: &R,
    launcher: &[Text],
    advice: &[Variable],
    launch: &Launch,
    ticket: u64,
    shows: bool,
) -> Result<Flying<R::Started, R::File>, Trouble>
where
    R::File: Into<Stdio>,
{
    let mut command = command_of(rt.alloc(), launcher, advice, launch)?;
    let flying = begun_with_streams(rt, &mut command, launcher, advice, launch, ticket, shows);
    mem::drop(command);
    flying
}

// Opens the files of a command's streams, and starts it.
fn begun_with_streams<R: World>(
    rt: &R,
    command: &mut Command,
    launcher: &[Text],
    advice: &[Variable],
    launch: &Launch,
    ticket: u64,
    shows: bool,
) -> Result<Flying<R::Started, R::File>, Trouble>
where
    R::File: Into<Stdio>,
    requires { IsOf launcher.now advice.now launch.now command.old }
{
    set_input(rt, &launch.stdin, command)?;
    set_outputs(rt, launch, command)?;
    let messages = if shows { messages_of(rt, launch) } else { None };
    let started = Instant::now(rt)?;
    let child = begun(rt, command, launcher, advice, launch)?;
    Ok(Flying {
        ticket,
        child,
        started,
        messages,
    })
}

// Starts a command, which has to be its launch's by this launcher with this advice.
fn begun<R: World>(
    rt: &R,
    command: &mut Command,
    _launcher: &[Text],
    _advice: &[Variable],
    _launch: &Launch,
) -> Result<Child<R::Started>, Trouble>
    requires { IsOf _launcher.now _advice.now _launch.now command.old }
{
    Ok(command.spawn(rt)?)
}

// The command of a launch by a launcher, without its streams. The launcher stands in the environment and the folder of the launch too, and
// sees besides what it is told.
fn command_of(
    alloc: Global,
    launcher: &[Text],
    advice: &[Variable],
    launch: &Launch,
) -> Result<Command, Trouble>
    ensures { IfOk result (IsOf launcher.now advice.now launch.now) }
{
    let Some((program, words)) = launch.words.as_slice().split_first() else {
        return Err(Trouble::Failed);
    };
    match launcher.split_first() {
        None => command_with(alloc, launch, program, words, &[], &[]),
        Some((first, others)) => {
            let told = told_of(alloc, advice, launch.env.as_slice())?;
            let last = launch.words.as_slice();
            command_with(alloc, launch, first, others, told.as_slice(), last)
        }
    }
}

// The variables of an advice that an environment does not set.
fn told_of(
    alloc: Global,
    advice: &[Variable],
    env: &[Variable],
) -> Result<Vec<Variable>, AllocError>
    ensures { IfOk result (λ told. told.items ≡ left_of advice.now env.now) }
{
    let mut told = Vec::new(alloc);
    for variable in advice {
        if !is_set(env, &variable.name) {
            told.push(variable.clone_in(alloc)?)?;
        }
    }
    Ok(told)
}

fn is_set(env: &[Variable], name: &Text) -> bool
    ensures { result ≡ sets env.now name.now }
{
    env.iter().any(|own| own.name.as_str() == name.as_str())
}

// A program, these arguments, those that hide what it is told, and the last ones, in the environment and the folder of a launch.
fn command_with(
    alloc: Global,
    launch: &Launch,
    program: &Text,
    words: &[Text],
    told: &[Variable],
    last: &[Text],
) -> Result<Command, Trouble>
    ensures program { IfOk result (λ command. command_program command ≡ program.now) }
    ensures args { IfOk result (λ command. command_args command
        ≡ words.now ++ hiding told.now ++ last.now) }
    ensures alone { IfOk result (λ command. clears_env command ≡ true) }
    ensures env { IfOk result (λ command. (name : List ℕ) → command_var command name
        ≡ text_under name (told.now ++ launch.now.env)) }
    ensures dir { IfOk result (λ command. command_dir command ≡ Some launch.now.dir) }
{
    let mut command = command_in(alloc, program, told, launch.env.as_slice())?;
    match add_words_and_folder(&mut command, words, told, last, &launch.dir) {
        Ok(()) => Ok(command),
        Err(trouble) => {
            mem::drop(command);
            Err(trouble)
        }
    }
}

fn add_words_and_folder(
    command: &mut Command,
    words: &[Text],
    told: &[Variable],
    last: &[Text],
    folder: &Text,
) -> Result<(), Trouble>
    requires { command_args command.old ≡ [] }
    ensures args { OnOk result (command_args command.new
        ≡ words.now ++ hiding told.now ++ last.now) }
    ensures program { OnOk result (command_program command.new ≡ command_program command.old) }
    ensures env { OnOk result (SameEnv command.old command.new) }
    ensures dir { OnOk result (command_dir command.new ≡ Some folder.now) }
{
    add_words(command, words)?;
    hide(command, told)?;
    add_words(command, last)?;
    command.current_dir(folder.as_str())?;
    Ok(())
}

// Adds the words that hide these variables from the command behind them.
fn hide(command: &mut Command, told: &[Variable]) -> Result<(), AllocError>
    ensures args { OnOk result (command_args command.new
        ≡ command_args command.old ++ hiding told.now) }
    ensures program { OnOk result (command_program command.new ≡ command_program command.old) }
    ensures env { OnOk result (SameEnv command.old command.new) }
{
    if told.is_empty() {
        return Ok(());
    }
    command.arg("env")?;
    for variable in told {
        command.arg("-u")?;
        command.arg(variable.name.as_str())?;
    }
    Ok(())
}

// A program without arguments, in the environment of these variables alone: what it is told, and then its own.
fn command_in(
    alloc: Global,
    program: &Text,
    told: &[Variable],
    env: &[Variable],
) -> Result<Command, Trouble>
    ensures program { IfOk result (λ command. command_program command ≡ program.now) }
    ensures args { IfOk result (λ command. command_args command ≡ []) }
    ensures alone { IfOk result (λ command. clears_env command ≡ true) }
    ensures env { IfOk result (λ command. (name : List ℕ) → command_var command name
        ≡ text_under name (told.now ++ env.now)) }
{
    let mut command = Command::new(alloc, program.as_str())?;
    command.env_clear();
    set_variables(&mut command, told)?;
    set_variables(&mut command, env)?;
    Ok(command)
}

fn set_variables(command: &mut Command, variables: &[Variable]) -> Result<(), AllocError>
    ensures set { OnOk result ((name : List ℕ) → command_var command.new name
        ≡ text_behind (command_var command.old name) name variables.now) }
    ensures call { OnOk result (SameProgramAndArgs command.old command.new) }
    ensures clears { OnOk result (clears_env command.new ≡ clears_env command.old) }
{
    for variable in variables {
        set_variable(command, variable)?;
    }
    Ok(())
}

fn set_variable(command: &mut Command, variable: &Variable) -> Result<(), AllocError>
    ensures set { OnOk result (command_var command.new variable.now.name
        ≡ Some (Some variable.now.text)) }
    ensures others { OnOk result (SameOtherVars command.old command.new variable.now.name) }
    ensures call { OnOk result (SameProgramAndArgs command.old command.new) }
    ensures clears { OnOk result (clears_env command.new ≡ clears_env command.old) }
{
    command.env(variable.name.as_str(), variable.text.as_str())?;
    Ok(())
}

// Adds words behind those that are there.
fn add_words(command: &mut Command, words: &[Text]) -> Result<(), Trouble>
    ensures args { OnOk result (command_args command.new ≡ command_args command.old ++ words.now) }
    ensures program { OnOk result (command_program command.new ≡ command_program command.old) }
    ensures env { OnOk result (SameEnv command.old command.new) }
{
    for word in words {
        command.arg(word.as_str())?;
    }
    Ok(())
}

// The child reads this file, or nothing.
fn set_input<R: World>(rt: &R, path: &Option<Text>, command: &mut Command) -> Result<(), Trouble>
where
    R::File: Into<Stdio>,
    ensures { Keeps command.old command.new }
{
    match path {
        None => {
            command.stdin(Stdio::null());
        }
        Some(path) => {
            if !fs::metadata(rt, path.as_str())?.is_file() {
                return Err(Trouble::Failed);
            }
            command.stdin(File::open(rt, path.as_str())?);
        }
    }
    Ok(())
}

// The child's output and messages go to the files of these names in its folder. Where both have one name, they share one file. Without
// a name its output goes nowhere, and its messages to the file `stderr` of its job.
fn set_outputs<R: World>(rt: &R, launch: &Launch, command: &mut Command) -> Result<(), Trouble>
where
    R::File: Into<Stdio>,
    ensures { Keeps command.old command.new }
{
    match (&launch.stdout, &launch.stderr) {
        (Some(output), Some(messages)) if output.equals(messages) => {
            share_output(rt, &launch.dir, output, command)
        }
        (output, _) => {
            command.stdout(output_to(rt, &launch.dir, output)?);
            command.stderr(messages_to(rt, launch)?);
            Ok(())
        }
    }
}

fn share_output<R: World>(
    rt: &R,
    folder: &Text,
    name: &Text,
    command: &mut Command,
) -> Result<(), Trouble>
where
    R::File: Into<Stdio>,
    ensures { Keeps command.old command.new }
{
    let file = created(rt, folder, name)?;
    command.stdout(file.try_clone()?);
    command.stderr(file);
    Ok(())
}

// A file of this name, or nowhere.
fn output_to<R: World>(rt: &R, folder: &Text, name: &Option<Text>) -> Result<Stdio, Trouble>
where
    R::File: Into<Stdio>,
{
    match name {
        None => Ok(Stdio::null()),
        Some(name) => Ok(created(rt, folder, name)?.into()),
    }
}

// The file that the launch names; without one a file of the job's own.
fn messages_to<R: World>(rt: &R, launch: &Launch) -> Result<Stdio, Trouble>
where
    R::File: Into<Stdio>,
{
    match &launch.stderr {
        Some(name) => Ok(created(rt, &launch.dir, name)?.into()),
        None => kept_messages(rt, launch),
    }
}

// The job's own file for them; nowhere, where that can't be made.
fn kept_messages<R: World>(rt: &R, launch: &Launch) -> Result<Stdio, Trouble>
where
    R::File: Into<Stdio>,
{
    match messages_file(rt.alloc(), launch)? {
        Some(path) => match File::create(rt, path.as_str()) {
            Ok(file) => Ok(file.into()),
            Err(_) => Ok(Stdio::null()),
        },
        None => Ok(Stdio::null()),
    }
}

// What a child writes to the job's own file, where that was made and can be read.
fn messages_of<R: World>(rt: &R, launch: &Launch) -> Option<Messages<R::File>> {
    if launch.stderr.is_some() {
        return None;
    }
    let path = messages_file(rt.alloc(), launch).ok()??;
    Some(Messages::new(File::open(rt, path.as_str()).ok()?))
}

fn created<R: World>(rt: &R, folder: &Text, name: &Text) -> Result<R::File, Trouble> {
    let path = joined(rt.alloc(), folder.as_str(), name.as_str())?;
    Ok(File::create(rt, path.as_str())?)
}
