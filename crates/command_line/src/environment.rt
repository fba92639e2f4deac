//! The environment of the child (CWL v1.2, Command Line Tool, "Runtime environment", "EnvVarRequirement").
ghost use Rattle.std.specs.Prelude.{◌≡◌, [], ◌∷◌, ◌++◌, Ok, IfOk, IfErr};
ghost use Rattle.command_line.specs.Environment.{asked_variable, asked_variables, environment_of, given_variable, given_variables, is_asked, is_variable_name, variable};
ghost use Rattle.command_line.specs.Results.{all_given, and_then};
ghost use Rattle.command_line.specs.inner.Steps.{FaultOf};

use crate::texts::{Scope, is_plain, text_in};
use crate::{BuildError, BuildFault, LaunchText, Runtime, Variable};
use cwl_process::{Tool, Variable as AskedVariable};
use plain_data::{Items, Text};
use std::alloc::{AllocError, Global};

/// The whole environment: what the tool asks for, and of what each command finds the variables that the tool doesn't ask for.
pub(crate) fn environment(
    alloc: Global,
    tool: &Tool,
    runtime: &Runtime,
    scope: Scope<'_>,
) -> Result<Items<Variable>, BuildError>
    ensures ok { IfOk result (λ env. environment_of scope.entry.inputs.now scope.entry.runtime.now
        runtime.now tool.now ≡ Ok env) }
    ensures err { IfErr result
        (FaultOf (environment_of scope.entry.inputs.now scope.entry.runtime.now runtime.now
        tool.now)) }
{
    let asked = asked_variables(tool);
    let given = given_variables(alloc, asked, runtime)?;
    let env = with_asked(alloc, given, asked, scope)?;
    Ok(Items::from_vec(env))
}

fn asked_variables(tool: &Tool) -> &[(Text, AskedVariable)]
    ensures { result.now ≡ asked_variables tool.now }
{
    match tool.asked.environment() {
        None => &[],
        Some(asked) => asked.as_slice(),
    }
}

/// What each command finds, without what is asked for.
fn given_variables(
    alloc: Global,
    asked: &[(Text, AskedVariable)],
    runtime: &Runtime,
) -> Result<Vec<Variable>, BuildError>
    ensures ok { IfOk result
        (λ env. all_given (given_variable asked.now) (given_variables runtime.now) ≡ Ok env.items) }
    ensures err { IfErr result
        (FaultOf (all_given (given_variable asked.now) (given_variables runtime.now))) }
{
    let mut home = given_variable(alloc, asked, "HOME", &runtime.outdir)?;
    let mut scratch = given_variable(alloc, asked, "TMPDIR", &runtime.tmpdir)?;
    let mut programs = given_variable(alloc, asked, "PATH", &runtime.path_env)?;
    home.append(&mut scratch)?;
    home.append(&mut programs)?;
    Ok(home)
}

/// A variable, or none where it is asked for.
fn given_variable(
    alloc: Global,
    asked: &[(Text, AskedVariable)],
    name: &str,
    text: &Text,
) -> Result<Vec<Variable>, BuildError>
    ensures ok { IfOk result
        (λ env. given_variable asked.now (record { name = name.now; text = text.now })
        ≡ Ok env.items) }
    ensures err { IfErr result
        (FaultOf (given_variable asked.now (record { name = name.now; text = text.now }))) }
{
    if is_asked(asked, name) {
        Ok(Vec::new(alloc))
    } else {
        variable(alloc, name, text.as_str())
    }
}

/// Puts the variables that are asked for after the others.
fn with_asked(
    alloc: Global,
    mut env: Vec<Variable>,
    asked: &[(Text, AskedVariable)],
    scope: Scope<'_>,
) -> Result<Vec<Variable>, BuildError>
    ensures ok { IfOk result
        (λ all. and_then (all_given (asked_variable scope.entry.inputs.now scope.entry.runtime.now)
        asked.now) (λ vs. Ok (env.items ++ vs)) ≡ Ok all.items) }
    ensures err { IfErr result
        (FaultOf (all_given (asked_variable scope.entry.inputs.now scope.entry.runtime.now)
        asked.now)) }
{
    for entry in asked {
        let mut next = asked_variable(alloc, entry, scope)?;
        env.append(&mut next)?;
    }
    Ok(env)
}

fn asked_variable(
    alloc: Global,
    entry: &(Text, AskedVariable),
    scope: Scope<'_>,
) -> Result<Vec<Variable>, BuildError>
    ensures ok { IfOk result (λ env. asked_variable scope.entry.inputs.now scope.entry.runtime.now
        entry.now ≡ Ok env.items) }
    ensures err { IfErr result
        (FaultOf (asked_variable scope.entry.inputs.now scope.entry.runtime.now entry.now)) }
{
    match text_in(alloc, scope, &entry.1.value)? {
        Some(text) => variable(alloc, entry.0.as_str(), text.as_str()),
        None => {
            let name = entry.0.copied(alloc)?;
            Err(BuildError::Refused(BuildFault::NotText(LaunchText::EnvVariable(name))))
        }
    }
}

fn is_asked(asked: &[(Text, AskedVariable)], name: &str) -> bool
    ensures { result ≡ is_asked asked.now name.now }
{
    asked.iter().any(|entry| entry.0.as_str() == name)
}

/// One variable, where an operating system takes its name and its text.
fn variable(alloc: Global, name: &str, text: &str) -> Result<Vec<Variable>, BuildError>
    ensures ok { IfOk result (λ env. and_then (variable name.now text.now) (λ w. Ok (w ∷ []))
        ≡ Ok env.items) }
    ensures err { IfErr result (FaultOf (variable name.now text.now)) }
{
    let name_copy = Text::from_text(alloc, name)?;
    if !is_variable_name(name) || !is_plain(text) {
        return Err(BuildError::Refused(BuildFault::NotText(LaunchText::EnvVariable(name_copy))));
    }
    let mut env = Vec::with_capacity(alloc, 1)?;
    env.push(Variable {
        name: name_copy,
        text: Text::from_text(alloc, text)?,
    })?;
    Ok(env)
}

fn is_variable_name(name: &str) -> bool
    ensures { result ≡ is_variable_name name.now }
{
    !name.is_empty() && !name.as_bytes().contains(&b'=') && is_plain(name)
}
