ghost use Rattle.std.specs.Prelude.{◌≡◌, IfOk};

use plain_data::{Items, Text, copied_if_any};
use std::alloc::{AllocError, Global};

/// A variable of the child's environment.
#[derive(Debug, Drop)]
pub struct Variable {
    pub name: Text,
    pub text: Text,
}

/// What a host is to start: one child, whole (CWL v1.2, Command Line Tool, "Runtime environment").
#[derive(Debug, Drop)]
pub struct Launch {
    /// The program, and then its arguments: each word is one argument, with any text in it.
    pub words: Items<Text>,
    /// The whole environment: the child sees no other variable.
    pub env: Items<Variable>,
    /// The path of the file that the child reads, or none for an empty input.
    pub stdin: Option<Text>,
    /// The name in `dir` of the file that takes the child's output, or none to discard it.
    pub stdout: Option<Text>,
    /// The name in `dir` of the file that takes the child's messages, or none to discard them.
    pub stderr: Option<Text>,
    /// The path of the folder that the child runs in, its output folder.
    pub dir: Text,
}

impl Variable {
    /// The same variable, in memory of its own.
    pub fn clone_in(&self, alloc: Global) -> Result<Variable, AllocError>
        ensures { IfOk result (λ copy. copy ≡ self.now) }
    {
        Ok(Variable {
            name: self.name.copied(alloc)?,
            text: self.text.copied(alloc)?,
        })
    }
}

impl Launch {
    /// The same launch, in memory of its own.
    pub fn clone_in(&self, alloc: Global) -> Result<Launch, AllocError>
        ensures { IfOk result (λ copy. copy ≡ self.now) }
    {
        Ok(Launch {
            words: words_copy(alloc, self.words.as_slice())?,
            env: env_copy(alloc, self.env.as_slice())?,
            stdin: copied_if_any(alloc, &self.stdin)?,
            stdout: copied_if_any(alloc, &self.stdout)?,
            stderr: copied_if_any(alloc, &self.stderr)?,
            dir: self.dir.copied(alloc)?,
        })
    }
}

fn words_copy(alloc: Global, words: &[Text]) -> Result<Items<Text>, AllocError>
    ensures { IfOk result (λ copy. copy ≡ words.now) }
{
    let mut copies = Vec::new(alloc);
    for word in words {
        copies.push(word.copied(alloc)?)?;
    }
    Ok(Items::from_vec(copies))
}

fn env_copy(alloc: Global, env: &[Variable]) -> Result<Items<Variable>, AllocError>
    ensures { IfOk result (λ copy. copy ≡ env.now) }
{
    let mut copies = Vec::new(alloc);
    for variable in env {
        copies.push(variable.clone_in(alloc)?)?;
    }
    Ok(Items::from_vec(copies))
}
