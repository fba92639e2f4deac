//! The words that stand before the command of each job.
ghost use Rattle.std.specs.Prelude.{◌≡◌, ◌∷◌, [], ◌++◌, if◌then◌else◌, IfOk, OnOk, option_map};
ghost use Rattle.program_words.specs.Launcher.{is_word, launched, launcher_in, words_in};

use command_line::Launch;
use plain_data::{Items, Text};
use std::alloc::{AllocError, Global};

/// Returns the words of a launcher's text: what stands between its spaces. A quote is a character as any other.
pub fn launcher_of(alloc: Global, launcher: Option<&str>) -> Result<Items<Text>, AllocError>
    ensures { IfOk result (λ words. words ≡ launcher_in (option_map (λ s. s.now) launcher.entry)) }
{
    match launcher {
        None => Ok(Items::new(alloc)),
        Some(text) => words_in(alloc, text),
    }
}

fn words_in(alloc: Global, text: &str) -> Result<Items<Text>, AllocError>
    ensures { IfOk result (λ words. words ≡ words_in text.now) }
{
    let mut words = Items::new(alloc);
    for part in text.split(' ') {
        add_part(alloc, part, &mut words)?;
    }
    Ok(words)
}

// Adds what stands between two spaces, if that is a word.
fn add_part(alloc: Global, part: &str, words: &mut Items<Text>) -> Result<(), AllocError>
    ensures { OnOk result (words.new ≡ words.old ++ (if is_word part.now then part.now ∷ []
        else [])) }
{
    if part.is_empty() {
        return Ok(());
    }
    words.push(Text::from_text(alloc, part)?)
}

/// Returns the launch as it is started: its words stand behind those of the launcher.
pub(crate) fn launched(
    alloc: Global,
    launcher: Option<&str>,
    launch: &Launch,
) -> Result<Launch, AllocError>
    ensures { IfOk result (λ whole. whole
        ≡ launched (option_map (λ s. s.now) launcher.entry) launch.now) }
{
    let mut words = launcher_of(alloc, launcher)?;
    add_words(alloc, launch.words.as_slice(), &mut words)?;
    let Launch {
        words: _own,
        env,
        stdin,
        stdout,
        stderr,
        dir,
    } = launch.clone_in(alloc)?;
    Ok(Launch {
        words,
        env,
        stdin,
        stdout,
        stderr,
        dir,
    })
}

fn add_words(alloc: Global, more: &[Text], words: &mut Items<Text>) -> Result<(), AllocError>
    ensures { OnOk result (words.new ≡ words.old ++ more.now) }
{
    for word in more {
        words.push(word.copied(alloc)?)?;
    }
    Ok(())
}
