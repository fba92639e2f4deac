//! The lines of `record --check`.
ghost use Rattle.std.specs.Prelude.{◌≡◌, ◌++◌, IfOk, OnOk, decimal, string_bytes, length};
ghost use Rattle.program_words.specs.CheckLines as spec;

use crate::shown::visible;
use plain_data::Text;
use std::alloc::{AllocError, Global};

/// How a cache's files and its record differ, once folders that no row knows were removed.
#[derive(Drop)]
pub struct CheckNames<'a> {
    /// The folders that were removed.
    pub removed: &'a [Text],
    /// The folders that no archived row has, and that are there still.
    pub unknown: &'a [Text],
    /// The archived rows that have no folder.
    pub missing: &'a [Text],
}

/// Returns a line for each name, and then how many they are.
pub fn check_lines(alloc: Global, names: &CheckNames) -> Result<Text, AllocError>
    ensures { IfOk result (λ text. text ≡ spec.check_lines names.now.removed.now
        names.now.unknown.now names.now.missing.now) }
{
    let mut lines = String::new(alloc);
    add_lines(alloc, &mut lines, "removed ", names.removed)?;
    add_lines(alloc, &mut lines, "unknown ", names.unknown)?;
    add_lines(alloc, &mut lines, "missing ", names.missing)?;
    let counts = count_line(alloc, names)?;
    lines.push_str(counts.as_str())?;
    Ok(Text::from_string(lines))
}

fn add_lines(
    alloc: Global,
    lines: &mut String,
    word: &str,
    names: &[Text],
) -> Result<(), AllocError>
    ensures { OnOk result (string_bytes lines.new ≡ string_bytes lines.old
        ++ spec.lines_of word.now names.now) }
{
    for name in names {
        add_line(alloc, lines, word, name.as_str())?;
    }
    Ok(())
}

fn add_line(alloc: Global, lines: &mut String, word: &str, name: &str) -> Result<(), AllocError>
    ensures { OnOk result (string_bytes lines.new ≡ string_bytes lines.old
        ++ spec.line_of word.now name.now) }
{
    lines.push_str(word)?;
    lines.push_str(visible(alloc, name)?.as_str())?;
    lines.push_str("\n")
}

fn count_line(alloc: Global, names: &CheckNames) -> Result<String, AllocError>
    ensures { IfOk result (λ line. string_bytes line
        ≡ spec.count_line (length names.now.removed.now) (length names.now.unknown.now)
        (length names.now.missing.now)) }
{
    let mut line = String::new(alloc);
    add_count(alloc, &mut line, names.removed.len(), " removed, ")?;
    add_count(alloc, &mut line, names.unknown.len(), " unknown, ")?;
    add_count(alloc, &mut line, names.missing.len(), " missing\n")?;
    Ok(line)
}

fn add_count(alloc: Global, line: &mut String, count: usize, word: &str) -> Result<(), AllocError>
    ensures { OnOk result (string_bytes line.new ≡ string_bytes line.old ++ decimal count
        ++ word.now) }
{
    line.push_str(counted(alloc, count)?.as_str())?;
    line.push_str(word)
}

fn counted(alloc: Global, count: usize) -> Result<String, AllocError>
    ensures { IfOk result (λ text. string_bytes text ≡ decimal count) }
{
    format!(in alloc; "{count}")
}
