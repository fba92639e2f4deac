//! The lines that rows are shown as.
ghost use Rattle.std.specs.Prelude.{◌≡◌, ◌++◌, IfOk, OnOk, string_bytes, flat_map};
ghost use Rattle.record_program.specs.Lines.{bytes_of, kept_word, key_sum, spaced, facts_of, line_of};

use job_rows::Row;
use plain_data::Text;
use sha1::Sha1;
use staging::Found;
use std::alloc::{AllocError, Global};

/// Returns the lines of these rows, in their order.
pub fn rows_text(alloc: Global, rows: &[Row]) -> Result<Text, AllocError>
    ensures { IfOk result (λ text. text ≡ flat_map line_of rows.now) }
{
    let mut text = String::new(alloc);
    for row in rows {
        text.push_str(line(alloc, row)?.as_str())?;
    }
    Ok(Text::from_string(text))
}

fn line(alloc: Global, row: &Row) -> Result<String, AllocError>
    ensures { IfOk result (λ text. string_bytes text ≡ line_of row.now) }
{
    let mut text = facts_of(alloc, row)?;
    text.push_str("\n")?;
    Ok(text)
}

/// Returns a row's line without its end: the sum of its key, its cost, the bytes of its files, and whether an archive is kept.
pub fn facts_of(alloc: Global, row: &Row) -> Result<String, AllocError>
    ensures { IfOk result (λ text. string_bytes text ≡ facts_of row.now) }
{
    let mut text = sum_of_key(alloc, row.key.as_str())?;
    push_number(alloc, &mut text, row.cost)?;
    push_number(alloc, &mut text, bytes_of(row.files.as_slice()))?;
    text.push_str(kept_word(row.archived))?;
    Ok(text)
}

// Adds a space and a number.
fn push_number(alloc: Global, text: &mut String, number: u64) -> Result<(), AllocError>
    ensures { OnOk result (string_bytes text.new ≡ string_bytes text.old ++ spaced number) }
{
    text.push_str(spaced(alloc, number)?.as_str())?;
    Ok(())
}

fn spaced(alloc: Global, number: u64) -> Result<String, AllocError>
    ensures { IfOk result (λ text. string_bytes text ≡ spaced number) }
{
    format!(in alloc; " {number}")
}

fn kept_word(archived: bool) -> &'static str
    ensures { result.now ≡ kept_word archived }
{
    if archived { " yes" } else { " no" }
}

/// Returns the SHA-1 of a key, which is also the name of its folder in the archive.
pub fn sum_of_key(alloc: Global, key: &str) -> Result<String, AllocError>
    ensures { IfOk result (λ sum. string_bytes sum ≡ key_sum key.now) }
{
    hex::encode(alloc, Sha1::digest(key.as_bytes()))
}

// The bytes of all files, or the greatest number if they are more.
fn bytes_of(files: &[Found]) -> u64
    ensures { result ≡ bytes_of files.now }
{
    let mut bytes: u64 = 0;
    for found in files {
        bytes = bytes.saturating_add(found.size);
    }
    bytes
}
