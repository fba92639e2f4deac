//! `record --long`: the rows of a record with what they are of.
ghost use Rattle.std.specs.Prelude.{◌≡◌, ◌++◌, IfOk, IfErr, OnOk, flat_map, option_copied, string_bytes};
ghost use Rattle.plain_data.specs.ByName.{by_name, value_at};
ghost use Rattle.record_program.specs.declared.ending.Ending.TheVariants.{Rows};
ghost use Rattle.record_call.specs.Listed as spec;

use job_record::RecordFault;
use job_rows::{Archive, Row};
use plain_data::{Keyed, Text};
use program_words::key_words;
use record_program::{Ending, Listing, facts_of};
use std::alloc::{AllocError, Global};

/// How the command ends for a record that holds this.
///
/// The keys of two archives are never the same: if they are, the record is refused.
pub fn long_ending(alloc: Global, listing: &Listing) -> Result<Ending, AllocError>
    ensures { IfOk result (spec.IsLongEnding listing.now) }
{
    match Keyed::from_entries(uses(alloc, listing.archives.as_slice())?) {
        Ok(uses) => long_rows(alloc, listing, &uses),
        Err(_) => Ok(Ending::Record(RecordFault::NotARecord)),
    }
}

fn long_rows(alloc: Global, listing: &Listing, uses: &Keyed<u64>) -> Result<Ending, AllocError>
    ensures { IfOk result (λ ending. ending
        ≡ Rows (flat_map (spec.long_line uses.now) listing.now.rows)) }
{
    Ok(Ending::Rows(long_text(alloc, listing.rows.as_slice(), uses)?))
}

// The number of the last use of each archive, by its key.
fn uses(alloc: Global, archives: &[Archive]) -> Result<Vec<(Text, u64)>, AllocError>
    ensures { IfOk result (λ uses. uses.items ≡ spec.uses archives.now) }
{
    let mut uses = Vec::new(alloc);
    for archive in archives {
        uses.push((archive.key.copied(alloc)?, archive.used))?;
    }
    Ok(uses)
}

fn long_text(alloc: Global, rows: &[Row], uses: &Keyed<u64>) -> Result<Text, AllocError>
    ensures { IfOk result (λ text. text ≡ flat_map (spec.long_line uses.now) rows.now) }
{
    let mut text = String::new(alloc);
    for row in rows {
        text.push_str(long_line(alloc, row, uses)?.as_str())?;
    }
    Ok(Text::from_string(text))
}

fn long_line(alloc: Global, row: &Row, uses: &Keyed<u64>) -> Result<String, AllocError>
    ensures { IfOk result (λ line. string_bytes line ≡ spec.long_line uses.now row.now) }
{
    let mut line = facts_of(alloc, row)?;
    line.push_str(use_word(alloc, uses.get(row.key.as_str()))?.as_str())?;
    line.push_str(key_words(alloc, row.key.as_str())?.as_str())?;
    line.push_str("\n")?;
    Ok(line)
}

fn use_word(alloc: Global, used: Option<&u64>) -> Result<String, AllocError>
    ensures { IfOk result (λ word. string_bytes word ≡ spec.use_word (option_copied used.entry)) }
{
    match used {
        Some(number) => format!(in alloc; " {number}"),
        None => String::from_str(alloc, " -"),
    }
}
