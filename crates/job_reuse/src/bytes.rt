//! How many bytes there are to load.
ghost use Rattle.std.specs.Prelude.{◌≡◌};
ghost use Rattle.job_reuse.specs.Rows.{bytes_of};

use job_rows::Row;

/// Returns how many bytes the files of a row have in all, held to the greatest number of 64 bits: those that are fetched where the
/// row is loaded.
pub fn file_bytes(row: &Row) -> u64
    ensures { result ≡ bytes_of row.now.files }
{
    let mut bytes: u64 = 0;
    for found in row.files.as_slice() {
        bytes = bytes.saturating_add(found.size);
    }
    bytes
}
