//! Whether what was fetched is what a row has.
ghost use Rattle.std.specs.Prelude.{◌≡◌, ◌↔◌, IsTrue, All, Contains};
ghost use Rattle.job_reuse.specs.Rows.{AreTheSame};

use job_rows::Row;
use staging::Found;

/// Checks that what was fetched is the row's files, in name, kind, size and sum: all of them and no others, in any order.
pub fn files_agree(row: &Row, fetched: &[Found]) -> bool
    ensures { IsTrue result ↔ AreTheSame row.now.files fetched.now }
{
    let files = row.files.as_slice();
    // The row's files come first. Where one was not fetched, those before it are found at their places, and it ends the look. The other
    // way round each file behind it would be looked for from the front, in square time.
    all_among(files, fetched) && all_among(fetched, files)
}

fn all_among(these: &[Found], those: &[Found]) -> bool
    ensures { IsTrue result ↔ All (Contains those.now) these.now }
{
    for (index, found) in these.iter().enumerate() {
        if !is_among(found, index, those) {
            return false;
        }
    }
    true
}

// Looks at the same place first: files are mostly given in the order in which they were asked for.
fn is_among(found: &Found, index: usize, those: &[Found]) -> bool
    ensures { IsTrue result ↔ Contains those.now found.now }
{
    stands_at(found, index, those) || those.iter().any(|other| is_same(found, other))
}

fn stands_at(found: &Found, index: usize, those: &[Found]) -> bool
    ensures { IsTrue result → Contains those.now found.now }
{
    match those.get(index) {
        None => false,
        Some(other) => is_same(found, other),
    }
}

fn is_same(one: &Found, other: &Found) -> bool
    ensures { IsTrue result ↔ (one.now ≡ other.now) }
{
    one.name.equals(&other.name)
        && one.is_dir == other.is_dir
        && one.size == other.size
        && one.sum.equals(&other.sum)
}
