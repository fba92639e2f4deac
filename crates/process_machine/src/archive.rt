//! Where a job's files are archived and fetched to.
ghost use Rattle.std.specs.Prelude.{◌≡◌, IfOk, string_bytes};
ghost use Rattle.process_machine.specs.Archive as spec;

use plain_data::Text;
use sha1::Sha1;
use std::alloc::{AllocError, Global};
use std::mem;

/// The SHA-1 of a key in lower case digits, which is the name of its folder in the archive.
pub(crate) fn key_sum(alloc: Global, key: &str) -> Result<String, AllocError>
    ensures { IfOk result (λ sum. string_bytes sum ≡ spec.key_sum key.now) }
{
    hex::encode(alloc, Sha1::digest(key.as_bytes()))
}

/// The folders that an archive has for a key.
#[derive(Drop)]
pub(crate) struct KeyFolders {
    /// What is archived under the key.
    pub own: Text,
    /// Beside it, what is stored under the key and is not whole yet.
    pub stores: Text,
}

/// The folders of a key in the archive. A key may be as long as a tool is written, so it is summed once for both.
pub(crate) fn key_folders(alloc: Global, archive: &str, key: &str) -> Result<KeyFolders, AllocError>
    ensures own { IfOk result (λ folders. folders.own ≡ spec.key_folder archive.now key.now) }
    ensures stores { IfOk result (λ folders. folders.stores
        ≡ spec.stores_folder archive.now key.now) }
{
    let sum = key_sum(alloc, key)?;
    let own = Text::from_string(format!(in alloc; "{archive}/{sum}")?);
    let stores = Text::from_string(format!(in alloc; "{archive}/.{sum}")?);
    Ok(KeyFolders { own, stores })
}

/// The folder there for what is stored from this folder of a job. Jobs of runs at one time have folders of their own.
pub(crate) fn beside_folder(
    alloc: Global,
    archive: &str,
    key: &str,
    folder: &str,
) -> Result<Text, AllocError>
    ensures { IfOk result (λ path. path ≡ spec.beside_folder archive.now key.now folder.now) }
{
    let KeyFolders { own, stores } = key_folders(alloc, archive, key)?;
    mem::drop(own);
    let sum = key_sum(alloc, folder)?;
    Ok(Text::from_string(format!(in alloc; "{stores}/{sum}")?))
}

/// The folder whose folder `out` the files of a fetch are copied to, by its number.
pub(crate) fn fetch_folder(alloc: Global, work: &str, number: u64) -> Result<Text, AllocError>
    ensures { IfOk result (λ path. path ≡ spec.fetch_folder work.now number) }
{
    Ok(Text::from_string(format!(in alloc; "{work}/f{number}")?))
}

/// Whether a name leads to what is below a folder, and neither out of it nor to the folder itself.
pub(crate) fn leads_below(name: &str) -> bool
    ensures { result ≡ spec.leads_below name.now }
{
    name.split('/').all(is_entry_name)
}

// Whether this can be the name of an entry of a folder.
fn is_entry_name(name: &str) -> bool
    ensures { result ≡ spec.is_entry_name name.now }
{
    !(name.is_empty() || name == "." || name == "..")
}
