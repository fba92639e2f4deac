//! What a runner asks of files: their sums, the parts of their names, and where they are.
//!
//! - `sum_of` gives the SHA-1 and the number of the bytes that a reader gives, however it cuts them.
//! - `name_parts` parts a name at its extension, and `secondary_name` makes the name of a file beside another.
//! - `path_to_location` writes a path as a URL, `location_to_path` reads such a URL, and there and back is the same
//!   path (`there_and_back`).
//! - `resolve` puts each File and Directory of a value at a path, and gives each a name.
//!
//! Each refusal comes only where its cause holds. Any call that allocates may also fail as out of memory.
#![tactic(auto)]

mod distinct;
mod laws;
mod location;
mod names;
mod reader;
mod refusal;
mod resolution;
mod sum;

pub use cwl_value::name_parts;
pub use laws::there_and_back;
pub use location::{location_to_path, path_to_location};
pub use names::secondary_name;
pub use reader::{ByteReader, ReadFailed, Watched};
pub use refusal::{FileError, FileFault};
pub use resolution::resolve;
pub use sum::{FileSum, sum_of};
