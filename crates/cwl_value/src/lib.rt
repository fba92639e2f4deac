//! The values of the Common Workflow Language, and their JSON.
//!
//! A `Value` is plain data to contracts: `≡` on two values compares everything in them, places included.
//! - `read_value` and `from_json` give exactly the value that JSON stands for, or a refusal whose cause holds.
//! - `to_json` gives exactly the JSON of a value, and `canonical_text` its text, without space and with sorted keys.
//! - `clone_in` gives an equal value, `placed` one whose files are elsewhere, as a `Placing` says, and `erased` one without places. After
//!   `shared` a list is copied in constant time.
//! - `holds_files` says whether a File or Directory is in a value, and `stands_fileless` whether JSON is seen to stand for one without.
//! - `place_text` prints the place of a job.
//! - `listings_are_in_order` is a law: a listing is written in the order of its names.
//! - `texts_tell_json_apart` is one too: JSON without fractions that has one text is one. So are
//!   `json_tells_values_apart` and `texts_tell_values_apart`, of values without places.
//!
//! Each call that allocates may also fail as out of memory.
#![tactic(auto)]

mod beside;
mod copy;
mod depth;
mod distinct;
mod erase;
mod fileless;
mod laws;
mod members;
mod names;
mod place;
mod placing;
mod print;
mod read;
mod refusal;
mod value;
mod write;

pub use copy::{copy_fields, copy_items, copy_job, items_by_value};
pub use distinct::{is_taken, names_differ};
pub use erase::erased;
pub use fileless::{holds_files, stands_fileless};
pub use laws::{
    fileless_json_stands_for_values, json_tells_values_apart, listings_are_in_order,
    texts_tell_json_apart, texts_tell_values_apart,
};
pub use names::name_parts;
pub use place::{JobPlace, Place, Segment};
pub use placing::{Placing, placed, placed_fields};
pub use print::place_text;
pub use read::{MOST_NESTING, from_json, read_value};
pub use refusal::{FileField, ValueRefusal};
pub use value::{DirVal, FileVal, MOST_CONTENTS, Value};
pub use write::{canonical_text, to_json};
