//! Owners of text, items and named values that contracts see as plain data, so that `≡` on anything
//! that holds them compares data alone, and never pointers or capacities.
//!
//! | Type | Holds | Contracts see |
//! |---|---|---|
//! | `Text` | a `String` | its UTF-8 bytes, a `List ℕ` |
//! | `Items<T>` | a `Vec<T>` | a `List T` |
//! | `Keyed<T>` | names with values, in the order of the names' bytes, each name once | a `List (List ℕ × T)` |
//! | `Shared<T>` | a counted `T` that several owners have | the `T` |
//! | `SharedItems<T>` | `Items<T>` of one owner, or counted ones of several | a `List T` |
//!
//! A type may lead back to itself through `Items` and `Keyed`, as a tree of values does: give it
//! `#[cycle(name)]`, and likewise its recursive functions, one for a value, one for `&Items` and one for
//! `&Keyed`, each a `for` over `as_slice()`. A definition over such a type is a fold, `fold-Tree A step`, with
//! `map` of it for items and `map_values` of it for named values. `crates/test_values/src/tree.rt` has the
//! smallest such type and an exact copy of it.
//!
//! `specs/ByName.antt` has the order of names and the look-up; `proofs/ByName.antt`, `proofs/Lookup.antt` and
//! `proofs/Once.antt` have what callers cite: a list in order is known by its look-ups, a function of the values
//! keeps the order, and putting a list in order changes no look-up.
#![tactic(auto)]

mod items;
mod keyed;
mod shared;
mod shared_items;
mod text;

pub use items::Items;
pub use keyed::{Keyed, RepeatedName};
pub use shared::Shared;
pub use shared_items::SharedItems;
pub use text::{Text, copied_if_any};
