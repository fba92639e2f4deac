//! Values under ids, in the order of their document.
ghost use Rattle.std.specs.Prelude.{◌≡◌, [], length, ◌↔◌, IsTrue, bytes_eq};
ghost use Rattle.std.specs.List.{IsDistinct};
ghost use Rattle.std.specs.Map.{keys_of};

use plain_data::Text;
use std::marker::Model;

/// Values under ids: in the order of the list, or of the bytes of the map's keys, and no id twice.
#[derive(Drop)]
pub struct Entries<T> {
    held: Vec<(Text, T)>,
}

impl<T> Model for Entries<T> {
    ghost use Rattle.std.specs.Prelude.{List, ℕ, bytes_eq};
    ghost use Rattle.std.specs.Coded.{coded_list, coded×, coded_ℕ};
    ghost use Rattle.std.specs.List.{IsDistinct};
    ghost use Rattle.std.specs.Map.{keys_of};

    ghost Value = { List (List ℕ × T) };

    ghost coded = { coded_list (coded× (coded_list coded_ℕ) T.code) };

    ghost view = { λ fields. fields.held.items };

    ghost invariant = { λ fields. IsDistinct bytes_eq (keys_of fields.held.items) };
}

impl<T> Entries<T> {
    /// The same entries, of which no two have one id, without memory.
    pub fn from_distinct(held: Vec<(Text, T)>) -> Entries<T>
        requires { IsDistinct bytes_eq (keys_of held.items) }
        ensures { result ≡ held.items }
    {
        Entries { held }
    }

    /// The same entries, without memory.
    pub fn into_vec(self) -> Vec<(Text, T)>
        ensures entries { result.items ≡ self }
        ensures ids { IsDistinct bytes_eq (keys_of result.items) }
    {
        self.held
    }

    pub fn as_slice(&self) -> &[(Text, T)]
        ensures entries { result.now ≡ self.now }
        ensures ids { IsDistinct bytes_eq (keys_of result.now) }
    {
        self.held.as_slice()
    }

    pub fn len(&self) -> usize
        ensures { result ≡ length self.now }
    {
        self.held.len()
    }

    pub fn is_empty(&self) -> bool
        ensures { IsTrue result ↔ (self.now ≡ []) }
    {
        self.held.is_empty()
    }
}
