//! What follows from the definitions.
ghost use Rattle.std.specs.Prelude.{◌≡◌, ◌++◌, ℕ, List, map, is_some, codes};
ghost use Rattle.serde_json.specs.Data.{string};
ghost use Rattle.document_table.specs.Texts.{is_type_text};
ghost use Rattle.cwl_types.specs.Forms.{list_of, null_or};
ghost use Rattle.cwl_types.specs.Named.{named_type, names};
ghost use Rattle.cwl_types.specs.Types.{type_in};

/// A text that ends with `?`, `[]` or `[]?` means what its long form means, for each name of a type.
pub fn short_texts_mean_their_long_forms()
    ensures or_null { map (λ n. type_in (string (n.text ++ codes "?"))) names
        ≡ map (λ n. type_in (null_or (string n.text))) names }
    ensures list { map (λ n. type_in (string (n.text ++ codes "[]"))) names
        ≡ map (λ n. type_in (list_of (string n.text))) names }
    ensures list_or_null { map (λ n. type_in (string (n.text ++ codes "[]?"))) names
        ≡ map (λ n. type_in (null_or (list_of (string n.text)))) names }
{}

/// The texts that the table of fields takes as a type are those that name one.
pub fn the_table_takes_the_texts_that_name_types()
    ensures { (text : List ℕ) → is_type_text text ≡ is_some (named_type text) }
{}
