//! What the definitions come to: each law is the contract of a function that does nothing.
ghost use Rattle.cwl_value.specs.Canonical.{TextsTellJsonApart};
ghost use Rattle.cwl_value.specs.Fileless.{FilelessJsonStandsForValues};
ghost use Rattle.cwl_value.specs.Laws.{ListingsAreInOrder};
ghost use Rattle.cwl_value.specs.Plain.{JsonTellsValuesApart, TextsTellValuesApart};

/// A Directory's listing is written with the entries that it has, in the order of their names.
pub fn listings_are_in_order()
    ensures { ListingsAreInOrder }
{}

/// JSON whose numbers are whole is told apart by its canonical text: equal texts come from equal JSON.
pub fn texts_tell_json_apart()
    ensures { TextsTellJsonApart }
{}

/// Plain values are told apart by their JSON: each of `json_of` is of one plain value.
pub fn json_tells_values_apart()
    ensures { JsonTellsValuesApart }
{}

/// Plain values are told apart by their canonical texts.
pub fn texts_tell_values_apart()
    ensures { TextsTellValuesApart }
{}

/// JSON whose numbers are whole and in which no object has the class of a File or Directory stands for a value that holds neither.
pub fn fileless_json_stands_for_values()
    ensures { FilelessJsonStandsForValues }
{}
