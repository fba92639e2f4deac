//! What the definitions settle, each as the contract of a function that does nothing.
ghost use Rattle.param_refs.specs.Laws.{ReadingsAreSettled, EachTextHasItsReading, PlainTextsAreKept, ValuesFailByValues};

/// A text has one reading at most: its parts, or the cause why it has none.
pub fn readings_are_settled()
    ensures { ReadingsAreSettled }
{}

/// What `parsed` computes of a text is the reading that the grammar has.
pub fn each_text_has_its_reading()
    ensures { EachTextHasItsReading }
{}

/// A text without `$(` and `${` stands for itself, wherever it is.
pub fn plain_texts_are_kept()
    ensures { PlainTextsAreKept }
{}

/// The value of what was read fails by P3, P4, P5 or P6: P1 and P2 come from reading alone.
pub fn values_fail_by_values()
    ensures { ValuesFailByValues }
{}
