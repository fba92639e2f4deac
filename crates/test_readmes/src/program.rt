//! Samples on the words that the program is given, and on rows as data.

use cwl_value::name_parts;
use given_words::{answer_to, option_in, processors_in, with_slots};
use std::alloc::{AllocError, Global};
use std::io;
use test_rows::{Answers, Row, RowFault, answer_rows, quoted};

/// The sample of `given_words`.
pub fn words_of_line(
    alloc: Global,
    words: &[String],
    status: &str,
    online: &str,
) -> Result<(), AllocError> {
    let count = processors_in(status, online); // the texts of /proc/self/status and /sys/devices/system/cpu/online
    let words = with_slots(alloc, words, count)?; // run --parallel doc.json becomes run --slots=4 doc.json
    let answer = answer_to(option_in("--cachedir=x")); // "`--cache DIR` keeps what jobs give"
    Ok(())
}

/// The calls of some rows.
pub struct Calls;

/// A sample of `test_rows`.
impl Answers for Calls {
    fn answer(&self, alloc: Global, row: &Row) -> Result<String, RowFault> {
        match row.call() {
            "extension" => quoted(alloc, name_parts(row.text("name")?).1),
            _ => Err(RowFault::UnknownCall),
        }
    }
}

/// A sample of `test_rows`.
pub fn rows_answered<R: Input + Print + AllocGlobal>(rt: &R) -> io::Result<()> {
    let status = answer_rows(rt, &Calls)?; // writes: two-periods ".gz"
    Ok(())
}
