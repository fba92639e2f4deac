//! Rows as data: a table of calls in `stdin`, and their answers in `stdout`, side by side.
//!
//! Each line of `stdin` is a row, a JSON object with the row's name, the call and the call's arguments:
//!
//! ```text
//! # Names
//! {"row":"two-periods","call":"name_parts","name":"a.tar.gz"}
//! ```
//!
//! The line of `stdout` beside it is the name and the answer, which is JSON or a code:
//!
//! ```text
//! # Names
//! two-periods ["a.tar",".gz"]
//! ```
//!
//! A heading, which begins with `#`, and an empty line are written out unchanged. A row whose call is unknown, or which
//! lacks an argument, has the answer `?`, and the program then ends with status 1.
//!
//! A program of rows implements `Answers` by a `match` on `row.call()` that ends in `_ => Err(RowFault::UnknownCall)`,
//! and its `main` returns `answer_rows(&rt, &Calls)`.
#![tactic(auto)]

mod answer;
mod fault;
mod program;
mod row;

pub use answer::AnswerText;
pub use fault::RowFault;
pub use program::{Answers, answer_rows, line_answered};
pub use row::{Row, json_text, quoted};
