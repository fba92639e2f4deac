use crate::RowFault;
use crate::row::quoted;
use std::alloc::Global;

/// An answer that is written piece by piece. What went wrong with a piece, its end tells, so that no piece has to be asked for.
#[derive(Drop)]
pub struct AnswerText {
    alloc: Global,
    text: String,
    state: Result<(), RowFault>,
}

impl AnswerText {
    /// Begins an answer.
    pub fn new(alloc: Global) -> AnswerText {
        AnswerText {
            alloc,
            text: String::new(alloc),
            state: Ok(()),
        }
    }

    /// Adds a text as it is.
    pub fn put(&mut self, piece: &str) {
        if self.state.is_ok() {
            self.state = push(&mut self.text, piece);
        }
    }

    /// Adds a text as JSON, in its quotes.
    pub fn put_quoted(&mut self, text: &str) {
        if self.state.is_ok() {
            self.state = push_quoted(self.alloc, &mut self.text, text);
        }
    }

    /// Adds a text as JSON, or `null`.
    pub fn put_quoted_or_null(&mut self, text: Option<&str>) {
        match text {
            Some(text) => self.put_quoted(text),
            None => self.put("null"),
        }
    }

    /// Adds a whole number.
    pub fn put_whole(&mut self, number: i64) {
        if self.state.is_ok() {
            self.state = push_whole(self.alloc, &mut self.text, number);
        }
    }

    /// Adds a whole number from 0 on.
    pub fn put_natural(&mut self, number: u64) {
        if self.state.is_ok() {
            self.state = push_natural(self.alloc, &mut self.text, number);
        }
    }

    /// Adds `true` or `false`.
    pub fn put_flag(&mut self, flag: bool) {
        self.put(if flag { "true" } else { "false" });
    }

    /// Adds a comma, unless a list or an object has just begun.
    pub fn put_comma(&mut self) {
        if !self.text.ends_with('[') && !self.text.ends_with('{') {
            self.put(",");
        }
    }

    /// Makes this fault the answer, unless an earlier piece went wrong.
    pub fn fail(&mut self, fault: RowFault) {
        if self.state.is_ok() {
            self.state = Err(fault);
        }
    }

    /// Returns the whole answer, or what went wrong with the first piece that could not be added.
    pub fn finish(self) -> Result<String, RowFault> {
        let AnswerText {
            alloc: _,
            text,
            state,
        } = self;
        state?;
        Ok(text)
    }
}

fn push(out: &mut String, piece: &str) -> Result<(), RowFault> {
    Ok(out.push_str(piece)?)
}

fn push_quoted(alloc: Global, out: &mut String, text: &str) -> Result<(), RowFault> {
    let text = quoted(alloc, text)?;
    push(out, text.as_str())
}

fn push_whole(alloc: Global, out: &mut String, number: i64) -> Result<(), RowFault> {
    let text = number.to_string(alloc)?;
    push(out, text.as_str())
}

fn push_natural(alloc: Global, out: &mut String, number: u64) -> Result<(), RowFault> {
    let text = number.to_string(alloc)?;
    push(out, text.as_str())
}
