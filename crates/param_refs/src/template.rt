ghost use Rattle.std.specs.Prelude.{◌≡◌};

use plain_data::{Items, Text};
use std::alloc::Global;
use std::marker::Model;

/// One step of a reference into a value.
#[derive(Drop)]
pub enum Segment {
    /// `.symbol`, `['text']` or `["text"]`: a key, without dot, brackets and quotes.
    Key(Text),
    /// `[digits]`: an index from 0, as its digits, of which there may be any number.
    Index(Text),
}

/// `$(symbol segment..)`
#[derive(Drop)]
pub struct Reference {
    pub symbol: Text,
    pub segments: Items<Segment>,
}

/// A part of a text.
#[derive(Drop)]
pub enum Part {
    /// Stands for itself.
    Plain(Text),
    /// Stands for its value.
    Referred(Reference),
}

/// A text with references, read. Contracts see it as the list of its parts, from left to right.
#[derive(Drop)]
pub struct Template {
    pub(crate) parts: Items<Part>,
    pub(crate) alloc: Global,
}

impl Template {
    /// The parts, from left to right.
    pub fn parts(&self) -> &[Part]
        ensures { result.now ≡ self.now }
    {
        self.parts.as_slice()
    }
}

impl Model for Template {
    ghost use Rattle.std.specs.Prelude.{List};
    ghost use Rattle.param_refs.specs.declared.template.Part.{Part};

    ghost Value = { List Part };

    ghost view = { λ template. template.parts };
}
