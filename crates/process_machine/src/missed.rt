//! What could not be copied.

use crate::trouble::{Hindrance, Trouble};
use plain_data::Text;
use staging::Move;
use std::alloc::Global;
use std::mem;

/// A file or folder that could not be copied: where it was to be, and why it is not there.
#[derive(Drop)]
pub struct Undelivered {
    pub target: Text,
    pub why: Hindrance,
    /// What is not as it was told: the path of a file or a folder, where that is why.
    pub changed: Option<Text>,
}

/// How far copies came.
#[derive(Drop)]
pub(crate) struct Missed {
    /// The index of the last move that was begun.
    pub at: Option<usize>,
    /// What was found to be other than it was told.
    pub changed: Option<Text>,
}

impl Missed {
    pub(crate) fn new() -> Missed {
        Missed {
            at: None,
            changed: None,
        }
    }

    /// The move at which copies ended so, where there is room to tell it.
    pub(crate) fn told(
        self,
        alloc: Global,
        moves: &[Move],
        outcome: Result<(), Trouble>,
    ) -> Option<Undelivered> {
        let Err(trouble) = outcome else {
            return None;
        };
        let target = moves.get(self.at?)?.target.copied(alloc).ok()?;
        Some(Undelivered {
            target,
            why: trouble.hindrance(),
            changed: self.changed,
        })
    }
}

/// Notes the path of what could not be copied, where that is because it is not as it was told. The first one noted stays.
pub(crate) fn note_changed(
    alloc: Global,
    path: &str,
    outcome: &Result<(), Trouble>,
    changed: &mut Option<Text>,
) {
    if changed.is_none() && matches!(outcome, Err(Trouble::Hindered(Hindrance::Changed))) {
        mem::drop(mem::replace(changed, Text::from_text(alloc, path).ok()));
    }
}
