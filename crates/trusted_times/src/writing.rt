//! A table as lines.

use crate::stamp::Stamp;
use crate::times::{Seen, Times};
use plain_data::Text;
use std::alloc::{AllocError, Global};

/// The first line of a table.
pub(crate) const HEADING: &str = "deparohi-times 1\n";

/// What the last line of a table begins with: how many files there are stands behind it.
pub(crate) const ENDING: &str = "files ";

impl Times {
    /// Returns the table as lines: a heading, a line for each file, and how many these are. A path with a line feed in it is left out.
    pub fn text(&self, alloc: Global) -> Result<Text, AllocError> {
        let mut text = String::from_str(alloc, HEADING)?;
        let mut count: u64 = 0;
        for (path, seen) in &self.seen {
            if !path.contains('\n') {
                push_line(alloc, &mut text, path, seen)?;
                count = count.saturating_add(1);
            }
        }
        text.push_str(ENDING)?;
        text.push_str(format!(in alloc; "{count}\n")?.as_str())?;
        Ok(Text::from_string(text))
    }
}

fn push_line(alloc: Global, text: &mut String, path: &str, seen: &Seen) -> Result<(), AllocError> {
    let Stamp {
        device,
        number,
        size,
        modified,
        changed,
    } = seen.stamp;
    text.push_str(seen.sum.as_str())?;
    for part in [
        device,
        number,
        size,
        modified.seconds,
        modified.nanos,
        changed.seconds,
        changed.nanos,
    ] {
        text.push_str(format!(in alloc; " {part}")?.as_str())?;
    }
    text.push_str(" ")?;
    text.push_str(path)?;
    text.push_str("\n")
}
