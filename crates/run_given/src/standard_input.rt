//! Texts that are taken from standard input if `-` stands for it.
ghost use Rattle.std.specs.Prelude.{◌≡◌, ◌≤◌, length, IfOk, IfErr, option_map};
ghost use Rattle.run_given.specs.Held as spec;
ghost use Rattle.run_given.specs.Stops.{IsTrouble, most_bytes};

use crate::reading::{NoBytes, bytes_of_file, bytes_of_input};
use std::rt::Files;

/// The name that stands for standard input.
const INPUT: &str = "-";

/// Reads the file of this name, or standard input, of at most 64 MiB.
pub fn bytes_of<R: AllocGlobal + Files + Input>(rt: &R, name: &str) -> Result<Vec<u8>, NoBytes>
    ensures ok { IfOk result (λ bytes. length bytes.items ≤ most_bytes) }
    ensures err { IfErr result IsTrouble }
{
    if name == INPUT {
        return bytes_of_input(rt);
    }
    bytes_of_file(rt, name)
}

/// The file of the inputs, if they are of one: it can be read again, and standard input can't.
pub fn file_of<'a>(inputs: Option<&'a str>) -> Option<&'a str>
    ensures { option_map (λ s. s.now) result
        ≡ spec.file_of (option_map (λ s. s.now) inputs.entry) }
{
    match inputs {
        Some(name) if name == INPUT => None,
        other => other,
    }
}
