//! What is answered to words of another runner, and how many processors the machine has.

use given_words::{answer_to, option_in, processors_in};
use std::io::Write;
use std::rt::Files;
use std::{fs, mem};

/// The files in which the kernel lists processors: those of this process, and those that are online.
const STATUS: &str = "/proc/self/status";

const ONLINE: &str = "/sys/devices/system/cpu/online";

/// Says on the errors, if words are to be explained, what does here what the options of another runner do.
pub fn answer_words<E: Write>(words: &[String], err: &mut E) {
    if !words.iter().any(|word| word.as_str() == "--explain") {
        return;
    }
    for word in words {
        let option = option_in(word.as_str());
        if let Some(answer) = answer_to(option) {
            let _told = writeln!(err, "`{option}`: {answer}");
        }
    }
}

/// How many jobs may run side by side on this machine: 1 if it can't be found.
pub fn processors_of<R: AllocGlobal + Files>(rt: &R) -> u64 {
    match fs::read_to_string(rt, STATUS) {
        Ok(status) => {
            let count = online_of(rt, status.as_str());
            mem::drop(status);
            count
        }
        Err(_) => 1,
    }
}

fn online_of<R: AllocGlobal + Files>(rt: &R, status: &str) -> u64 {
    match fs::read_to_string(rt, ONLINE) {
        Ok(online) => {
            let count = processors_in(status, online.as_str());
            mem::drop(online);
            count
        }
        Err(_) => 1,
    }
}
