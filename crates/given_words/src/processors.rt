//! How many processors a program may use, by what the kernel lists.
ghost use Rattle.std.specs.Prelude.{◌≡◌, ◌≤◌, ◌&&◌, codes, drop, eqb, true};
ghost use Rattle.std.specs.List.{starts_with};
ghost use Rattle.given_words.specs.Processors as spec;

/// The most jobs that may run side by side.
pub const MOST_SLOTS: u64 = 64;

/// The most processors that are looked for.
const MOST_NUMBERS: u64 = 4_096;

/// The line of a process's status with the processors that it may use (proc(5)).
const ALLOWED: &str = "Cpus_allowed_list:";

/// Counts the processors that a process may use by its status, and that are online by their list (cpuset(7), "List format"): at least 1,
/// and at most `MOST_SLOTS`.
#[tactic(auto, using(crate::proofs::Listed::one_more, crate::proofs::Listed::no_more, crate::proofs::Listed::none_below))]
pub fn processors_in(status: &str, online: &str) -> u64
    ensures least { 1 ≤ result }
    ensures most { result ≤ 64 }
    ensures counted { result ≡ spec.processors_in status.now online.now }
{
    let allowed = allowed_in(status);
    let mut count: u64 = 0;
    for number in 0..MOST_NUMBERS {
        if is_usable(allowed, online, number) {
            count += 1;
        }
    }
    count.min(MOST_SLOTS).max(1)
}

// The list of a process's processors in its status.
fn allowed_in(status: &str) -> &str
    ensures { result.now ≡ spec.allowed_in status.now }
{
    match status.lines().find(|line| has_label(line)) {
        None => "",
        Some(line) => behind_label(line),
    }
}

fn has_label(line: &str) -> bool
    ensures { result ≡ starts_with eqb line.now (codes "Cpus_allowed_list:") }
{
    line.starts_with(ALLOWED)
}

// What stands behind the label of a line that has it.
fn behind_label(line: &str) -> &str
    ensures { starts_with eqb line.now (codes "Cpus_allowed_list:") ≡ true
        → result.now ≡ drop 18 line.now }
{
    match line.strip_prefix(ALLOWED) {
        None => "",
        Some(list) => list,
    }
}

fn is_usable(allowed: &str, online: &str, number: u64) -> bool
    ensures { result ≡ (spec.list_has allowed.now number && spec.list_has online.now number) }
{
    has_number(allowed, number) && has_number(online, number)
}

// Whether a list of numbers and ranges, as `0-3,8`, has this number.
fn has_number(list: &str, number: u64) -> bool
    ensures { result ≡ spec.list_has list.now number }
{
    list.trim().split(',').any(|part| is_in_part(part, number))
}

fn is_in_part(part: &str, number: u64) -> bool
    ensures { result ≡ spec.part_has part.now number }
{
    match part.split_once('-') {
        None => is_between(number_in(part), number_in(part), number),
        Some((first, last)) => is_between(number_in(first), number_in(last), number),
    }
}

#[tactic(auto, unfolding(crate::specs::Processors::is_between))]
fn is_between(first: Option<u64>, last: Option<u64>, number: u64) -> bool
    ensures { result ≡ spec.is_between first last number }
{
    match (first, last) {
        (Some(first), Some(last)) => first <= number && number <= last,
        (Some(_), None) => false,
        (None, _) => false,
    }
}

/// The number that digits write, if it is below 2^64.
pub(crate) fn number_in(text: &str) -> Option<u64>
    ensures { result ≡ spec.number_in text.now }
{
    match text.parse::<u64>() {
        Ok(number) => Some(number),
        Err(_) => None,
    }
}
