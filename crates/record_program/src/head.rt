//! What the first bytes of a file and of its log say, before the store sees them.
ghost use Rattle.std.specs.Prelude.{◌≡◌, ◌≤◌, length};
ghost use Rattle.record_program.specs.Head.{is_blank, is_begun, has_magic, has_pages, is_utf16, is_vacuumed, form_of, head_of, is_log, has_log_pages, log_of, is_bare_log, is_too_long, of_log, refusal_of};

use job_record::RecordFault;
use sqlite::{Error, ErrorCode};

/// How many bytes the header of a database file has.
pub const HEADER: usize = 100;

/// How many bytes the header of a log has.
pub const LOG_HEADER: usize = 32;

/// How many bytes a log with one frame has: its header, the frame's, and a page.
const LEAST_LOG: u64 = 32 + 24 + 4_096;

/// The most bytes of a file that is opened: the store keeps some for each page, whether anything is in it or not.
const MOST_BYTES: u64 = 1 << 36;

const NOT_A_DATABASE: RecordFault = RecordFault::Store(Error::SqliteFailure(
    ErrorCode::NotADatabase,
));

const MAGIC: &[u8] = b"SQLite format 3\0";

/// What a file is by its first bytes.
#[derive(Clone, Copy, Debug, PartialEq, Eq)]
pub enum Head {
    /// There are none but zeros: the first page was not written yet.
    Blank,
    /// The first one is zero, and not all are: the first byte of a new database is written last.
    Begun,
    /// They are no header of a database.
    NoDatabase,
    /// The pages have another size than 4,096 bytes.
    OtherPages,
    /// The texts are in UTF-16.
    OtherText,
    /// The file has the pages that auto_vacuum keeps.
    AutoVacuum,
    /// The file may hold a record.
    Database,
}

/// Returns what a file is by its first 100 bytes, or by all that it has if they are fewer.
pub fn head_of(bytes: &[u8]) -> Head
    ensures { result ≡ head_of bytes.now }
{
    if is_blank(bytes) {
        return Head::Blank;
    }
    if is_begun(bytes) {
        return Head::Begun;
    }
    if bytes.len() < HEADER {
        return Head::NoDatabase;
    }
    form_of(bytes)
}

fn is_blank(bytes: &[u8]) -> bool
    ensures { result ≡ is_blank bytes.now }
{
    bytes.iter().all(|byte| *byte == 0)
}

fn is_begun(bytes: &[u8]) -> bool
    ensures { result ≡ is_begun bytes.now }
{
    !bytes.is_empty() && bytes[0] == 0
}

fn form_of(bytes: &[u8]) -> Head
    requires { 100 ≤ length bytes.now }
    ensures { result ≡ form_of bytes.now }
{
    if !has_magic(bytes) {
        Head::NoDatabase
    } else if !has_pages(bytes) {
        Head::OtherPages
    } else if is_utf16(bytes) {
        Head::OtherText
    } else if is_vacuumed(bytes) {
        Head::AutoVacuum
    } else {
        Head::Database
    }
}

fn has_magic(bytes: &[u8]) -> bool
    requires { 100 ≤ length bytes.now }
    ensures { result ≡ has_magic bytes.now }
{
    &bytes[..16] == MAGIC
}

fn has_pages(bytes: &[u8]) -> bool
    requires { 100 ≤ length bytes.now }
    ensures { result ≡ has_pages bytes.now }
{
    bytes[16] == 0x10 && bytes[17] == 0
}

fn is_utf16(bytes: &[u8]) -> bool
    requires { 100 ≤ length bytes.now }
    ensures { result ≡ is_utf16 bytes.now }
{
    bytes[59] == 2 || bytes[59] == 3
}

fn is_vacuumed(bytes: &[u8]) -> bool
    requires { 100 ≤ length bytes.now }
    ensures { result ≡ is_vacuumed bytes.now }
{
    bytes[52] != 0 || bytes[53] != 0 || bytes[54] != 0 || bytes[55] != 0
}

/// What the log beside a file is by its first bytes.
#[derive(Clone, Copy, Debug, PartialEq, Eq)]
pub enum LogHead {
    /// There is none.
    Absent,
    /// They are no header of a log.
    NoLog,
    /// The pages have another size than 4,096 bytes.
    OtherPages,
    /// The log may be one of a record.
    Log,
}

/// Returns what a log is by its first 32 bytes, or by all that it has if they are fewer.
pub fn log_of(bytes: &[u8]) -> LogHead
    ensures { result ≡ log_of bytes.now }
{
    if bytes.len() < LOG_HEADER || !is_log(bytes) {
        LogHead::NoLog
    } else if !has_log_pages(bytes) {
        LogHead::OtherPages
    } else {
        LogHead::Log
    }
}

fn is_log(bytes: &[u8]) -> bool
    requires { 32 ≤ length bytes.now }
    ensures { result ≡ is_log bytes.now }
{
    bytes[0] == 0x37 && bytes[1] == 0x7f && bytes[2] == 6 && (bytes[3] == 0x82 || bytes[3] == 0x83)
}

fn has_log_pages(bytes: &[u8]) -> bool
    requires { 32 ≤ length bytes.now }
    ensures { result ≡ has_log_pages bytes.now }
{
    bytes[8] == 0 && bytes[9] == 0 && bytes[10] == 0x10 && bytes[11] == 0
}

/// Whether a file of so many bytes is too long to be opened.
pub fn is_too_long(bytes: u64) -> bool
    ensures { result ≡ is_too_long bytes }
{
    bytes > MOST_BYTES
}

/// Whether a log of so many bytes has no room for a frame, and so commits nothing.
pub fn is_bare_log(bytes: u64) -> bool
    ensures { result ≡ is_bare_log bytes }
{
    bytes < LEAST_LOG
}

/// Returns why such a file is not opened beside such a log: R1 for a database that no record is, and R4 for what is none. A database whose
/// making was cut off has its log, and is left to the store, which makes it anew.
pub fn refusal_of(head: Head, log: LogHead) -> Option<RecordFault>
    ensures { result ≡ refusal_of head log }
{
    match head {
        Head::Begun if matches!(log, LogHead::Log) => None,
        Head::Begun => Some(NOT_A_DATABASE),
        Head::NoDatabase => Some(NOT_A_DATABASE),
        Head::OtherPages => Some(RecordFault::NotARecord),
        Head::OtherText => Some(RecordFault::NotARecord),
        Head::AutoVacuum => Some(RecordFault::NotARecord),
        Head::Blank => of_log(log),
        Head::Database => of_log(log),
    }
}

fn of_log(log: LogHead) -> Option<RecordFault>
    ensures { result ≡ of_log log }
{
    match log {
        LogHead::OtherPages => Some(RecordFault::NotARecord),
        LogHead::Absent => None,
        LogHead::NoLog => None,
        LogHead::Log => None,
    }
}
