//! What a system tells of a file without reading it.
ghost use Rattle.std.specs.Prelude.{◌≡◌};
ghost use Rattle.trusted_times.specs.Times.{has_settled, is_same};

/// For how many seconds a file has to have been left alone before it is read: file systems count in ticks of up to two seconds.
pub const SETTLED: u64 = 2;

/// A moment since 1970, as a file system keeps it.
#[derive(Clone, Copy, Debug)]
pub struct Moment {
    pub seconds: u64,
    pub nanos: u64,
}

/// What a system tells of a file: where it is, its size in bytes, when its content was modified, and when anything of it was changed.
#[derive(Clone, Copy, Debug)]
pub struct Stamp {
    pub device: u64,
    pub number: u64,
    pub size: u64,
    pub modified: Moment,
    pub changed: Moment,
}

impl Stamp {
    /// Says whether two stamps are the same in all parts.
    pub fn is(&self, other: &Stamp) -> bool
        ensures { result ≡ is_same self.now other.now }
    {
        self.device == other.device
            && self.number == other.number
            && self.size == other.size
            && self.modified.seconds == other.modified.seconds
            && self.modified.nanos == other.modified.nanos
            && self.changed.seconds == other.changed.seconds
            && self.changed.nanos == other.changed.nanos
    }

    /// Says whether the file had been left alone for more than `SETTLED` seconds at a moment, in seconds since 1970.
    pub fn has_settled(&self, now: u64) -> bool
        ensures { result ≡ has_settled self.now now }
    {
        let last = now.saturating_sub(SETTLED);
        self.modified.seconds < last && self.changed.seconds < last
    }
}
