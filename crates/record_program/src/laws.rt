//! A law of what is compared: the contract of a function that does nothing.
ghost use Rattle.record_program.specs.Checking.{SparesArchives};

/// A folder that is called unknown is one of those that were found, and has nothing of an archive that its own folder has not.
pub fn unknown_spares_archives()
    ensures { SparesArchives }
{}
