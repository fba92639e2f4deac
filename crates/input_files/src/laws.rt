//! What follows from the definitions alone: each law is the contract of a function that does nothing.
ghost use Rattle.input_files.specs.Laws.{UntouchedWithoutFiles, PathsAreThoseNeeded, MeasuredSaysWhatIsThere, FilesAreAsFound, ContentsAreThoseAsked, ContentsAreLimited, NothingIsReadUnasked};

/// A value without Files and Directories is there whatever was measured, lacks no file, has no path to measure, and stays as it is.
pub fn values_without_files_stay()
    ensures { UntouchedWithoutFiles }
{}

/// Says that a path is measured exactly where a File or Directory of the input object or of a default is, at any depth, or where
/// a file is looked for that a File lacks; and each once.
pub fn paths_are_those_needed()
    ensures { PathsAreThoseNeeded }
{}

/// Says that a measured File keeps its place, its name and its contents and has the size and the sum of the file at its path,
/// and that whether all of a value is there is seen of the measured value alone.
pub fn measured_values_say_what_is_there()
    ensures files { FilesAreAsFound }
    ensures there { MeasuredSaysWhatIsThere }
{}

/// Says that contents are loaded exactly where an input asks for them, of Files whose size is at most 65,536 bytes and whose
/// bytes are text, and that no file is read where none does.
pub fn contents_are_those_asked()
    ensures loaded { ContentsAreThoseAsked }
    ensures unasked { NothingIsReadUnasked }
    ensures limit { ContentsAreLimited }
{}
