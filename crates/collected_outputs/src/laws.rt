//! What holds of all folders: each law is the contract of a function that does nothing.
ghost use Rattle.collected_outputs.specs.Laws.{EveryFolderHasOutputsOrAFault, SomeHeadsAreWanted, EachFileWasFound, EachPlaceIsAName, ContentsAreDropped, SizesAreThoseFound, OutputsAreThoseDeclared, NamesAreThoseMatched, NamesAreInOrder, FilesReadAreLimited};

/// For each tool, and whatever its command left behind, there are outputs or a fault.
pub fn every_folder_has_outputs_or_a_fault()
    ensures { EveryFolderHasOutputsOrAFault }
{}

/// For each tool, and whatever its command left behind, it is known which first bytes are wanted.
pub fn some_heads_are_wanted()
    ensures { SomeHeadsAreWanted }
{}

/// Says that outputs hold only what was found in the job's folder, at any depth and by whatever way they are collected: each
/// place in them is a name in that folder, and none is of a file that another job made. No contents of files are in them.
pub fn outputs_are_of_their_job()
    ensures found { EachFileWasFound }
    ensures names { EachPlaceIsAName }
    ensures bare { ContentsAreDropped }
{}

/// Says that the sizes and checksums in a tool's outputs are those that were found, whatever `cwl.output.json` says of them;
/// where there is no such file, of a tool without `outputEval`.
pub fn sizes_are_those_found()
    ensures { SizesAreThoseFound }
{}

/// Says that a job's outputs are those that its tool declares, each with a value of its type.
pub fn outputs_are_those_declared()
    ensures { OutputsAreThoseDeclared }
{}

/// Says that patterns match exactly the names that stand in the job's folder and fit one of them, each once, and one pattern's
/// in the order of their bytes.
pub fn names_are_those_matched()
    ensures exactly { NamesAreThoseMatched }
    ensures order { NamesAreInOrder }
{}

/// Says how many bytes a job's `cwl.output.json` may have, and a file whose contents are asked for.
pub fn files_read_are_limited()
    ensures { FilesReadAreLimited }
{}
