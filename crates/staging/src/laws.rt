//! What holds of all patterns, names and folders: each law is the contract of a function that does nothing.

ghost use Rattle.staging.specs.Laws.{TextMatchesItself, TextMatchesNoOther, SameComponents, HiddenByPeriodAlone, EachTextIsRead, EachNameIsTold, SourcesNeverMeet, EachGroupIsPlaced, OneGroupOneFolder, TargetsNeverMeet, EachFileIsCopied, EachGroupFindsFolder, EachValueHasPlan};

/// A pattern without `*`, `?` and brackets matches its own text and no other name.
pub fn text_matches_itself_alone()
    ensures itself { TextMatchesItself }
    ensures alone { TextMatchesNoOther }
{}

/// Only a `/` of the pattern matches a `/`: a name has as many components as each pattern that matches it.
pub fn same_components()
    ensures { SameComponents }
{}

/// A name that begins with a period is matched only by a pattern that begins with one.
pub fn hidden_by_a_period_alone()
    ensures { HiddenByPeriodAlone }
{}

/// Each text reads as a pattern or has a fault, and each name is one that a pattern matches or isn't.
pub fn each_text_and_name_is_told()
    ensures texts { EachTextIsRead }
    ensures names { EachNameIsTold }
{}

/// Each group that is placed has one folder, which groups with the same places and names share, and in one folder no
/// name is that of two sources.
pub fn sources_never_meet()
    ensures apart { SourcesNeverMeet }
    ensures each { EachGroupIsPlaced }
    ensures one { OneGroupOneFolder }
{}

/// Copies of different sources have different targets, where the files of each group have different names without
/// slashes; and each file of each group is copied to its group's folder.
pub fn targets_never_meet()
    ensures apart { TargetsNeverMeet }
    ensures each { EachFileIsCopied }
{}

/// All values have a plan of copies, both `stage_plan`'s and `deliver_plan`'s, into every folder; for each group finds a
/// folder, whatever was placed before it.
pub fn each_value_has_a_plan()
    ensures folders { EachGroupFindsFolder }
    ensures plans { EachValueHasPlan }
{}
