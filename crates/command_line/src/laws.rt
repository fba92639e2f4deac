//! What the definitions settle, each as the contract of a function that does nothing.
ghost use Rattle.command_line.specs.Laws.{LaunchExcludesRefusal, LaunchIsSettled, LaunchOrRefusal, WordsAreSettled};

/// A tool and its inputs have one list of words at most.
pub fn words_are_settled()
    ensures { WordsAreSettled }
{}

/// A tool, its inputs and what it runs in have one launch at most.
pub fn launch_is_settled()
    ensures { LaunchIsSettled }
{}

/// Where there is a launch, no cause of refusal holds.
pub fn launch_excludes_refusal()
    ensures { LaunchExcludesRefusal }
{}

/// Every tool has a launch, or a cause of refusal holds. No two inputs of a tool that was read have one id.
pub fn every_tool_has_a_launch_or_is_refused()
    ensures { LaunchOrRefusal }
{}
