//! What the definitions settle, each as the contract of a function that does nothing.
ghost use Rattle.program_words.specs.ShellWords.{IsReadOnce, IsToldOnce};

/// A shell reads a text as one word at most.
pub fn text_is_one_word()
    ensures { IsReadOnce }
{}

/// A line is that of one command at most: from it the words can be read back, and the files of the streams.
pub fn line_is_one_command()
    ensures { IsToldOnce }
{}
