// Laws of files of declared bounds: each is the contract of a function that does nothing.
ghost use Rattle.bound_file.specs.Laws.{FilesHaveOneAnswer};
ghost use Rattle.bound_file.specs.Example.{Examples};

/// Bytes have one answer at most, and those that are text have one.
pub fn files_have_one_answer()
    ensures { FilesHaveOneAnswer }
{}

/// Small files come to what was worked out by hand.
pub fn small_files()
    ensures { Examples }
{}
