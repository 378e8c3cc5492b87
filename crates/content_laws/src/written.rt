//! Trees written as text, and read back.

ghost use Rattle.content_laws.specs.BlockWriting.{LawBlock, LawBlockAlone, LawBlockSample};
ghost use Rattle.content_laws.specs.Writing.{LawAlone, LawSample, LawWritten};

/// A tree that is written as text, in flow style on one line, is read back from it, but for places; and nothing else is read.
/// One such tree stands there with its text.
pub fn written_tree_reads_back()
    ensures read { LawWritten }
    ensures alone { LawAlone }
    ensures sample { LawSample }
{}

/// The same of a tree that is written in block style, with entries and items on lines of their own, however deep they stand.
/// So looks one such text.
pub fn written_block_reads_back()
    ensures read { LawBlock }
    ensures alone { LawBlockAlone }
    ensures sample { LawBlockSample }
{}
