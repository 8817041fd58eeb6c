//! Laws of unit files: the contract of a function that does nothing.
ghost use Rattle.section_reader.specs.{FileLaws.{CommentsChangeNumbersAlone, BlankLinesChangeNumbersAlone, FirstBlankLineChangesNumbersAlone, ContinuedLinesAreJoined, CommentsAreMarked, WhitespaceIsBlank, MarksChangeNothing}, WrittenLaws.{LinesAreReadOneByOne, SectionsAreReadBack}};

/// Comments change only the line numbers, and so do blank lines before the first line, after a blank line, and after a whole
/// line; elsewhere a blank line ends a continuation. A continued line reads like one with a space in place of the backslash
/// and the line feed. What is written line by line, without comments and bad lines, is read back line by line.
pub fn file_laws()
    ensures comment_sign { CommentsAreMarked }
    ensures white { WhitespaceIsBlank }
    ensures byte_order_mark { MarksChangeNothing }
    ensures comments { CommentsChangeNumbersAlone }
    ensures blank_lines { BlankLinesChangeNumbersAlone }
    ensures first_blank_line { FirstBlankLineChangesNumbersAlone }
    ensures continued { ContinuedLinesAreJoined }
    ensures lines { LinesAreReadOneByOne }
    ensures sections { SectionsAreReadBack }
{}
