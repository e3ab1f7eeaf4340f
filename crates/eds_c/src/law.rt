//! Laws of blocks.

ghost use Rattle.eds_c.specs.Laws.{FilesAreRead, RequestsAreRead, WordsAreRead};

/// What is written as blocks is read as what was written: words, files, and so the request of both.
pub fn blocks_are_read()
    ensures words { WordsAreRead }
    ensures files { FilesAreRead }
    ensures requests { RequestsAreRead }
{}
