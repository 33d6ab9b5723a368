//! Laws of leaf books.
ghost use Rattle.leaf_book.specs.Laws.{OneTextPerLeaf, StopsKeepLeaves};

use journal_laws::at_most_one_log;

/// In a book and each later state of it, the texts of a leaf have one SHA-256.
pub fn one_text_per_leaf()
    ensures { OneTextPerLeaf }
{}

/// What a stop leaves opens with all leaves given as they were, and perhaps one more.
pub fn stops_keep_leaves()
    ensures { StopsKeepLeaves }
{
    at_most_one_log();
}
