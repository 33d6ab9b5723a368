//! Laws of messages and their facts.
ghost use Rattle.intake.specs.Laws.{LettersFit};

/// What a change keeps of a message fits its places there: a message isn't longer than is read, its transactionID and its nonce are
/// within their limits, and what a request that names a key wishes for can be spelled.
pub fn letters_fit()
    ensures { LettersFit }
{}
