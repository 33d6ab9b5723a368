//! A law of the answers, the contract of a function that does nothing.
ghost use Rattle.deal_answers.specs.Laws.{OwnersStay};

/// To whom a credential belongs, with which key and which rights, is the same in each later history.
pub fn owners_stay()
    ensures { OwnersStay }
{}
