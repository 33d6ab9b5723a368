//! Laws of the table, each the contract of a function that does nothing.
ghost use Rattle.deal_table.specs.Laws.{SettingsStay, OwnersStay, FirstsStay, PlacesStay, ReceiptsStay, GrantReceiptsStay, LeftAnswers, LeftAsks, IsDecidedByTheRest, DecidesOrAsks, RefusesToTheCarried, ComparedNeverAsks, DecidesByTheTime, LookRefuses, RefusesToTheLooked, LookTellsTheOwner, LookTellsTheOuterOwner, MakesTheAllowed, LeftMakesTheAllowed, MakesTheStamped, LeftMakesTheStamped, UnusedHasNoChange, DealHasGrantOrHold, LegalIsFounded, EventsAreTimely, NobodyIsUnnamed, SecretIsTheOwners};

/// What a history has settled stands in each later one: what the service was founded with; to whom a credential belongs; the
/// first change of any sort, and its place; what the reply to a change needs.
pub fn what_is_settled_stays()
    ensures settings { SettingsStay }
    ensures owners { OwnersStay }
    ensures firsts { FirstsStay }
    ensures places { PlacesStay }
    ensures receipts { ReceiptsStay }
    ensures grants { GrantReceiptsStay }
{}

/// What was checked of a message at one history decides it at each later one, by the same table over what is left: with the
/// same answer, refusals to the same header under the same secret. Where certHash wasn't compared, the answer is the same, or
/// it has to be compared first. Of the clock's reading only the event's time is asked.
pub fn what_is_left_decides()
    ensures answers { LeftAnswers }
    ensures asks { LeftAsks }
    ensures left { IsDecidedByTheRest }
    ensures blind { DecidesOrAsks }
    ensures sends { RefusesToTheCarried }
    ensures compared { ComparedNeverAsks }
    ensures time { DecidesByTheTime }
{}

/// What a look tells: a message that its rows refuse is refused at the history that it looked at, with the same reason, to the
/// same header, under the same secret, which the look tells; and a sender that is good is the owner of its credential.
pub fn what_a_look_tells()
    ensures refuses { LookRefuses }
    ensures sends { RefusesToTheLooked }
    ensures owner { LookTellsTheOwner }
    ensures outer { LookTellsTheOuterOwner }
{}

/// What the table makes may come next in the history, at the event's time: it has a spelling, there is room for it, and the
/// rule of its kind holds. It has the stamp of a message, so it is none of an operator's changes, no order and no Lapse. So does
/// what is made of what was checked.
pub fn what_is_made_is_allowed()
    ensures decided { MakesTheAllowed }
    ensures left { LeftMakesTheAllowed }
    ensures stamped { MakesTheStamped }
    ensures left_stamped { LeftMakesTheStamped }
{}

/// What the rows say of a legal history: a transaction is unused exactly where no change has its transactionID; a request began
/// it exactly where a Grant or a Hold has it; the service was founded; an event's time is one that a clock may say; where the
/// senderKID is absent nobody is known; and what protects a reply is the secret or key of its sender's credential.
pub fn what_legal_histories_say()
    ensures unused { UnusedHasNoChange }
    ensures deal { DealHasGrantOrHold }
    ensures founded { LegalIsFounded }
    ensures time { EventsAreTimely }
    ensures nobody { NobodyIsUnnamed }
    ensures secret { SecretIsTheOwners }
{}
