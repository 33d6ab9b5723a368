//! Laws of histories, each the contract of a function that does nothing.
ghost use Rattle.deal_model.specs.Views.{History};
ghost use Rattle.deal_model.specs.Rules.{Legal};
ghost use Rattle.deal_model.specs.Laws.{GrowsLegally, BeginsLegally, TimeNeverFalls, EachLeafOnce, SignedAreTaken, SerialsDiffer, OneGrantEach, StaysRevoked};

/// How legal histories grow and begin: an allowed change keeps one legal, and each beginning of one is legal.
pub fn legal_histories_grow()
    ensures grows { GrowsLegally }
    ensures begins { BeginsLegally }
{}

/// What holds of each legal history: time never falls, no leaf of a key is taken twice, serial numbers differ, and a
/// transaction has at most one Grant. A change takes each leaf that it signs with.
pub fn legal_histories()
    ensures time { (h : History) → Legal h → TimeNeverFalls h }
    ensures leaves { (h : History) → Legal h → EachLeafOnce h }
    ensures signed { SignedAreTaken }
    ensures serials { (h : History) → Legal h → SerialsDiffer h }
    ensures grants { (h : History) → Legal h → OneGrantEach h }
{}

/// A certificate that is revoked stays so, with its reason, in each later history.
pub fn revoked_stays()
    ensures { StaysRevoked }
{}
