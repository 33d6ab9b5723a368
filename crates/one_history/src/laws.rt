//! The law, as the contract of a function that only cites others.
ghost use Rattle.one_history.specs.Headline.{AllRunsHaveOneHistory};

use cmp_ports::Disk;
use deal_model::{legal_histories, legal_histories_grow};
use desk_laws::at_most_one_answer;
use grant_laws::grants_only_on_proof;
use signed_texts::{each_leaf_has_one_text, what_is_sent_is_signed_so};

/// All runs of the program on one disk have one history, whatever they were asked, whatever failed, and wherever the machine
/// stopped. The runs up to one that finds a history and comes to the end of its work are one run of the world, which leaves that
/// history with what the run makes. What stood by an earlier run at the end of its work begins it. Each answer that was given is
/// the history's, or says that a device failed; a transaction has one certificate at most; a certificate is granted for nothing
/// but a message whose protection verifies and a key whose possession is shown; and under one key file no leaf of a key signs two
/// texts (RFC 9810, 5.1.3, 5.2.8 and 5.3.4; RFC 8554, 9.2).
pub fn all_runs_have_one_history<D: Disk>()
    ensures { AllRunsHaveOneHistory D.Disk }
{
    at_most_one_answer();
    legal_histories_grow();
    legal_histories();
    each_leaf_has_one_text();
    what_is_sent_is_signed_so();
    grants_only_on_proof();
}
