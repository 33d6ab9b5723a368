//! The law, as the contract of a function that only cites others.
ghost use Rattle.reply_steps.specs.Replies.{SealIsSign, WriteIsSend, ReplyStops};

use signed_texts::{each_leaf_has_one_text, every_run_signs_one_text, what_is_sent_is_signed_so};
use world_core::every_world_is_safe;

/// A reply that is sealed is the step that signs for its place: behind it each text of that place, and of the founding, is signed by
/// its leaf, that of the reply among them (RFC 8554, 9.2). The reply that is written is the step that sends it. A stop at any moment
/// leaves the history, with what was in doubt kept or lost.
pub fn replies_are_steps()
    ensures sealed { SealIsSign }
    ensures written { WriteIsSend }
    ensures stop { ReplyStops }
{
    every_world_is_safe();
    each_leaf_has_one_text();
    what_is_sent_is_signed_so();
    every_run_signs_one_text();
}
