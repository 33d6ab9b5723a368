//! What answers messages, over any clerk.
ghost use Rattle.std.specs.Prelude.{◌≡◌, None};
ghost use Rattle.deal_model.specs.Views.{settings_of};
ghost use Rattle.deal_table.specs.History.{IsFounded};
ghost use Rattle.front.specs.Fronts.{HasSettings};

use crate::device::Device;
use crate::drawing::draw;
use crate::handing::{failed_device, hand};
use crate::serving::serve;
use cmp_ports::{Answered, Answerer, Clock, Entropy, Gate, Octets};
use desk::Clerk;
use letter_laws::each_has_one_letter;
use reply_maker::Keys;
use std::alloc::Global;

/// Answers messages under the keys of an authority, over the history that a clerk keeps: a desk of its own, or one that it shares
/// with others. The gate is passed at each point of an answer.
#[derive(Drop)]
pub struct Front<'k, K: Clerk, C: Clock, E: Entropy, G: Gate> {
    alloc: Global,
    keys: &'k Keys,
    clerk: K,
    clock: C,
    entropy: E,
    gate: G,
    failed: Option<Device>,
    ghost settings: { HasSettings (K.seen clerk) keys.now.settings },
}

impl<'k, K: Clerk, C: Clock, E: Entropy, G: Gate> Front<'k, K, C, E, G> {
    /// A front under these keys, over this clerk, which has seen the founding and whose settings are those of the keys. Takes no
    /// memory.
    pub fn new(
        alloc: Global,
        keys: &'k Keys,
        clerk: K,
        clock: C,
        entropy: E,
        gate: G,
    ) -> Front<'k, K, C, E, G>
        requires founded { IsFounded (K.seen clerk) }
        requires settings { settings_of (K.seen clerk) ≡ keys.now.settings }
        ensures keys { result.keys.now ≡ keys.now }
        ensures clerk { result.clerk ≡ clerk }
        ensures clock { result.clock ≡ clock }
        ensures entropy { result.entropy ≡ entropy }
        ensures failed { result.failed ≡ None }
    {
        Front {
            alloc,
            keys,
            clerk,
            clock,
            entropy,
            gate,
            failed: None,
        }
    }

    /// The history that the clerk has seen was founded with the settings of the keys: a law, which does nothing.
    pub fn stands(&self)
        ensures { HasSettings (K.seen self.now.clerk) self.now.keys.now.settings }
    {}

    /// Which device failed in the last answer; none where it was another answer than that a device failed.
    pub fn failed(&self) -> Option<Device>
        ensures { result ≡ self.now.failed }
    {
        self.failed
    }
}

impl<'k, K: Clerk, C: Clock, E: Entropy, G: Gate> Front<'k, K, C, E, G> {
    /// What the front was made over: its clerk, its clock, its entropy and its gate. Who lent it a clock learns by this that it has
    /// its own back.
    pub fn into_parts(self) -> (K, C, E, G)
        ensures clerk { result.0 ≡ self.entry.clerk }
        ensures clock { result.1 ≡ self.entry.clock }
        ensures entropy { result.2 ≡ self.entry.entropy }
    {
        (self.clerk, self.clock, self.entropy, self.gate)
    }
}

impl<'k, K: Clerk, C: Clock + Drop, E: Entropy + Drop, G: Gate + Drop> Front<'k, K, C, E, G> {
    /// The clerk.
    pub fn into_clerk(self) -> K
        ensures { result ≡ self.entry.clerk }
    {
        self.clerk
    }
}

impl<'k, K: Clerk, C: Clock, E: Entropy, G: Gate> Answerer for Front<'k, K, C, E, G> {
    ghost use Rattle.front.specs.Fronts.{IsFrontAnswer};

    ghost answers = { λ before request end reply after. IsFrontAnswer K.Clerk C.Clock E.Entropy (record { keys = before.keys.now; clerk = before.clerk; clock = before.clock; entropy = before.entropy; failed = before.failed }) request end reply (record { keys = after.keys.now; clerk = after.clerk; clock = after.clock; entropy = after.entropy; failed = after.failed }) };

    ghost faults = { λ _. 0 };

    fn answer(&mut self, request: &[u8], reply: &mut Octets) -> Answered {
        each_has_one_letter(request);
        let now = self.clock.now();
        let drawn = draw(&mut self.entropy);
        let response = serve(
            self.alloc,
            self.keys,
            &mut self.clerk,
            &mut self.gate,
            request,
            now,
            &drawn,
        );
        self.failed = failed_device(&response, &drawn);
        hand(response, reply)
    }
}
