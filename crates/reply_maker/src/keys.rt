//! The keys of an authority.
ghost use Rattle.std.specs.Prelude.{◌≡◌, ◌≢◌, ◌<◌, ◌≤◌, Err, IfOk, IfErr, IsErrOf, MatchOption, IfSome, true, false};
ghost use Rattle.cmp_ports.specs.Faults.{Rose};
ghost use Rattle.cmp_ports.specs.Whole.{TakesUpTo};
ghost use Rattle.hss_sig.specs.OneLevel.{hss_key, leaf_count};
ghost use Rattle.reply_maker.specs.Certificates.{root_of, reply_of};
ghost use Rattle.reply_maker.specs.KeyFile.{IsKeyFile};
ghost use Rattle.reply_maker.specs.Parts.{HasParts, joined};
ghost use Rattle.reply_maker.specs.Keys.{AreUsable, AreShort, certificates_of, issue_secret, reply_secret, identity_of, are_blank, Agrees, Gives, IsLoad, LeavesRest};

use crate::certificates::{OwnCertificates, certificates};
use crate::key_file::{KeyFault, KeyFile, read_key_file};
use crate::trees::{Trees, compare, grow_both, identity_in, known_identity};
use cmp_ports::{Octets, Source};
use deal_model::Settings;
use hss_sig::{LeafSigner, OneLevel};
use std::alloc::{AllocError, Global};
use std::marker::Model;

/// A copy of settings. `AllocError` where memory runs out.
fn copy_of(alloc: Global, settings: &Settings) -> Result<Settings, AllocError>
    ensures { IfOk result (λ copy. copy ≡ settings.now) }
{
    Ok(Settings {
        time: settings.time,
        name: Octets::copy_of(alloc, settings.name.as_slice())?,
        issue_key: settings.issue_key,
        reply_key: settings.reply_key,
        wait: settings.wait,
        skew: settings.skew,
        rounds: settings.rounds,
        check_after: settings.check_after,
        days: settings.days,
    })
}

/// The certificates of the keys that the settings know; none where their keys aren't made yet.
fn certificates_of(
    alloc: Global,
    issue: &OneLevel,
    settings: &Settings,
) -> Result<Option<OwnCertificates>, AllocError>
    requires leaves { 1 < leaf_count issue.now.tree }
    requires time { settings.now.time ≤ 250_000_000_000 }
    ensures made { IfOk result (λ c. c ≡ certificates_of issue.now settings.now) }
    ensures short { IfOk result (λ c. IfSome c AreShort) }
{
    match known_identity(settings) {
        None => Ok(None),
        Some(_) => match certificates(alloc, issue, settings) {
            Ok(own) => Ok(Some(own)),
            Err(fault) => Err(fault),
        },
    }
}

/// The two private keys of an authority, grown from its key file, with the settings that it has. Contracts see the octets of
/// the file and the settings.
#[derive(Drop)]
pub struct Keys {
    trees: Trees,
    certificates: Option<OwnCertificates>,
    settings: Settings,
}

impl Model for Keys {
    ghost use Rattle.std.specs.Prelude.{◌++◌};
    ghost use Rattle.reply_maker.specs.Keys.{Loaded, AreKept, file_of};

    ghost Value = { Loaded };

    ghost view = { λ k. record { file = file_of k.trees.issue k.trees.reply; settings = k.settings } };

    ghost invariant = { λ k. AreKept k.trees.issue k.trees.reply k.certificates k.settings };
}

impl Keys {
    /// Reads a key file to its end, at most one octet past its 96, and grows both trees with the sets of the settings' keys.
    /// Where those keys are blank, nothing is compared, and no certificate is made.
    pub fn load<K: Source>(
        alloc: Global,
        key: &mut K,
        settings: &Settings,
    ) -> Result<Keys, KeyFault>
        // The settings' numbers and codes are in their ranges, and the name is one common name of 1 to 58 octets.
        requires { AreUsable settings.now }

        // The keys are those of the file; or the file is of no form, or another authority's.
        ensures loaded { IsLoad (K.left key.old) settings.now result }

        // At most the octets of a key file and one more are read, whatever the answer; and just these, also of a file that is none
        // or another authority's.
        ensures within { TakesUpTo 97 (K.left key.old) (K.left key.new) }
        ensures rest { LeavesRest (K.left key.old) (K.left key.new) result }

        // The count of the source's faults has risen after `ReadFault`, and stands after every other answer.
        ensures later { K.faults key.old ≤ K.faults key.new }
        ensures kept { result ≢ Err KeyFault.ReadFault → K.faults key.new ≡ K.faults key.old }
        ensures fault { IsErrOf result KeyFault.ReadFault → Rose (K.faults key.old) (K.faults key.new) }
    {
        match read_key_file(alloc, key) {
            Ok(file) => Keys::grown(alloc, &file, settings),
            Err(fault) => Err(fault),
        }
    }

    /// The keys of a key file, where it is that of the settings.
    fn grown(alloc: Global, file: &KeyFile, settings: &Settings) -> Result<Keys, KeyFault>
        requires parts { HasParts (joined file.now) file.now }
        requires usable { AreUsable settings.now }
        ensures gives { Gives (joined file.now) settings.now result }
        ensures grown { IfErr result (λ f. (f ≢ KeyFault.ReadFault) × (f ≢ KeyFault.BadKeyFile)) }
    {
        let Ok(trees) = grow_both(alloc, file, settings) else {
            return Err(KeyFault::NoMemory);
        };
        match compare(&trees, settings) {
            Ok(()) => {}
            Err(fault) => return Err(fault),
        }
        let Ok(certificates) = certificates_of(alloc, &trees.issue, settings) else {
            return Err(KeyFault::NoMemory);
        };
        let Ok(settings) = copy_of(alloc, settings) else {
            return Err(KeyFault::NoMemory);
        };
        Ok(Keys {
            trees,
            certificates,
            settings,
        })
    }

    /// The file that the keys were loaded from has a key file's form, and is that of the settings where their keys are made: a law,
    /// which does nothing.
    pub fn stand(&self)
        ensures file { IsKeyFile self.now.file }
        ensures own { Agrees self.now.file self.now.settings }
    {
        let _ = &self.settings;
    }

    /// The key that signs certificates.
    pub(crate) fn issue(&self) -> &OneLevel
        ensures { result.now ≡ issue_secret self.now.file self.now.settings }
    {
        &self.trees.issue
    }

    /// The key that signs replies.
    pub(crate) fn reply(&self) -> &OneLevel
        ensures { result.now ≡ reply_secret self.now.file self.now.settings }
    {
        &self.trees.reply
    }

    /// The settings that the keys were loaded with.
    pub fn settings(&self) -> &Settings
        ensures same { result.now ≡ self.now.settings }
        ensures usable { AreUsable self.now.settings }
    {
        &self.settings
    }

    /// The public key that certificates are verified with, 60 octets (RFC 8554, 6.1). Takes no memory.
    pub fn issue_key(&self) -> [u8; 60]
        ensures { result ≡ hss_key (issue_secret self.now.file self.now.settings) }
    {
        self.trees.issue.public()
    }

    /// The public key that replies are verified with, 60 octets (RFC 8554, 6.1). Takes no memory.
    pub fn reply_key(&self) -> [u8; 60]
        ensures { result ≡ hss_key (reply_secret self.now.file self.now.settings) }
    {
        self.trees.reply.public()
    }

    /// The authority's own certificate and that of its reply key; none where the settings' keys aren't made yet.
    pub(crate) fn certificates(&self) -> Option<&OwnCertificates>
        ensures made { MatchOption result (are_blank self.now.settings ≡ true) (λ c. (are_blank self.now.settings ≡ false)
            × (c.now.root ≡ root_of (issue_secret self.now.file self.now.settings) self.now.settings)
            × (c.now.reply ≡ reply_of (issue_secret self.now.file self.now.settings) self.now.settings)) }
        ensures short { IfSome result (λ c. AreShort c.now) }
    {
        self.certificates.as_ref()
    }

    /// By what the authority is known: the identifier and the root of each key. Takes no memory.
    #[tactic(auto, unfolding(crate::specs::Keys::identity_of))]
    pub fn identity(&self) -> [u8; 96]
        ensures { result ≡ identity_of self.now.file self.now.settings }
    {
        identity_in(&self.issue_key(), &self.reply_key())
    }
}
