//! The trees of an authority's two keys, and by what it is known.
ghost use Rattle.std.specs.Prelude.{◌≡◌, ◌≢◌, ◌+◌, ◌≤◌, ◌==◌, ◌++◌, true, false, take, drop, length, IfOk, MatchOption, MatchResult};
ghost use Rattle.std.specs.List.{list_all};
ghost use Rattle.hss_sig.specs.OneLevel.{hss_key};
ghost use Rattle.reply_maker.specs.Parts.{HasParts, joined};
ghost use Rattle.reply_maker.specs.Keys.{HasOwnSets, secret_of, issue_secret, reply_secret, identity_in, known_identity, are_blank};

use crate::key_file::{KeyFault, KeyFile, Part};
use deal_answers::{ots_of, tree_of};
use deal_model::Settings;
use hss_sig::{LeafSigner, OneLevel};
use lms_tree::{GrowFault, Set};
use std::alloc::{AllocError, Global};

/// The two keys, each with all nodes of its tree.
#[derive(Drop)]
pub(crate) struct Trees {
    pub(crate) issue: OneLevel,
    pub(crate) reply: OneLevel,
}

/// Grows the tree of a part of a key file, with the sets of a public key.
fn grow(alloc: Global, part: &Part, key: &[u8; 60]) -> Result<OneLevel, AllocError>
    requires { HasOwnSets key.now }
    ensures { IfOk result (λ k. k ≡ secret_of part.now.seed part.now.id key.now) }
{
    let set = Set {
        tree: tree_of(key),
        ots: ots_of(key),
    };
    match OneLevel::grow(alloc, &part.seed, &part.id, set) {
        Ok(key) => Ok(key),
        Err(GrowFault::NoMemory) => Err(AllocError),
        Err(GrowFault::BadSet) => unreachable!(),
    }
}

/// Grows both trees of a key file, with the sets of the settings' keys.
#[tactic(auto, unfolding(crate::specs::Keys::issue_secret, crate::specs::Keys::reply_secret))]
pub(crate) fn grow_both(
    alloc: Global,
    file: &KeyFile,
    settings: &Settings,
) -> Result<Trees, AllocError>
    requires parts { HasParts (joined file.now) file.now }
    requires issue_sets { HasOwnSets settings.now.issue_key }
    requires reply_sets { HasOwnSets settings.now.reply_key }
    ensures issue { IfOk result (λ t. t.issue ≡ issue_secret (joined file.now) settings.now) }
    ensures reply { IfOk result (λ t. t.reply ≡ reply_secret (joined file.now) settings.now) }
{
    Ok(Trees {
        issue: grow(alloc, &file.issue, &settings.issue_key)?,
        reply: grow(alloc, &file.reply, &settings.reply_key)?,
    })
}

/// Writes the identifier and the root of a key at a place.
fn put(identity: &mut [u8; 96], at: usize, key: &[u8])
    requires { at + length key.now ≤ 96 }
    ensures { identity.new ≡ take at identity.old ++ key.now ++ drop (at + length key.now) identity.old }
{
    identity[at..at + key.len()].copy_from_slice(key);
}

/// The identifiers and the roots of two public keys.
pub(crate) fn identity_in(issue: &[u8; 60], reply: &[u8; 60]) -> [u8; 96]
    ensures { result ≡ identity_in issue.now reply.now }
{
    let (_, first) = issue.split_at(12);
    let (_, second) = reply.split_at(12);
    let mut identity = [0u8; 96];
    put(&mut identity, 0, first);
    put(&mut identity, 48, second);
    identity
}

fn are_zeros(octets: &[u8]) -> bool
    ensures { result ≡ list_all (λ n. n == 0) octets.now }
{
    octets.iter().all(|n| *n == 0)
}

/// The identity that the settings have; none where their keys aren't made yet.
#[tactic(auto, unfolding(crate::specs::Keys::known_identity))]
pub(crate) fn known_identity(settings: &Settings) -> Option<[u8; 96]>
    ensures { MatchOption result (are_blank settings.now ≡ true) (λ known. (are_blank settings.now ≡ false) × (known ≡ known_identity settings.now)) }
{
    let known = identity_in(&settings.issue_key, &settings.reply_key);
    if are_zeros(&known) { None } else { Some(known) }
}

/// Whether the trees are those that the settings know, where they know any.
pub(crate) fn compare(trees: &Trees, settings: &Settings) -> Result<(), KeyFault>
    ensures { MatchResult result
        (λ _. are_blank settings.now ≡ false → identity_in (hss_key trees.now.issue) (hss_key trees.now.reply) ≡ known_identity settings.now)
        (λ fault. (are_blank settings.now ≡ false) × (identity_in (hss_key trees.now.issue) (hss_key trees.now.reply) ≢ known_identity settings.now) × (fault ≡ KeyFault.KeyMismatch (identity_in (hss_key trees.now.issue) (hss_key trees.now.reply)) (known_identity settings.now))) }
{
    let Some(journal) = known_identity(settings) else {
        return Ok(());
    };
    let file = identity_in(&trees.issue.public(), &trees.reply.public());
    if file == journal {
        Ok(())
    } else {
        Err(KeyFault::KeyMismatch { file, journal })
    }
}
