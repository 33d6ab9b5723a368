//! Wishes, and whether who wishes has the private key (RFC 4211, 4.1, and RFC 2986, 4.2).
ghost use Rattle.std.specs.Prelude.{◌≡◌, ◌↔◌, ◌≤◌, ◌<◌, ◌^◌, ◌++◌, IfOk, IfSome, IsTrue, OnOk, is_some, length, option_map, unwrap_or, [], true};
ghost use Rattle.std.specs.Option.{option_copied};
ghost use Rattle.asn_types.specs.Extension.{extension_of, extension_content};
ghost use Rattle.asn_types.specs.Key.{key_of};
ghost use Rattle.req_forms.specs.Possession.{popo_of};
ghost use Rattle.req_forms.specs.Requests.{list_of};
ghost use Rattle.deal_changes.specs.Spelling.{IsWish};
ghost use Rattle.pki_message.specs.Body.{body_of};
ghost use Rattle.pki_message.specs.Frame.{message_limit};
ghost use Rattle.intake.specs.Holds.{Proves, ProvesFirst, IsProven};
ghost use Rattle.intake.specs.Wishes.{copied_extensions, extension_octets, extensions_in, spki_of};
ghost use Rattle.intake.specs.Told.{asked_wish, FitsAskedKey, FitsAsked};

use crate::bodies::Asked;
use crate::extensions::{alt_name, are_dropped, usage};
use asn_types::{Extension, Spki, write_extension, write_spki};
use cmp_values::Octets;
use deal_changes::Wish;
use hss_sig::hss_ok;
use pki_message::Body;
use req_forms::{CrmfList, Popo};
use std::alloc::{AllocError, Global};

/// Puts an extension as it stands behind octets, where there is one.
fn put_extension(alloc: Global, octets: &mut Octets, x: Option<Extension>) -> Result<(), AllocError>
    requires { IfSome (option_map extension_of x) (λ x. length (extension_content x) < 2 ^ 32) }
    ensures { OnOk result (octets.new ≡ octets.old ++ extension_octets (option_map extension_of x.entry)) }
{
    match x {
        None => Ok(()),
        Some(x) => {
            let written = write_extension(alloc, x.oid, x.critical, x.value)?;
            octets.append(written.as_slice())
        }
    }
}

/// The extensions that are copied of those that are asked for.
fn copied(alloc: Global, exts: Option<&[u8]>) -> Result<Octets, AllocError>
    requires { IfSome (option_copied exts) (λ content. length content ≤ message_limit) }
    ensures { IfOk result (λ octets. octets ≡ copied_extensions (extensions_in (option_copied exts.entry))) }
{
    let mut octets = Octets::empty(alloc);
    put_extension(alloc, &mut octets, usage(exts))?;
    put_extension(alloc, &mut octets, alt_name(exts))?;
    Ok(octets)
}

/// The SubjectPublicKeyInfo of a key; no octets where there is none.
fn spki(alloc: Global, key: &Option<Spki>) -> Result<Octets, AllocError>
    requires { IfSome (option_map key_of key.now) FitsAskedKey }
    ensures { IfOk result (λ octets. octets ≡ spki_of (option_map key_of key.now)) }
{
    match key {
        None => Ok(Octets::empty(alloc)),
        Some(key) => write_spki(alloc, &key.alg, key.key),
    }
}

/// The subject as it stands; no octets where there is none.
fn subject(alloc: Global, name: Option<&[u8]>) -> Result<Octets, AllocError>
    ensures { IfOk result (λ octets. octets ≡ unwrap_or (option_copied name.entry) []) }
{
    match name {
        None => Ok(Octets::empty(alloc)),
        Some(name) => Octets::copy_of(alloc, name),
    }
}

/// The wish for what is asked for.
fn wish_made(alloc: Global, asked: &Asked) -> Result<Wish, AllocError>
    requires { FitsAsked asked.now }
    ensures { IfOk result (λ w. w ≡ asked_wish asked.now) }
{
    let subject = subject(alloc, asked.subject)?;
    let spki = spki(alloc, &asked.key)?;
    let exts = copied(alloc, asked.exts)?;
    Ok(Wish {
        subject,
        spki,
        exts,
        implicit: asked.implicit,
        mods: asked.has_more || are_dropped(asked.exts),
    })
}

/// The wish for what is asked for. `AllocError` where memory runs out.
pub(crate) fn wish(alloc: Global, asked: &Asked) -> Result<Wish, AllocError>
    requires { FitsAsked asked.now }
    ensures made { IfOk result (λ w. w ≡ asked_wish asked.now) }
    // With a key it can be spelled.
    ensures fits { is_some asked.now.key ≡ true → IfOk result IsWish }
{
    wish_made(alloc, asked)
}

/// Whether a proof is a signature over a request, without poposkInput, under the key that it asks for.
fn proves(key: &Option<Spki>, request: &[u8], popo: &Popo) -> bool
    ensures { IsTrue result ↔ Proves (option_map key_of key.now) request.now (popo_of popo.now) }
{
    let Some(key) = key else {
        return false;
    };
    match popo {
        Popo::Signature { input, sig, .. } => { input.is_none() && hss_ok(key.key, request, sig) }
        _ => false,
    }
}

/// Whether the first request of a list has such a proof.
fn first_proves(list: &CrmfList) -> bool
    ensures { IsTrue result ↔ ProvesFirst (list_of list.now).first }
{
    match &list.first {
        None => false,
        Some(r) => proves(&r.template.key, r.request, &r.popo),
    }
}

/// Whether the first request of a body is signed under the key that it asks for. Takes no memory.
pub(crate) fn shows_key(body: &Body) -> bool
    ensures { IsTrue result ↔ IsProven (body_of body.now) }
{
    match body {
        Body::Ir(list) => first_proves(list),
        Body::Cr(list) => first_proves(list),
        Body::Kur(list) => first_proves(list),
        Body::P10cr(p) => hss_ok(p.spki.key, p.info, p.sig),
        _ => false,
    }
}
