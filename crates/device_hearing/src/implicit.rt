//! Whether a reply grants implicit confirmation.
ghost use Rattle.std.specs.Prelude.{◌≡◌, false};
ghost use Rattle.std.specs.Option.{option_copied};
ghost use Rattle.der_base.specs.Row.{item_of};
ghost use Rattle.asn_fields.specs.Fields.{Gives};
ghost use Rattle.asn_fields.specs.Rows.{item_at, entries_at};
ghost use Rattle.asn_types.specs.Algorithm.{algorithm_of, algorithm_at};
ghost use Rattle.intake.specs.Headers.{is_implicit_confirm, asks_implicit};
ghost use Rattle.intake.specs.Told.{any_in};

use asn_fields::BadForm;
use asn_types::{AlgorithmId, IMPLICIT_CONFIRM, read_alg};
use der_base::{DerFault, Element, Items};

/// NULL, whole.
const NULL: &[u8] = &[5, 0];

/// Whether an information is implicitConfirm. It is read like an algorithm: an identifier, and a value of any form.
fn is_implicit_confirm(info: &AlgorithmId) -> bool
    ensures { result ≡ is_implicit_confirm (algorithm_of info.now) }
{
    info.oid == IMPLICIT_CONFIRM && info.params.unwrap_or(&[]) == NULL
}

/// Reads an information.
fn info_item<'a>(item: Result<Element<'a>, DerFault>) -> Result<AlgorithmId<'a>, BadForm>
    ensures { Gives algorithm_of result (item_at algorithm_at 0x30 (item_of item.entry)) }
{
    let element = item?;
    read_alg(&element)
}

/// Whether implicitConfirm is in a row of informations; not where one of them can't be read.
#[tactic(auto, unfolding(asn_fields::specs::Rows::entries_at))]
fn has_implicit(content: &[u8]) -> bool
    ensures { result ≡ any_in is_implicit_confirm false (entries_at algorithm_at 0x30 content.now) }
{
    let mut found = false;
    for item in Items::new(content) {
        let Ok(info) = info_item(item) else {
            return false;
        };
        found = found || is_implicit_confirm(&info);
    }
    found
}

/// Whether the general information of a header has implicitConfirm (RFC 9810, 5.1.1.1).
#[tactic(auto, using(intake::proofs::Found::any_read))]
pub(crate) fn is_implicit(info: Option<&[u8]>) -> bool
    ensures { result ≡ asks_implicit (option_copied info.entry) }
{
    match info {
        None => false,
        Some(content) => has_implicit(content),
    }
}
