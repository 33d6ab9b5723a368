//! Controls of a certificate request.
ghost use Rattle.std.specs.Prelude.{◌≡◌, option_map};
ghost use Rattle.std.specs.Str.{bytes_eq};
ghost use Rattle.der_base.specs.Row.{item_of};
ghost use Rattle.asn_fields.specs.Fields.{Gives};
ghost use Rattle.asn_fields.specs.Rows.{item_at};
ghost use Rattle.asn_types.specs.Template.{tested_at};
ghost use Rattle.asn_parts.specs.Parts.{sole_with};

use asn_fields::{BadForm, sole};
use asn_parts::{general_field, integer_inside};
use asn_types::{GeneralName, OLD_CERT_ID, oid_field};
use der_base::{DerFault, Element, Items, whole};

/// The certificate that a request updates: its issuer and the content of its serial number (RFC 4211, 6.5).
#[derive(Clone, Copy, Debug, PartialEq, Eq)]
pub struct OldCert<'a> {
    pub issuer: GeneralName<'a>,
    pub serial: &'a [u8],
}

/// A control.
#[derive(Clone, Copy, Debug)]
pub(crate) enum Control<'a> {
    OldCert(OldCert<'a>),
    Other(&'a [u8], &'a [u8]),
}

/// Controls: their octets, and the first oldCertID.
#[derive(Clone, Copy, Debug)]
pub(crate) struct Controls<'a> {
    pub octets: &'a [u8],
    pub old: Option<OldCert<'a>>,
}

ghost use Rattle.req_forms.specs.Controls.{old_of, control_of, controls_of, old_at, control_at, controls_at, old_cert_id};

/// Reads what stands in the SEQUENCE of an oldCertID.
#[tactic(auto, unfolding(crate::specs::Controls::old_at))]
fn read_old(bytes: &[u8]) -> Result<OldCert<'_>, BadForm>
    ensures { Gives old_of result (old_at bytes.now) }
{
    let (issuer, rest) = general_field(bytes)?;
    let element = sole(0x02, rest)?;
    let serial = integer_inside(element.content)?;
    Ok(OldCert { issuer, serial })
}

/// Whether an identifier is that of an oldCertID.
#[tactic(auto, unfolding(crate::specs::Controls::old_cert_id))]
fn is_old(oid: &[u8]) -> bool
    ensures { result ≡ bytes_eq oid.now old_cert_id }
{
    oid == OLD_CERT_ID
}

/// Reads what stands in the SEQUENCE of a control.
#[tactic(auto, unfolding(crate::specs::Controls::control_at))]
fn read_control(bytes: &[u8]) -> Result<Control<'_>, BadForm>
    ensures { Gives control_of result (control_at bytes.now) }
{
    let (oid, rest) = oid_field(bytes)?;
    if is_old(oid) {
        let element = sole(0x30, rest)?;
        let old = read_old(element.content)?;
        return Ok(Control::OldCert(old));
    }
    let value = whole(rest)?;
    Ok(Control::Other(oid, value.whole))
}

/// Reads a control.
fn control_item<'a>(item: Result<Element<'a>, DerFault>) -> Result<Control<'a>, BadForm>
    ensures { Gives control_of result (item_at control_at 0x30 (item_of item.entry)) }
{
    let element = item?;
    if element.tag == 0x30 {
        read_control(element.content)
    } else {
        Err(BadForm)
    }
}

/// Reads what stands in the SEQUENCE of controls (RFC 4211, 6). Each of them is read.
#[tactic(auto, unfolding(crate::specs::Controls::controls_at, asn_fields::specs::Rows::entries_at))]
pub(crate) fn controls_inside(octets: &[u8]) -> Result<Controls<'_>, BadForm>
    ensures { Gives controls_of result (controls_at octets.now) }
{
    let mut old = None;
    for item in Items::new(octets) {
        let control = control_item(item)?;
        if let Control::OldCert(found) = control {
            old = old.or(Some(found));
        }
    }
    Ok(Controls { octets, old })
}
