//! Certificate request messages.
ghost use Rattle.std.specs.Prelude.{◌≡◌, ℕ, List, Some, IfOk, option_map, length};
ghost use Rattle.std.specs.List.{list_all};
ghost use Rattle.std.specs.Option.{option_copied};
ghost use Rattle.der_base.specs.Row.{items_of};
ghost use Rattle.asn_fields.specs.Fields.{Gives, optional_with};
ghost use Rattle.asn_fields.specs.Rows.{RowForm};
ghost use Rattle.asn_types.specs.Rows.{passes};
ghost use Rattle.asn_types.specs.Template.{TemplateForm, template_of, template_at, tested_at};
ghost use Rattle.asn_parts.specs.Parts.{required_with};

use crate::controls::{Controls, OldCert, controls_inside};
use crate::possession::{Popo, Possession, proof_field, shown};
use asn_fields::{BadForm, Entry, Row, field, optional, read_row, sole};
use asn_parts::integer_field;
use asn_types::{Template, read_template};
use der_base::Items;

/// A certificate request: the content of certReqId, the template, and the controls where they are there.
#[derive(Clone, Copy, Debug)]
pub(crate) struct Request<'a> {
    pub id: &'a [u8],
    pub template: Template<'a>,
    pub controls: Option<Controls<'a>>,
}

/// A request message: the whole request and what is in it, the proof, and the content of regInfo where it is there.
#[derive(Clone, Copy, Debug)]
pub(crate) struct Message<'a> {
    pub request: &'a [u8],
    pub inside: Request<'a>,
    pub proof: Possession<'a>,
    pub reg_info: Option<&'a [u8]>,
}

/// A certificate request message (RFC 4211, 3): the content of its certReqId, the whole CertRequest, which its proof is over, the
/// template, the first oldCertID of its controls, and the proof of possession.
#[derive(Clone, Copy, Debug, PartialEq, Eq)]
pub struct CrmfReq<'a> {
    pub id: &'a [u8],
    pub request: &'a [u8],
    pub template: Template<'a>,
    pub old: Option<OldCert<'a>>,
    pub popo: Popo<'a>,
}

/// Certificate request messages: how many they are, and the first one. All of them were read.
#[derive(Clone, Copy, Debug, PartialEq, Eq)]
pub struct CrmfList<'a> {
    pub count: u64,
    pub first: Option<CrmfReq<'a>>,
}

ghost use Rattle.req_forms.specs.Controls.{controls_of, controls_at};
ghost use Rattle.req_forms.specs.Requests.{RequestForm, MessageForm, ReqForm, IsCrmf, is_element, are_elements, request_of, message_of, req_of, list_of, shown_of, request_at, request_front_at, message_at, crmf_at};

/// Whether octets are elements, one behind the other.
#[tactic(auto, unfolding(crate::specs::Requests::are_elements))]
pub(crate) fn are_elements(octets: &[u8]) -> bool
    ensures { result ≡ are_elements octets.now }
{
    for item in Items::new(octets) {
        if item.is_err() {
            return false;
        }
    }
    true
}

/// Elements, one behind the other.
#[tactic(auto, unfolding(asn_types::specs::Template::tested_at))]
pub(crate) fn elements_inside(octets: &[u8]) -> Result<&[u8], BadForm>
    ensures { Gives (λ x. x.now) result (tested_at are_elements octets.now) }
{
    if are_elements(octets) {
        Ok(octets)
    } else {
        Err(BadForm)
    }
}

/// A template at the front, and the octets behind it.
fn template_field(bytes: &[u8]) -> Result<(Template<'_>, &[u8]), BadForm>
    ensures { Gives {Y = TemplateForm × List ℕ} (λ r. (template_of r.0, r.1.now)) result (required_with template_at 0x30 bytes.now) }
{
    let (element, rest) = field(0x30, bytes)?;
    let template = read_template(element.content)?;
    Ok((template, rest))
}

/// Controls where they stand at the front, and the octets behind them.
fn controls_field(bytes: &[u8]) -> Result<(Option<Controls<'_>>, &[u8]), BadForm>
    ensures { Gives (λ r. (option_map controls_of r.0, r.1.now)) result (optional_with controls_at 0x30 bytes.now) }
{
    let (element, rest) = optional(0x30, bytes)?;
    match element {
        None => Ok((None, rest)),
        Some(element) => {
            let controls = controls_inside(element.content)?;
            Ok((Some(controls), rest))
        }
    }
}

/// Reads what stands in the SEQUENCE of a CertRequest.
#[tactic(auto, unfolding(crate::specs::Requests::request_at))]
fn request_inside(bytes: &[u8]) -> Result<Request<'_>, BadForm>
    ensures { Gives request_of result (request_at bytes.now) }
{
    let (id, rest) = integer_field(bytes)?;
    let (template, rest) = template_field(rest)?;
    let (controls, rest) = controls_field(rest)?;
    if !rest.is_empty() {
        return Err(BadForm);
    }
    Ok(Request {
        id,
        template,
        controls,
    })
}

/// A CertRequest at the front: its octets, what is in it, and the octets behind it.
#[tactic(auto, unfolding(crate::specs::Requests::request_front_at))]
fn request_field(bytes: &[u8]) -> Result<((&[u8], Request<'_>), &[u8]), BadForm>
    ensures { Gives {Y = (List ℕ × RequestForm) × List ℕ} (λ r. ((r.0.0.now, request_of r.0.1), r.1.now)) result (request_front_at bytes.now) }
{
    let (element, rest) = field(0x30, bytes)?;
    let request = request_inside(element.content)?;
    Ok(((element.whole, request), rest))
}

/// A regInfo where it stands at the front, and the octets behind it.
fn reg_info_field(bytes: &[u8]) -> Result<(Option<&[u8]>, &[u8]), BadForm>
    ensures { Gives (λ r. (option_copied r.0, r.1.now)) result (optional_with (tested_at are_elements) 0x30 bytes.now) }
{
    let (element, rest) = optional(0x30, bytes)?;
    match element {
        None => Ok((None, rest)),
        Some(element) => {
            let octets = elements_inside(element.content)?;
            Ok((Some(octets), rest))
        }
    }
}

/// Reads what stands in the SEQUENCE of a CertReqMsg.
#[tactic(auto, unfolding(crate::specs::Requests::message_at))]
fn message_inside(bytes: &[u8]) -> Result<Message<'_>, BadForm>
    ensures { Gives message_of result (message_at bytes.now) }
{
    let ((request, inside), rest) = request_field(bytes)?;
    let (proof, rest) = proof_field(rest)?;
    let (reg_info, rest) = reg_info_field(rest)?;
    if !rest.is_empty() {
        return Err(BadForm);
    }
    Ok(Message {
        request,
        inside,
        proof,
        reg_info,
    })
}

impl<'a> Entry<'a> for Message<'a> {
    ghost Form = { MessageForm };

    ghost form_of = { message_of };

    ghost reading = { message_at };

    fn read(content: &'a [u8]) -> Result<Self, BadForm> {
        message_inside(content)
    }
}

/// What a list shows of a message.
fn shown_message<'a>(message: &Message<'a>) -> CrmfReq<'a>
    ensures { req_of result ≡ shown_of (message_of message.now) }
{
    CrmfReq {
        id: message.inside.id,
        request: message.request,
        template: message.inside.template,
        old: match message.inside.controls {
            None => None,
            Some(controls) => controls.old,
        },
        popo: shown(&message.proof),
    }
}

/// The list of a row of messages.
#[tactic(auto, unfolding(crate::specs::Requests::crmf_at))]
fn list_alone(bytes: &[u8]) -> Result<CrmfList<'_>, BadForm>
    ensures { Gives list_of result (crmf_at bytes.now) }
{
    let sequence = sole(0x30, bytes)?;
    let row: Row<Message<'_>> = read_row(0x30, sequence.content)?;
    let first = match row.first {
        None => None,
        Some(message) => Some(shown_message(&message)),
    };
    Ok(CrmfList {
        count: row.count,
        first,
    })
}

/// Reads CertReqMessages (RFC 4211, 3), each of them. `BadForm` where the octets are no such list.
pub fn read_crmf(bytes: &[u8]) -> Result<CrmfList<'_>, BadForm>
    // What is read is spelled so.
    ensures found { IfOk result (λ l. IsCrmf bytes.now (list_of l)) }
    // What is spelled so is read.
    ensures only { (list : RowForm ReqForm) → IsCrmf bytes.now list → Gives list_of result (Some list) }
    ensures exact { Gives list_of result (crmf_at bytes.now) }
{
    list_alone(bytes)
}
