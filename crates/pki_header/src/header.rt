//! Headers, read.
ghost use Rattle.std.specs.Prelude.{◌≡◌, ◌==◌, ℕ, List, Option, IfOk, Some, option_map, if◌then◌else◌};
ghost use Rattle.std.specs.List.{list_all};
ghost use Rattle.std.specs.Option.{option_copied};
ghost use Rattle.der_base.specs.Reading.{part_of};
ghost use Rattle.der_base.specs.Row.{items_of};
ghost use Rattle.asn_fields.specs.Fields.{Gives, optional_with};
ghost use Rattle.asn_types.specs.Algorithm.{Algorithm, algorithm_of, algorithm_at};
ghost use Rattle.asn_types.specs.Rows.{passes};
ghost use Rattle.asn_types.specs.Template.{tested_at, anything_at};
ghost use Rattle.asn_parts.specs.Parts.{sole_with};
ghost use Rattle.pki_header.specs.Header.{HeadForm, FitsHead, head_content, explicit_at, head_at};
ghost use Rattle.pki_header.specs.Rows.{is_text, is_free_text, is_info, is_general_info};
ghost use Rattle.pki_header.specs.Time.{IsTimeOf};

use asn_fields::{BadForm, optional, sole};
use asn_parts::{general_field, integer_field};
use asn_types::{AlgorithmId, GeneralName, read_alg};
use cmp_time::read_generalized;
use der_base::{Element, Items, utf8};

/// The header of a message, whose octets it borrows (RFC 9810, 5.1.1): the content of pvno, the general names, and of the
/// fields that are there the content inside the tag; of freeText and generalInfo it is that of their SEQUENCE. The time is
/// there as its text and as seconds since 1970.
#[derive(Clone, Copy, Debug)]
pub struct Header<'a> {
    pub pvno: &'a [u8],
    pub sender: GeneralName<'a>,
    pub recipient: GeneralName<'a>,
    pub time_text: Option<&'a [u8]>,
    pub time: Option<u64>,
    pub alg: Option<AlgorithmId<'a>>,
    pub sender_kid: Option<&'a [u8]>,
    pub recip_kid: Option<&'a [u8]>,
    pub tid: Option<&'a [u8]>,
    pub sender_nonce: Option<&'a [u8]>,
    pub recip_nonce: Option<&'a [u8]>,
    pub free_text: Option<&'a [u8]>,
    pub info: Option<&'a [u8]>,
}

/// What stands in a header, its time not looked into.
#[derive(Clone, Copy)]
struct Fields<'a> {
    pvno: &'a [u8],
    sender: GeneralName<'a>,
    recipient: GeneralName<'a>,
    time: Option<&'a [u8]>,
    alg: Option<AlgorithmId<'a>>,
    sender_kid: Option<&'a [u8]>,
    recip_kid: Option<&'a [u8]>,
    tid: Option<&'a [u8]>,
    sender_nonce: Option<&'a [u8]>,
    recip_nonce: Option<&'a [u8]>,
    free_text: Option<&'a [u8]>,
    info: Option<&'a [u8]>,
}

ghost use Rattle.pki_header.specs.Header.{fields_of, head_of, timed_of};

/// A field with this tag where one stands there, read inside by a reader, and the octets behind it.
macro_rules! field_inside {
    ($tag:expr, $bytes:expr, $read:path) => {{
        let (element, rest) = optional($tag, $bytes)?;
        match element {
            None => Ok((None, rest)),
            Some(element) => {
                let value = $read(element.content)?;
                Ok((Some(value), rest))
            }
        }
    }};
}

/// The content of the one element that the octets are, which has this tag.
#[tactic(auto, unfolding(asn_types::specs::Template::anything_at))]
fn content_alone(tag: u8, bytes: &[u8]) -> Result<&[u8], BadForm>
    ensures { Gives (λ octets. octets.now) result (sole_with anything_at tag bytes.now) }
{
    let element = sole(tag, bytes)?;
    Ok(element.content)
}

/// The content of an element of the inner tag inside this one, where one stands there, and the octets behind it.
fn content_field(tag: u8, inner: u8, bytes: &[u8]) -> Result<(Option<&[u8]>, &[u8]), BadForm>
    ensures { Gives {Y = Option (List ℕ) × List ℕ} (λ r. (option_copied r.0, r.1.now)) result (explicit_at anything_at tag inner bytes.now) }
{
    let (element, rest) = optional(tag, bytes)?;
    match element {
        None => Ok((None, rest)),
        Some(element) => {
            let octets = content_alone(inner, element.content)?;
            Ok((Some(octets), rest))
        }
    }
}

/// An algorithm, by what stands in its SEQUENCE.
fn algorithm_inside(content: &[u8]) -> Result<AlgorithmId<'_>, BadForm>
    ensures { Gives algorithm_of result (algorithm_at content.now) }
{
    read_alg(&Element {
        tag: 0x30,
        content,
        whole: content,
    })
}

/// The one algorithm that the octets are.
fn algorithm_alone(bytes: &[u8]) -> Result<AlgorithmId<'_>, BadForm>
    ensures { Gives algorithm_of result (sole_with algorithm_at 0x30 bytes.now) }
{
    let element = sole(0x30, bytes)?;
    algorithm_inside(element.content)
}

fn algorithm_field(bytes: &[u8]) -> Result<(Option<AlgorithmId<'_>>, &[u8]), BadForm>
    ensures { Gives {Y = Option Algorithm × List ℕ} (λ r. (option_map algorithm_of r.0, r.1.now)) result (optional_with (sole_with algorithm_at 0x30) 0xA1 bytes.now) }
{
    field_inside!(0xa1, bytes, algorithm_alone)
}

/// Whether an element is a text.
#[tactic(auto, unfolding(crate::specs::Rows::is_text))]
fn is_text(e: &Element) -> bool
    ensures { result ≡ is_text (part_of e.now) }
{
    utf8(e).is_ok()
}

/// Whether a content is a row of texts.
fn are_texts(content: &[u8]) -> bool
    ensures { result ≡ list_all (passes is_text) (items_of content.now) }
{
    for item in Items::new(content) {
        let Ok(p) = item else {
            return false;
        };
        if !is_text(&p) {
            return false;
        }
    }
    true
}

/// A row of texts, not empty.
#[tactic(auto, unfolding(crate::specs::Rows::is_free_text, asn_types::specs::Template::tested_at))]
fn free_text_inside(content: &[u8]) -> Result<&[u8], BadForm>
    ensures { Gives (λ octets. octets.now) result (tested_at is_free_text content.now) }
{
    if content.is_empty() || !are_texts(content) {
        return Err(BadForm);
    }
    Ok(content)
}

/// The one SEQUENCE of texts that the octets are.
fn free_text_alone(bytes: &[u8]) -> Result<&[u8], BadForm>
    ensures { Gives (λ octets. octets.now) result (sole_with (tested_at is_free_text) 0x30 bytes.now) }
{
    let element = sole(0x30, bytes)?;
    free_text_inside(element.content)
}

fn free_text_field(bytes: &[u8]) -> Result<(Option<&[u8]>, &[u8]), BadForm>
    ensures { Gives {Y = Option (List ℕ) × List ℕ} (λ r. (option_copied r.0, r.1.now)) result (explicit_at (tested_at is_free_text) 0xA7 0x30 bytes.now) }
{
    field_inside!(0xa7, bytes, free_text_alone)
}

/// Whether an element is general information: an object identifier and a value.
#[tactic(auto, unfolding(crate::specs::Rows::is_info))]
fn is_info(e: &Element) -> bool
    ensures { result ≡ is_info (part_of e.now) }
{
    read_alg(e).is_ok()
}

/// Whether a content is a row of general information (RFC 9810, 5.1.1): elements that each have an object identifier and may
/// have a value of any form, nothing over.
pub fn are_infos(content: &[u8]) -> bool
    ensures { result ≡ list_all (passes is_info) (items_of content.now) }
{
    for item in Items::new(content) {
        let Ok(p) = item else {
            return false;
        };
        if !is_info(&p) {
            return false;
        }
    }
    true
}

/// A row of general information, not empty.
#[tactic(auto, unfolding(crate::specs::Rows::is_general_info, asn_types::specs::Template::tested_at))]
fn info_inside(content: &[u8]) -> Result<&[u8], BadForm>
    ensures { Gives (λ octets. octets.now) result (tested_at is_general_info content.now) }
{
    if content.is_empty() || !are_infos(content) {
        return Err(BadForm);
    }
    Ok(content)
}

/// The one SEQUENCE of general information that the octets are.
fn info_alone(bytes: &[u8]) -> Result<&[u8], BadForm>
    ensures { Gives (λ octets. octets.now) result (sole_with (tested_at is_general_info) 0x30 bytes.now) }
{
    let element = sole(0x30, bytes)?;
    info_inside(element.content)
}

fn info_field(bytes: &[u8]) -> Result<(Option<&[u8]>, &[u8]), BadForm>
    ensures { Gives {Y = Option (List ℕ) × List ℕ} (λ r. (option_copied r.0, r.1.now)) result (explicit_at (tested_at is_general_info) 0xA8 0x30 bytes.now) }
{
    field_inside!(0xa8, bytes, info_alone)
}

/// Reads what stands in the SEQUENCE of a header, its time not looked into.
#[tactic(auto, unfolding(crate::specs::Header::head_at))]
fn read_fields(content: &[u8]) -> Result<Fields<'_>, BadForm>
    ensures { Gives fields_of result (head_at content.now) }
{
    let (pvno, rest) = integer_field(content)?;
    let (sender, rest) = general_field(rest)?;
    let (recipient, rest) = general_field(rest)?;
    let (time, rest) = content_field(0xa0, 0x18, rest)?;
    let (alg, rest) = algorithm_field(rest)?;
    let (sender_kid, rest) = content_field(0xa2, 0x04, rest)?;
    let (recip_kid, rest) = content_field(0xa3, 0x04, rest)?;
    let (tid, rest) = content_field(0xa4, 0x04, rest)?;
    let (sender_nonce, rest) = content_field(0xa5, 0x04, rest)?;
    let (recip_nonce, rest) = content_field(0xa6, 0x04, rest)?;
    let (free_text, rest) = free_text_field(rest)?;
    let (info, rest) = info_field(rest)?;
    if !rest.is_empty() {
        return Err(BadForm);
    }
    Ok(Fields {
        pvno,
        sender,
        recipient,
        time,
        alg,
        sender_kid,
        recip_kid,
        tid,
        sender_nonce,
        recip_nonce,
        free_text,
        info,
    })
}

/// Reads a time that may be left out.
fn read_time(text: Option<&[u8]>) -> Result<Option<u64>, BadForm>
    ensures found { IfOk result (λ t. IsTimeOf (option_copied text.entry) t) }
    ensures only { (t : Option ℕ) → IsTimeOf (option_copied text.entry) t → result ≡ Ok t }
{
    match text {
        None => Ok(None),
        Some(text) => match read_generalized(text) {
            Some(t) => Ok(Some(t)),
            None => Err(BadForm),
        },
    }
}

/// A header of these fields, where its time is one.
fn timed<'a>(fields: &Fields<'a>) -> Result<Header<'a>, BadForm>
    ensures shown { IfOk result (λ h. head_of h ≡ fields_of fields.now) }
    ensures time { IfOk result (λ h. IsTimeOf (option_copied h.time_text) h.time) }
    ensures only { (t : Option ℕ) → IsTimeOf (option_copied fields.now.time) t
        → Gives {Y = HeadForm × Option ℕ} timed_of result (Some (fields_of fields.now, t)) }
{
    let time = read_time(fields.time)?;
    Ok(Header {
        pvno: fields.pvno,
        sender: fields.sender,
        recipient: fields.recipient,
        time_text: fields.time,
        time,
        alg: fields.alg,
        sender_kid: fields.sender_kid,
        recip_kid: fields.recip_kid,
        tid: fields.tid,
        sender_nonce: fields.sender_nonce,
        recip_nonce: fields.recip_nonce,
        free_text: fields.free_text,
        info: fields.info,
    })
}

/// Reads what stands in the SEQUENCE of a header.
fn timed_header(content: &[u8]) -> Result<Header<'_>, BadForm>
    ensures took { IfOk result (λ h. head_at content.now ≡ Some (head_of h)) }
    ensures time { IfOk result (λ h. IsTimeOf (option_copied h.time_text) h.time) }
    ensures only { (f : HeadForm) (t : Option ℕ) → head_at content.now ≡ Some f → IsTimeOf f.time t
        → Gives {Y = HeadForm × Option ℕ} timed_of result (Some (f, t)) }
{
    let fields = read_fields(content)?;
    timed(&fields)
}

/// Reads an element that is a header.
fn header_element<'a>(e: &Element<'a>) -> Result<Header<'a>, BadForm>
    ensures took { IfOk result (λ h. (e.now.tag ≡ 0x30) × (head_at e.now.content.now ≡ Some (head_of h))) }
    ensures time { IfOk result (λ h. IsTimeOf (option_copied h.time_text) h.time) }
    ensures only { (f : HeadForm) (t : Option ℕ) → e.now.tag ≡ 0x30 → head_at e.now.content.now ≡ Some f → IsTimeOf f.time t
        → Gives {Y = HeadForm × Option ℕ} timed_of result (Some (f, t)) }
{
    if e.tag == 0x30 {
        timed_header(e.content)
    } else {
        Err(BadForm)
    }
}

/// Reads a header (RFC 9810, 5.1.1): its fields in their order, nothing over. `BadForm` where the element is none.
pub fn read_header<'a>(e: &Element<'a>) -> Result<Header<'a>, BadForm>
    // What is read is a SEQUENCE, and spelled so.
    ensures found { IfOk result (λ h. (e.now.tag ≡ 0x30) × FitsHead (head_of h) × (e.now.content.now ≡ head_content (head_of h))) }
    // The second is that of the text.
    ensures time { IfOk result (λ h. IsTimeOf (option_copied h.time_text) h.time) }
    // What is spelled so is read.
    ensures only { (f : HeadForm) (t : Option ℕ) → e.now.tag ≡ 0x30 → FitsHead f → IsTimeOf f.time t
        → e.now.content.now ≡ head_content f → Gives {Y = HeadForm × Option ℕ} timed_of result (Some (f, t)) }
{
    header_element(e)
}
