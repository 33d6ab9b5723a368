//! Headers, written.
ghost use Rattle.std.specs.Prelude.{◌≡◌, ◌≢◌, ℕ, ◌+◌, ◌%◌, ◌^◌, ◌<◌, ◌≤◌, ◌++◌, [], length, IfOk, OnOk, IfSome};
ghost use Rattle.der_base.specs.Element.{element};
ghost use Rattle.asn_fields.specs.Forms.{optional_spelling};
ghost use Rattle.asn_types.specs.Template.{same};
ghost use Rattle.asn_parts.specs.Number.{number_octets};
ghost use Rattle.pki_header.specs.Header.{explicit_octets};
ghost use Rattle.pki_header.specs.Plan.{planned_content, IsPlanned, field_size, plan_size, FitsPlan, IsHeaderOf};
ghost use Rattle.pki_header.specs.Time.{IsTimeOf};

use asn_parts::number;
use cmp_time::generalized;
use cmp_values::Octets;
use der_base::Writer;
use std::alloc::{AllocError, Global};

/// What a header is to say (RFC 9810, 5.1.1): the sender and the recipient as whole general names, the time as seconds since
/// 1970, the algorithm as a whole AlgorithmIdentifier, and of each other field the content of its OCTET STRING or SEQUENCE.
#[derive(Debug, Drop)]
pub struct HeaderPlan {
    pub pvno: u8,
    pub sender: Octets,
    pub recipient: Octets,
    pub time: Option<u64>,
    pub alg: Option<Octets>,
    pub sender_kid: Option<Octets>,
    pub recip_kid: Option<Octets>,
    pub tid: Option<Octets>,
    pub sender_nonce: Option<Octets>,
    pub recip_nonce: Option<Octets>,
    pub free_text: Option<Octets>,
    pub info: Option<Octets>,
}

/// Puts a field that may be left out: inside this tag an element of the inner one.
#[tactic(auto, using(asn_types::proofs::LengthLemmas::short))]
fn put_explicit(
    writer: &mut Writer,
    tag: u8,
    inner: u8,
    field: &Option<Octets>,
) -> Result<(), AllocError>
    requires low_tag { tag % 32 ≢ 31 }
    requires low_inner { inner % 32 ≢ 31 }
    requires counted { field_size field.now + 8 < 2 ^ 32 }
    ensures { OnOk result (writer.new ≡ writer.old ++ explicit_octets tag inner field.now) }
{
    match field {
        None => Ok(()),
        Some(octets) => {
            let from = writer.len();
            writer.put(inner, octets.as_slice())?;
            writer.wrap(tag, from)
        }
    }
}

/// Puts the algorithm, where there is one.
fn put_algorithm(writer: &mut Writer, field: &Option<Octets>) -> Result<(), AllocError>
    requires { field_size field.now < 2 ^ 32 }
    ensures { OnOk result (writer.new ≡ writer.old ++ optional_spelling 0xA1 same field.now) }
{
    match field {
        None => Ok(()),
        Some(octets) => writer.put(0xa1, octets.as_slice()),
    }
}

/// The text of a time, where there is one.
#[tactic(auto, using(crate::proofs::PlanLemmas::generalized_length))]
fn time_text(alloc: Global, time: Option<u64>) -> Result<Option<Octets>, AllocError>
    requires { IfSome time (λ t. t ≤ 253_402_300_799) }
    ensures timed { IfOk result (λ text. IsTimeOf text time) }
    ensures short { IfOk result (λ text. field_size text < 16) }
{
    match time {
        None => Ok(None),
        Some(t) => {
            let text = generalized(alloc, t)?;
            Ok(Some(Octets::of(text.into_vec())))
        }
    }
}

/// Puts pvno, the sender and the recipient.
#[tactic(auto, using(asn_types::proofs::LengthLemmas::short))]
fn put_names(writer: &mut Writer, plan: &HeaderPlan) -> Result<(), AllocError>
    ensures { OnOk result (writer.new ≡ writer.old ++ (element 0x02 (number_octets plan.now.pvno) ++ (plan.now.sender ++ plan.now.recipient))) }
{
    writer.put(0x02, number(u64::from(plan.pvno)).as_slice())?;
    writer.put_whole(plan.sender.as_slice())?;
    writer.put_whole(plan.recipient.as_slice())
}

/// Puts the fields from the time to the recipient's key identifier.
fn put_keys(writer: &mut Writer, plan: &HeaderPlan, text: &Option<Octets>) -> Result<(), AllocError>
    requires counted { plan_size plan.now + 8 < 2 ^ 32 }
    requires short { field_size text.now < 16 }
    ensures { OnOk result (writer.new ≡ writer.old ++ (explicit_octets 0xA0 0x18 text.now ++ (optional_spelling 0xA1 same plan.now.alg
        ++ (explicit_octets 0xA2 0x04 plan.now.sender_kid ++ explicit_octets 0xA3 0x04 plan.now.recip_kid)))) }
{
    put_explicit(writer, 0xa0, 0x18, text)?;
    put_algorithm(writer, &plan.alg)?;
    put_explicit(writer, 0xa2, 0x04, &plan.sender_kid)?;
    put_explicit(writer, 0xa3, 0x04, &plan.recip_kid)
}

/// Puts the fields from the transaction on.
fn put_rest(writer: &mut Writer, plan: &HeaderPlan) -> Result<(), AllocError>
    requires { plan_size plan.now + 8 < 2 ^ 32 }
    ensures { OnOk result (writer.new ≡ writer.old ++ (explicit_octets 0xA4 0x04 plan.now.tid ++ (explicit_octets 0xA5 0x04 plan.now.sender_nonce
        ++ (explicit_octets 0xA6 0x04 plan.now.recip_nonce ++ (explicit_octets 0xA7 0x30 plan.now.free_text
        ++ explicit_octets 0xA8 0x30 plan.now.info))))) }
{
    put_explicit(writer, 0xa4, 0x04, &plan.tid)?;
    put_explicit(writer, 0xa5, 0x04, &plan.sender_nonce)?;
    put_explicit(writer, 0xa6, 0x04, &plan.recip_nonce)?;
    put_explicit(writer, 0xa7, 0x30, &plan.free_text)?;
    put_explicit(writer, 0xa8, 0x30, &plan.info)
}

/// Puts what stands in the SEQUENCE of a header.
fn put_fields(
    writer: &mut Writer,
    plan: &HeaderPlan,
    text: &Option<Octets>,
) -> Result<(), AllocError>
    requires counted { plan_size plan.now + 8 < 2 ^ 32 }
    requires short { field_size text.now < 16 }
    ensures { OnOk result (writer.new ≡ writer.old ++ planned_content plan.now text.now) }
{
    put_names(writer, plan)?;
    put_keys(writer, plan, text)?;
    put_rest(writer, plan)
}

/// The octets of a header.
fn header_written(alloc: Global, plan: &HeaderPlan) -> Result<Octets, AllocError>
    requires time { IfSome plan.now.time (λ t. t ≤ 253_402_300_799) }
    requires counted { plan_size plan.now + 256 < 2 ^ 32 }
    ensures { IfOk result (IsPlanned plan.now) }
{
    let text = time_text(alloc, plan.time)?;
    let mut writer = Writer::new(alloc);
    put_fields(&mut writer, plan, &text)?;
    writer.wrap(0x30, 0)?;
    Ok(Octets::of(writer.finish()))
}

/// Writes a header (RFC 9810, 5.1.1): the fields of the plan, put in as they stand. `AllocError` where memory runs out.
pub fn write_header(alloc: Global, plan: &HeaderPlan) -> Result<Octets, AllocError>
    requires time { IfSome plan.now.time (λ t. t ≤ 253_402_300_799) }
    requires counted { plan_size plan.now + 256 < 2 ^ 32 }
    ensures written { IfOk result (IsPlanned plan.now) }
    ensures size { IfOk result (λ octets. length octets ≤ plan_size plan.now + 256) }
    // What is written of parts that have the forms of their types is a header, which is read again with the plan's fields.
    ensures again { FitsPlan plan.now → IfOk result (IsHeaderOf plan.now) }
{
    header_written(alloc, plan)
}
