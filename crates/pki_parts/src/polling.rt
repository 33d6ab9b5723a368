//! Polling for what is not there yet.
ghost use Rattle.std.specs.Prelude.{◌≡◌, ℕ, ◌≤◌, ◌++◌, List, [], ◌∷◌, length, IfOk, OnOk, Some};
ghost use Rattle.der_base.specs.Element.{element};
ghost use Rattle.der_base.specs.Reading.{part_of};
ghost use Rattle.asn_fields.specs.Fields.{Gives};
ghost use Rattle.asn_fields.specs.Rows.{RowForm, row_of};
ghost use Rattle.asn_parts.specs.Number.{number_octets};
ghost use Rattle.pki_parts.specs.Identifier.{id_octets};
ghost use Rattle.pki_parts.specs.Lists.{IsOne};

use crate::identifier::put_id;
use crate::list::read_list;
use crate::texts::texts_field;
use asn_fields::{BadForm, Entry, Row, sole};
use asn_parts::{integer_field, integer_inside, number};
use cmp_values::Octets;
use der_base::{Element, Writer};
use std::alloc::{AllocError, Global};

/// An entry of a poll: the content of its certReqId.
#[derive(Clone, Copy)]
pub(crate) struct PollId<'a> {
    pub id: &'a [u8],
}

/// A poll (RFC 9810, 5.3.22): for how many requests, and the content of the first certReqId. All of them were read.
#[derive(Clone, Copy, Debug, PartialEq, Eq)]
pub struct PollReq<'a> {
    pub count: u64,
    pub first: Option<&'a [u8]>,
}

/// An entry of the answer to a poll: the contents of certReqId and checkAfter, and of the reason where it is there.
#[derive(Clone, Copy)]
pub(crate) struct PollAnswer<'a> {
    pub id: &'a [u8],
    pub after: &'a [u8],
    pub text: Option<&'a [u8]>,
}

/// When to poll again for a request: the contents of its certReqId and of checkAfter, in seconds.
#[derive(Clone, Copy, Debug, PartialEq, Eq)]
pub struct PollEntry<'a> {
    pub id: &'a [u8],
    pub after: &'a [u8],
}

/// The answer to a poll (RFC 9810, 5.3.22): how many requests are not answered yet, and when to poll again for the first one.
/// All of its entries were read.
#[derive(Clone, Copy, Debug, PartialEq, Eq)]
pub struct PollRep<'a> {
    pub count: u64,
    pub first: Option<PollEntry<'a>>,
}

ghost use Rattle.pki_parts.specs.Polling.{IsPollReq, poll_id_of, poll_req_of, poll_id_at, poll_req_at, poll_req_octets, AnswerForm, PollForm, IsPollRep, answer_of, poll_of, poll_rep_of, shown_of, answer_at, poll_rep_at, poll_rep_octets, written_poll};

impl<'a> Entry<'a> for PollId<'a> {
    ghost Form = { List ℕ };

    ghost form_of = { poll_id_of };

    ghost reading = { poll_id_at };

    fn read(content: &'a [u8]) -> Result<Self, BadForm> {
        let element = sole(0x02, content)?;
        let id = integer_inside(element.content)?;
        Ok(PollId { id })
    }
}

/// Reads a poll by its entries.
fn poll_entries<'a>(e: &Element<'a>) -> Result<PollReq<'a>, BadForm>
    ensures { Gives poll_req_of result (poll_req_at (part_of e.now)) }
{
    let row: Row<PollId<'_>> = read_list(e)?;
    let first = match row.first {
        None => None,
        Some(entry) => Some(entry.id),
    };
    Ok(PollReq {
        count: row.count,
        first,
    })
}

/// Reads a PollReqContent (RFC 9810, 5.3.22), each of its entries. `BadForm` where the element is none.
pub fn read_poll_req<'a>(e: &Element<'a>) -> Result<PollReq<'a>, BadForm>
    // What is read is spelled so.
    ensures found { IfOk result (λ p. IsPollReq (part_of e.now) (poll_req_of p)) }
    // What is spelled so is read.
    ensures only { (poll : RowForm (List ℕ)) → IsPollReq (part_of e.now) poll → Gives poll_req_of result (Some poll) }
    ensures exact { Gives poll_req_of result (poll_req_at (part_of e.now)) }
{
    poll_entries(e)
}

/// Reads what stands in the SEQUENCE of an entry of an answer.
#[tactic(auto, unfolding(crate::specs::Polling::answer_at))]
fn answer_inside(content: &[u8]) -> Result<PollAnswer<'_>, BadForm>
    ensures { Gives answer_of result (answer_at content.now) }
{
    let (id, rest) = integer_field(content)?;
    let (after, rest) = integer_field(rest)?;
    let (text, rest) = texts_field(rest)?;
    if !rest.is_empty() {
        return Err(BadForm);
    }
    Ok(PollAnswer { id, after, text })
}

impl<'a> Entry<'a> for PollAnswer<'a> {
    ghost Form = { AnswerForm };

    ghost form_of = { answer_of };

    ghost reading = { answer_at };

    fn read(content: &'a [u8]) -> Result<Self, BadForm> {
        answer_inside(content)
    }
}

/// What is shown of an entry.
fn shown_entry<'a>(answer: &PollAnswer<'a>) -> PollEntry<'a>
    ensures { poll_of result ≡ shown_of (answer_of answer.now) }
{
    PollEntry {
        id: answer.id,
        after: answer.after,
    }
}

/// Reads an answer by its entries.
#[tactic(auto, unfolding(crate::specs::Polling::poll_rep_at))]
fn answer_entries<'a>(e: &Element<'a>) -> Result<PollRep<'a>, BadForm>
    ensures { Gives poll_rep_of result (poll_rep_at (part_of e.now)) }
{
    let row: Row<PollAnswer<'_>> = read_list(e)?;
    let first = match row.first {
        None => None,
        Some(answer) => Some(shown_entry(&answer)),
    };
    Ok(PollRep {
        count: row.count,
        first,
    })
}

/// Reads a PollRepContent (RFC 9810, 5.3.22), each of its entries. `BadForm` where the element is none.
pub fn read_poll_rep<'a>(e: &Element<'a>) -> Result<PollRep<'a>, BadForm>
    // What is read is spelled so.
    ensures found { IfOk result (λ p. IsPollRep (part_of e.now) (poll_rep_of p)) }
    // What is spelled so is read.
    ensures only { (answer : RowForm PollForm) → IsPollRep (part_of e.now) answer → Gives poll_rep_of result (Some answer) }
    ensures exact { Gives poll_rep_of result (poll_rep_at (part_of e.now)) }
{
    answer_entries(e)
}

/// The octets of a poll.
#[tactic(auto, using(asn_types::proofs::LengthLemmas::short))]
fn poll_req_written(alloc: Global, id: i8) -> Result<Octets, AllocError>
    ensures { IfOk result (λ octets. octets ≡ poll_req_octets id) }
{
    let mut writer = Writer::new(alloc);
    put_id(&mut writer, id)?;
    writer.wrap(0x30, 0)?;
    writer.wrap(0x30, 0)?;
    Ok(Octets::of(writer.finish()))
}

/// Writes a PollReqContent (RFC 9810, 5.3.22) for the request with this certReqId. `AllocError` where memory runs out.
pub fn write_poll_req(alloc: Global, id: i8) -> Result<Octets, AllocError>
    ensures written { IfOk result (λ octets. octets ≡ poll_req_octets id) }
    ensures size { IfOk result (λ octets. length octets ≤ 64) }
    // What is written is read again.
    ensures again { IfOk result (IsOne (λ p. IsPollReq p (row_of (id_octets id ∷ [])))) }
{
    poll_req_written(alloc, id)
}

/// The octets of an answer.
#[tactic(auto, using(asn_types::proofs::LengthLemmas::short))]
fn poll_rep_written(alloc: Global, id: i8, after: u32) -> Result<Octets, AllocError>
    ensures { IfOk result (λ octets. octets ≡ poll_rep_octets id after) }
{
    let mut writer = Writer::new(alloc);
    put_id(&mut writer, id)?;
    writer.put(0x02, number(u64::from(after)).as_slice())?;
    writer.wrap(0x30, 0)?;
    writer.wrap(0x30, 0)?;
    Ok(Octets::of(writer.finish()))
}

/// Writes a PollRepContent (RFC 9810, 5.3.22) for the request with this certReqId, which may be asked for again after so many
/// seconds. `AllocError` where memory runs out.
pub fn write_poll_rep(alloc: Global, id: i8, after: u32) -> Result<Octets, AllocError>
    ensures written { IfOk result (λ octets. octets ≡ poll_rep_octets id after) }
    ensures size { IfOk result (λ octets. length octets ≤ 64) }
    // What is written is read again.
    ensures again { IfOk result (IsOne (λ p. IsPollRep p (row_of (written_poll id after ∷ [])))) }
{
    poll_rep_written(alloc, id, after)
}
