ghost use Rattle.std.specs.Prelude.{◌≡◌, ◌≢◌, ℕ, ◌+◌, ◌*◌, ◌^◌, ◌<◌, ◌≤◌, ◌++◌, ◌↔◌, List, ◌∷◌, length, take, false, IfOk, IsTrue, Ok, Err};
ghost use Rattle.der_base.specs.Element.{IsElement, GoesOn, element, length_octets};
ghost use Rattle.der_base.specs.Reading.{Part, part, part_of, big_endian, more_of, stands_for, begins_with, is_short, is_bad_tag, is_bad_length, element_at, whole_at, Reads};

use crate::fault::DerFault;

/// An element: its tag octet, its content, and all its octets.
#[derive(Clone, Copy, Debug)]
pub struct Element<'a> {
    pub tag: u8,
    pub content: &'a [u8],
    pub whole: &'a [u8],
}

/// How many octets follow the first octet of a length: 0 where it says no number of them that is read.
#[tactic(auto, unfolding(crate::specs::Reading::more_of))]
fn more_of(first: u8) -> usize
    ensures value { result ≡ more_of first }
    ensures bound { result ≤ 4 }
{
    match first {
        0x81 => 1,
        0x82 => 2,
        0x83 => 3,
        0x84 => 4,
        _ => 0,
    }
}

/// The number that at most four octets stand for, the highest first.
#[tactic(auto, unfolding(crate::specs::Reading::big_endian))]
fn number(octets: &[u8]) -> usize
    requires { length octets.now ≤ 4 }
    ensures value { result ≡ big_endian octets.now }
    ensures bound { result < 2 ^ 32 }
{
    match octets {
        [] => 0,
        [a] => usize::from(*a),
        [a, b] => usize::from(*a) * 256 + usize::from(*b),
        [a, b, c] => (usize::from(*a) * 256 + usize::from(*b)) * 256 + usize::from(*c),
        [a, b, c, d, ..] => ((usize::from(*a) * 256 + usize::from(*b)) * 256 + usize::from(*c))
            * 256
            + usize::from(*d),
    }
}

/// What a length stands for, by its first octet and the others.
#[tactic(auto, unfolding(crate::specs::Reading::stands_for))]
fn stands_for(first: u8, more: &[u8]) -> usize
    requires { length more.now ≤ 4 }
    ensures value { result ≡ stands_for first more.now }
    ensures bound { result < 2 ^ 32 }
{
    if first < 128 {
        usize::from(first)
    } else {
        number(more)
    }
}

/// Whether a length has the fewest octets, where `more` are those after its first one, and `size` is what it stands for.
fn is_fewest(first: u8, more: &[u8], size: usize) -> bool
    requires counted { length more.now ≡ more_of first }
    requires stands { size ≡ stands_for first more.now }
    requires bound { size < 2 ^ 32 }
    ensures { (after : List ℕ) → begins_with (first ∷ (more.now ++ after)) (length_octets size) ≡ result }
{
    match more {
        [] => first < 128,
        [high, ..] => size >= 128 && *high > 0,
    }
}

/// Reads the element at the front.
#[tactic(auto, unfolding(crate::specs::Reading::element_at))]
fn split_element(bytes: &[u8]) -> Result<(Element<'_>, &[u8]), DerFault>
    ensures exact { Reads (λ r. (part_of r.0, r.1.now)) result (element_at bytes.now) }
    ensures lengths { IfOk result (λ r.
        (length r.0.whole.now + length r.1.now ≡ length bytes.now) × (length r.0.content.now + 2 ≤ length r.0.whole.now)) }
{
    let [tag, first, rest @ ..] = bytes else {
        return Err(DerFault::Short);
    };
    let more = more_of(*first);
    if rest.len() < more {
        return Err(DerFault::Short);
    }
    let (count, after) = rest.split_at(more);
    let size = stands_for(*first, count);
    if after.len() < size {
        return Err(DerFault::Short);
    }
    if *tag % 32 == 31 {
        return Err(DerFault::BadTag);
    }
    if !is_fewest(*first, count, size) {
        return Err(DerFault::BadLength);
    }
    let (content, after) = after.split_at(size);
    let (whole, _) = bytes.split_at(2 + more + size);
    let element = Element {
        tag: *tag,
        content,
        whole,
    };
    Ok((element, after))
}

/// Reads the element at the front. Returns it and the octets behind it (X.690, 8.1 and 10.1).
pub fn read_element(bytes: &[u8]) -> Result<(Element<'_>, &[u8]), DerFault>
    // What is read is an element, and stands at the front.
    ensures found { IfOk result (λ r.
        IsElement r.0.whole.now r.0.tag r.0.content.now × (bytes.now ≡ r.0.whole.now ++ r.1.now)) }
    // An element at the front is read.
    ensures only { (octets content rest : List ℕ) (tag : ℕ) → IsElement octets tag content
        → bytes.now ≡ octets ++ rest
        → Reads {Y = Part × List ℕ} (λ r. (part_of r.0, r.1.now)) result (Ok (part tag content, rest)) }
    ensures short { (result ≡ Err DerFault.Short) ↔ IsTrue (is_short bytes.now) }
    ensures bad_tag { (result ≡ Err DerFault.BadTag)
        ↔ ((is_short bytes.now ≡ false) × IsTrue (is_bad_tag bytes.now)) }
    ensures bad_length { (result ≡ Err DerFault.BadLength)
        ↔ ((is_short bytes.now ≡ false) × (is_bad_tag bytes.now ≡ false) × IsTrue (is_bad_length bytes.now)) }
    ensures trailing { result ≢ Err DerFault.Trailing }
    ensures exact { Reads (λ r. (part_of r.0, r.1.now)) result (element_at bytes.now) }
    ensures lengths { IfOk result (λ r.
        (length r.0.whole.now + length r.1.now ≡ length bytes.now) × (length r.0.content.now + 2 ≤ length r.0.whole.now)) }
{
    split_element(bytes)
}

/// Reads the element that stands alone: `Trailing` where octets remain behind it.
#[tactic(auto, unfolding(crate::specs::Reading::whole_at))]
fn sole_element(bytes: &[u8]) -> Result<Element<'_>, DerFault>
    ensures exact { Reads part_of result (whole_at bytes.now) }
    ensures lengths { IfOk result (λ e. length e.content.now + 2 ≤ length bytes.now) }
{
    let (element, rest) = read_element(bytes)?;
    if rest.is_empty() {
        Ok(element)
    } else {
        Err(DerFault::Trailing)
    }
}

/// Reads the one element that the octets are. `Trailing` where octets remain behind it.
pub fn whole(bytes: &[u8]) -> Result<Element<'_>, DerFault>
    // What is read is an element, and all the octets.
    ensures found { IfOk result (λ e. IsElement bytes.now e.tag e.content.now × (e.whole.now ≡ bytes.now)) }
    // Octets that are an element are read.
    ensures only { (tag : ℕ) (content : List ℕ) → IsElement bytes.now tag content
        → Reads part_of result (Ok (part tag content)) }
    ensures short { (result ≡ Err DerFault.Short) ↔ IsTrue (is_short bytes.now) }
    ensures bad_tag { (result ≡ Err DerFault.BadTag)
        ↔ ((is_short bytes.now ≡ false) × IsTrue (is_bad_tag bytes.now)) }
    ensures bad_length { (result ≡ Err DerFault.BadLength)
        ↔ ((is_short bytes.now ≡ false) × (is_bad_tag bytes.now ≡ false) × IsTrue (is_bad_length bytes.now)) }
    ensures trailing { (result ≡ Err DerFault.Trailing) ↔ GoesOn bytes.now }
    ensures exact { Reads part_of result (whole_at bytes.now) }
    ensures lengths { IfOk result (λ e. length e.content.now + 2 ≤ length bytes.now) }
{
    sole_element(bytes)
}
