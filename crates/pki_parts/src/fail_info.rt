//! The reasons in a failInfo.
ghost use Rattle.std.specs.Prelude.{◌≡◌, ◌↔◌, Some, IsTrue};
ghost use Rattle.der_base.specs.Values.{bit_string_of};
ghost use Rattle.cmp_values.specs.declared.fail_info.FailInfo.{FailInfo};
ghost use Rattle.cmp_values.specs.Reasons.{bit_of};
ghost use Rattle.pki_parts.specs.FailInfo.{is_set, IsFirst};

use cmp_values::FailInfo;
use der_base::Bits;

/// The reason of the lowest bit that is set and has a name. `None` where no such bit is set.
pub fn first_reason(bits: &Bits) -> Option<FailInfo>
    ensures { IsFirst (bit_string_of bits.now) result }
{
    for bit in 0..27 {
        if let Some(fail) = reason_at(bits, bit) {
            return Some(fail);
        }
    }
    None
}

/// Whether the bit of a number is there and set.
fn is_set(bits: &Bits, bit: u8) -> bool
    ensures { result ≡ is_set (bit_string_of bits.now) bit }
{
    match bits.octets.get(usize::from(bit / 8)) {
        None => false,
        Some(octet) => *octet / 2u8.pow(u32::from(7 - bit % 8)) % 2 == 1,
    }
}

/// The reason of a bit, where it has one and is set.
fn reason_at(bits: &Bits, bit: u8) -> Option<FailInfo>
    ensures { (fail : FailInfo) → (result ≡ Some fail) ↔ ((bit_of fail ≡ bit) × IsTrue (is_set (bit_string_of bits.now) bit)) }
{
    if is_set(bits, bit) {
        FailInfo::of_bit(bit)
    } else {
        None
    }
}
