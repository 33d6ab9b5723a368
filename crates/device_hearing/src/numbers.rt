//! The numbers that INTEGERs stand for.
ghost use Rattle.std.specs.Prelude.{◌≡◌, ◌^◌, Option, Some, None, nat_lt, if◌then◌else◌};
ghost use Rattle.der_base.specs.Reading.{big_endian};
ghost use Rattle.intake.specs.Values.{number_in};

/// The number that octets stand for, the highest first, where it is below 2^64.
#[tactic(auto, unfolding(der_base::specs::Reading::big_endian))]
fn unsigned(octets: &[u8]) -> Option<u64>
    ensures { result ≡ (if nat_lt (big_endian octets.now) (2 ^ 64) then Some (big_endian octets.now) else None) }
{
    let mut n = 0u64;
    for b in octets {
        if n >= 0x100_0000_0000_0000 {
            return None;
        }
        n = n * 256 + u64::from(*b);
    }
    Some(n)
}

/// The number that an INTEGER's content stands for, where it is at least 0 and below 2^64 (X.690, 8.3).
#[tactic(auto, unfolding(intake::specs::Values::number_in))]
pub(crate) fn number(content: &[u8]) -> Option<u64>
    ensures { result ≡ number_in content.now }
{
    match content {
        [first, ..] if *first >= 128 => None,
        _ => unsigned(content),
    }
}
