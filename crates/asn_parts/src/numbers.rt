//! Numbers as the contents of INTEGERs.
ghost use Rattle.std.specs.Prelude.{◌≡◌, ℕ, ◌<◌, ◌≤◌, length, IsTrue};
ghost use Rattle.der_base.specs.Values.{is_integer};
ghost use Rattle.asn_parts.specs.Number.{octets_of, width_of, number_octets};

use cmp_values::Short;

/// How many octets the INTEGER of a number has.
fn width(n: u64) -> usize
    ensures value { result ≡ width_of n }
    ensures bound { (0 < result) × (result ≤ 9) }
{
    if n < 0x80 {
        1
    } else if n < 0x8000 {
        2
    } else if n < 0x80_0000 {
        3
    } else if n < 0x8000_0000 {
        4
    } else if n < 0x80_0000_0000 {
        5
    } else if n < 0x8000_0000_0000 {
        6
    } else if n < 0x80_0000_0000_0000 {
        7
    } else if n < 0x8000_0000_0000_0000 {
        8
    } else {
        9
    }
}

/// Nine octets of a number, the highest first.
fn nine_octets(n: u64) -> [u8; 9]
    ensures { result ≡ octets_of 9 n }
{
    let n1 = n / 256;
    let n2 = n1 / 256;
    let n3 = n2 / 256;
    let n4 = n3 / 256;
    let n5 = n4 / 256;
    let n6 = n5 / 256;
    let n7 = n6 / 256;
    [
        0,
        (n7 % 256) as u8,
        (n6 % 256) as u8,
        (n5 % 256) as u8,
        (n4 % 256) as u8,
        (n3 % 256) as u8,
        (n2 % 256) as u8,
        (n1 % 256) as u8,
        (n % 256) as u8,
    ]
}

/// The last octets of nine, as the INTEGER of a number has them.
#[tactic(auto, unfolding(crate::specs::Number::number_octets))]
fn last_octets(n: u64) -> Short
    ensures value { result ≡ number_octets n }
    ensures size { length result ≤ 9 }
{
    let octets = nine_octets(n);
    Short::of(&octets[9 - width(n)..]).unwrap_or(Short::empty())
}

/// The content of the INTEGER of a number, 1 to 9 octets (X.690, 8.3). Takes no memory.
pub fn number(n: u64) -> Short
    ensures value { result ≡ number_octets n }
    ensures form { IsTrue (is_integer result) }
    ensures size { length result ≤ 9 }
{
    last_octets(n)
}
