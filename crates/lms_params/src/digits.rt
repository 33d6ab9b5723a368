// The digits of a string and the checksum over them (RFC 8554, 3.1.3 and 4.4).

ghost use Rattle.std.specs.Prelude.{◌≡◌, ℕ, ◌+◌, ◌-◌, ◌*◌, ◌/◌, ◌%◌, ◌^◌, ◌<◌, ◌≤◌, length, IsTrue};
ghost use Rattle.lms_params.specs.Parameters.{is_width, is_width_and_shift};
ghost use Rattle.lms_params.specs.Digits.{coef_of, checksum_of, with_checksum};

/// Digit `i` of `text`, cut into digits of `w` bits, high bits first (RFC 8554, 3.1.3).
pub fn coef(text: &[u8], i: usize, w: u32) -> u32
    requires width { IsTrue (is_width w) }
    requires within { i < 8 / w * length text.now }
    ensures { result ≡ coef_of text.now i w }
{
    let digits = 8 / w as usize;
    let octet = u32::from(text[i / digits]);
    let place = (i % digits) as u32;
    ((1 << w) - 1) & (octet >> (8 - (w * place + w)))
}

/// The checksum of the hash `q` with digits of `w` bits, shifted left by `ls` (RFC 8554, 4.4).
pub fn checksum(q: &[u8; 32], w: u32, ls: u32) -> u16
    requires { IsTrue (is_width_and_shift w ls) }
    ensures { result ≡ checksum_of q.now w ls }
{
    let greatest = (1u32 << w) - 1;
    let mut sum = 0u32;
    for i in 0..256 / w as usize {
        sum += greatest - coef(q, i, w);
    }
    (sum << ls) as u16
}

/// The hash `q` followed by its checksum, 34 octets: their digits say how far each chain runs
/// (RFC 8554, 4.5).
#[tactic(auto, using(crate::proofs::Octets::two_parts))]
pub fn with_checksum(q: &[u8; 32], w: u32, ls: u32) -> [u8; 34]
    requires { IsTrue (is_width_and_shift w ls) }
    ensures { result ≡ with_checksum q.now w ls }
{
    let mut octets = [0u8; 34];
    octets[..32].copy_from_slice(q);
    octets[32..].copy_from_slice(&checksum(q, w, ls).to_be_bytes());
    octets
}
