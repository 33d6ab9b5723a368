//! Comparing MACs.
ghost use Rattle.std.specs.Prelude.{◌≡◌, ◌↔◌, IsTrue, length};

/// The octets of a MAC of HMAC-SHA-256.
const MAC_OCTETS: usize = 32;

/// The octets in which two MACs differ, all 32 of them combined: 0 where they are the same.
fn difference(mac: &[u8; 32], octets: &[u8]) -> u8
    requires { length octets.now ≡ 32 }
    ensures { (result ≡ 0) ↔ (octets.now ≡ mac.now) }
{
    let mut all = 0u8;
    for i in 0..MAC_OCTETS {
        all |= mac[i] ^ octets[i];
    }
    all
}

/// Whether these octets are this MAC. Goes over all 32 octets, wherever the first difference stands; of another length it answers
/// at once. No clause speaks of time.
pub fn is_mac(mac: &[u8; 32], octets: &[u8]) -> bool
    ensures { IsTrue result ↔ (octets.now ≡ mac.now) }
{
    octets.len() == MAC_OCTETS && difference(mac, octets) == 0
}
