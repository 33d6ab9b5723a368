// Signing by leaves (RFC 8554, 6.2).

ghost use Rattle.std.specs.Prelude.{◌≡◌, ◌<◌, IfOk};
ghost use Rattle.hss_sig.specs.Hss.{HssOk};

use cmp_values::Octets;
use std::alloc::AllocError;

/// A private key whose leaves sign each at most one text (RFC 8554, 9.2). It keeps no count of
/// them: the caller does.
pub trait LeafSigner {
    ghost use Rattle.std.specs.Prelude.{ℕ, List};

    /// The public key.
    ghost key: { Self → List ℕ };

    /// The signature of a text by a leaf.
    ghost signature: { Self → ℕ → List ℕ → List ℕ };

    /// The number of leaves.
    ghost count: { Self → ℕ };

    /// The signature of `text` by a leaf. `AllocError` where memory runs out.
    fn sign_at(&self, leaf: u32, text: &[u8]) -> Result<Octets, AllocError>
        requires { leaf < count self.now }
        ensures signed { IfOk result (λ sig. sig ≡ signature self.now leaf text.now) }
        ensures valid { IfOk result (λ sig. HssOk (key self.now) text.now sig) };

    /// The number of leaves, which count from 0.
    fn leaves(&self) -> u32
        ensures { result ≡ count self.now };

    /// The public key, 60 octets (RFC 8554, 6.1). Takes no memory.
    fn public(&self) -> [u8; 60]
        ensures { result ≡ key self.now };
}
