//! Signs what a leaf was reserved for.
ghost use Rattle.std.specs.Prelude.{◌≡◌, IfOk};
ghost use Rattle.hss_sig.specs.Hss.{HssOk};
ghost use Rattle.hss_sig.specs.OneLevel.{hss_key, hss_signature};

use crate::book::LeafBook;
use crate::warrant::Warrant;
use cmp_ports::Disk;
use cmp_values::Octets;
use hss_sig::LeafSigner;
use std::alloc::AllocError;

impl<D: Disk> LeafBook<D> {
    /// The signature of a reserved text by its leaf (RFC 8554, 6.2); the same at each call. `AllocError` where memory runs out.
    pub fn sign(&self, warrant: &Warrant) -> Result<Octets, AllocError>
        // The warrant is of a book of this key.
        requires { warrant.now.key ≡ hss_key self.now.key }
        ensures signed { IfOk result (λ sig. sig ≡ hss_signature self.now.key warrant.now.leaf warrant.now.text) }
        ensures valid { IfOk result (λ sig. HssOk warrant.now.key warrant.now.text sig) }
    {
        self.key.sign_at(warrant.leaf, warrant.text.as_slice())
    }
}
