//! The signed parts of certificates.
ghost use Rattle.std.specs.Prelude.{◌≡◌, ℕ, ◌+◌, ◌^◌, ◌<◌, ◌≤◌, length, IfOk};
ghost use Rattle.cert_maker.specs.Certificates.{plan_octets};

use cmp_values::Octets;
use std::alloc::{AllocError, Global};
use x509_cert::{CertPlan, write_tbs};

/// Writes the signed part of the certificate of a plan (RFC 5280, 4.1.2), as `write_tbs` does. The octets are a function of the
/// plan. `AllocError` where memory runs out.
pub fn tbs_of_plan(alloc: Global, plan: &CertPlan) -> Result<Octets, AllocError>
    requires begins { plan.now.not_before ≤ 253_402_300_799 }
    requires ends { plan.now.not_after ≤ 253_402_300_799 }
    requires counted { length plan.now.issuer + length plan.now.subject + length plan.now.spki + length plan.now.exts + 128 < 2 ^ 32 }
    ensures written { IfOk result (λ octets. octets ≡ plan_octets plan.now) }
    ensures short { IfOk result (λ octets. length octets ≤ length plan.now.issuer + length plan.now.subject + length plan.now.spki + length plan.now.exts + 128) }
{
    write_tbs(alloc, plan)
}
