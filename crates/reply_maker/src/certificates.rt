//! The certificates that an authority has of its own keys.
ghost use Rattle.std.specs.Prelude.{◌≡◌, ◌<◌, ◌≤◌, IfOk};
ghost use Rattle.hss_sig.specs.OneLevel.{leaf_count};
ghost use Rattle.reply_maker.specs.Certificates.{root_of, reply_of};
ghost use Rattle.reply_maker.specs.Keys.{AreShort};

use cert_maker::{cert_of_plan, reply_plan, root_plan};
use cmp_ports::Octets;
use deal_model::Settings;
use desk::brief_of;
use hss_sig::OneLevel;
use std::alloc::{AllocError, Global};

/// The authority's own certificate, and that of the key that signs replies.
#[derive(Drop)]
pub(crate) struct OwnCertificates {
    pub(crate) root: Octets,
    pub(crate) reply: Octets,
}

/// Signs both certificates, the authority's own by leaf 0, and that of its replies by leaf 1.
pub(crate) fn certificates(
    alloc: Global,
    issue: &OneLevel,
    settings: &Settings,
) -> Result<OwnCertificates, AllocError>
    requires leaves { 1 < leaf_count issue.now.tree }
    requires time { settings.now.time ≤ 250_000_000_000 }
    ensures root { IfOk result (λ c. c.root ≡ root_of issue.now settings.now) }
    ensures reply { IfOk result (λ c. c.reply ≡ reply_of issue.now settings.now) }
    ensures short { IfOk result AreShort }
{
    let brief = brief_of(settings);
    let root = root_plan(alloc, &brief, settings.time)?;
    let reply = reply_plan(alloc, &brief, settings.time)?;
    Ok(OwnCertificates {
        root: cert_of_plan(alloc, issue, 0, &root)?,
        reply: cert_of_plan(alloc, issue, 1, &reply)?,
    })
}
