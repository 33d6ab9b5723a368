//! Who sent a message, and when it says so.
ghost use Rattle.std.specs.Prelude.{◌≡◌, ◌<◌, ◌∷◌, []};
ghost use Rattle.deal_model.specs.Views.{AreTimely};
ghost use Rattle.cmp_values.specs.declared.fail_info.FailInfo.TheVariants.{BadTime};
ghost use Rattle.deal_table.specs.History.{skew_of, standing_for};
ghost use Rattle.deal_table.specs.Table.{◌when◌, is_apart, is_certificate};
ghost use Rattle.deal_rulings.specs.Rulings.{outcome, known_sender, sender_in};

use cmp_values::{FailInfo, Short};
use deal_answers::{founding, standing_of};
use deal_model::{Change, Kind, Owner, Standing, Who};
use deal_table::is_apart;

/// Whether a sender is the holder of a certificate.
pub(crate) fn is_certificate(who: &Who) -> bool
    ensures { result ≡ is_certificate who.now }
{
    match who {
        Who::Cert(_) => true,
        Who::Listed(..) => false,
    }
}

fn known_sender(standing: Standing) -> Result<Owner, FailInfo>
    ensures { result ≡ known_sender standing }
{
    match standing {
        Standing::Unknown => Err(FailInfo::SignerNotTrusted),
        Standing::OtherKind => Err(FailInfo::WrongIntegrity),
        Standing::Barred => Err(FailInfo::NotAuthorized),
        Standing::Good { who, key, rights } => Ok(Owner { who, key, rights }),
    }
}

/// The sender of a message by its credential, or why there is none.
pub(crate) fn sender(
    h: &[Change],
    kind: Option<Kind>,
    kid: &Short,
    t: u64,
) -> Result<Owner, FailInfo>
    requires { AreTimely h.now }
    ensures { result ≡ sender_in kind (standing_for h.now kind kid.now t) }
{
    match kind {
        Some(kind) => known_sender(standing_of(h, kind, kid.as_slice(), t)),
        None => Err(FailInfo::BadAlg),
    }
}

fn skew_of(h: &[Change]) -> u32
    ensures { result ≡ skew_of h.now }
{
    match founding(h) {
        Some(settings) => settings.skew,
        None => 0,
    }
}

/// Whether a message's time, where it stands, is near enough to the event's.
pub(crate) fn time_rows(h: &[Change], t: u64, time: Option<u64>) -> Result<(), FailInfo>
    ensures { result ≡ outcome ((BadTime when is_apart (skew_of h.now) t time) ∷ []) }
{
    if is_apart(skew_of(h), t, time) {
        Err(FailInfo::BadTime)
    } else {
        Ok(())
    }
}
