//! What a history answers, and which changes may join it.
//!
//! A history is a list of changes. Each answer is a filter or a first match over the whole list, and a change may come next
//! where the table of rules says so. Every layer above keeps these answers in another form, and is held against this one.
#![tactic(auto)]

mod asking;
mod laws;
mod limits;
mod states;

pub use asking::{Ask, Brief, Checked, Echo, Job};
pub use deal_changes::{
    Body4, Change, ChangeFault, Credential, CredentialList, Kind, PublicKey, Settings, Stamp, Who,
    Wish, common_name, is_ca_name, is_spki, is_text, public_key, read_change, write_change,
};
pub use laws::{legal_histories, legal_histories_grow, revoked_stays};
pub use limits::{LATEST_TIME, MOST_CHANGES};
pub use states::{
    CertificateState, DealState, ENROL, HOLD, Key, Key60, Owner, REVOKE, Reason, Standing, VOUCH,
    WRAP,
};
