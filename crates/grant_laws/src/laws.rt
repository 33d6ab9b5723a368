//! The law, as the contract of a function that does nothing.
ghost use Rattle.grant_laws.specs.Grants.{GrantsOnlyOnProof};

/// The table grants a certificate, or holds a request for one, for nothing but this: a message whose protection verifies over
/// its octets, under the secret or key of a sender that is good at that time, and so does the protection around it, of a sender
/// that may wrap; and either the sender may enrol and possession of the private key is shown, or vouched for by a sender that may
/// vouch; or the message is a pollReq of a sender whose request was held and then released, and is granted as it was held
/// (RFC 9810, 5.1.3, 5.1.3.5, 5.2.8 and 5.3.22; RFC 4211, 4).
pub fn grants_only_on_proof()
    ensures { GrantsOnlyOnProof }
{}
