//! The reasons of refusal.

use crate::FailInfo;

/// The bits and names that RFC 9810, 5.2.3, gives, without those of its seven reasons that have no name here.
const REASONS: &[(u8, &[u8])] = &[
    (0, b"badAlg"),
    (1, b"badMessageCheck"),
    (2, b"badRequest"),
    (3, b"badTime"),
    (4, b"badCertId"),
    (5, b"badDataFormat"),
    (9, b"badPOP"),
    (10, b"certRevoked"),
    (11, b"certConfirmed"),
    (12, b"wrongIntegrity"),
    (13, b"badRecipientNonce"),
    (18, b"badSenderNonce"),
    (19, b"badCertTemplate"),
    (20, b"signerNotTrusted"),
    (21, b"transactionIdInUse"),
    (22, b"unsupportedVersion"),
    (23, b"notAuthorized"),
    (24, b"systemUnavail"),
    (25, b"systemFailure"),
    (26, b"duplicateCertReq"),
];

#[test]
fn each_reason_has_the_name_of_its_bit(rt: HostRuntime) {
    for (bit, name) in REASONS {
        let fail = FailInfo::of_bit(*bit);
        assert_eq!(rt; fail.map(FailInfo::name), Some(*name), "{bit}");
        assert_eq!(rt; fail.map(FailInfo::bit), Some(*bit), "{bit}");
    }
}
