//! The object identifiers under the names that the crate gives them, and their dotted forms.
ghost use Rattle.std.specs.Prelude.{◌≡◌, [], ◌∷◌};
ghost use Rattle.asn_types.specs.Oids.{dotted};

use crate::{
    AUTHORITY_KEY_IDENTIFIER, BASIC_CONSTRAINTS, CA_CERTS, CERT_REQ_TEMPLATE, COMMON_NAME,
    CONFIRM_WAIT_TIME, EXTENSION_REQUEST, HMAC_SHA256, HSS_LMS, IMPLICIT_CONFIRM, KEY_USAGE,
    OLD_CERT_ID, ORIG_PKI_MESSAGE, PBKDF2, PBMAC1, REASON_CODE, SHA256, SUBJECT_ALT_NAME,
    SUBJECT_KEY_IDENTIFIER,
};

/// Each object identifier of the crate's own names is spelled as its dotted form says (X.690, 8.19).
pub fn oids_are_spelled()
    ensures common_name { COMMON_NAME.now ≡ dotted (2 ∷ 5 ∷ 4 ∷ 3 ∷ []) }
    ensures subject_key_identifier { SUBJECT_KEY_IDENTIFIER.now ≡ dotted (2 ∷ 5 ∷ 29 ∷ 14 ∷ []) }
    ensures key_usage { KEY_USAGE.now ≡ dotted (2 ∷ 5 ∷ 29 ∷ 15 ∷ []) }
    ensures subject_alt_name { SUBJECT_ALT_NAME.now ≡ dotted (2 ∷ 5 ∷ 29 ∷ 17 ∷ []) }
    ensures basic_constraints { BASIC_CONSTRAINTS.now ≡ dotted (2 ∷ 5 ∷ 29 ∷ 19 ∷ []) }
    ensures reason_code { REASON_CODE.now ≡ dotted (2 ∷ 5 ∷ 29 ∷ 21 ∷ []) }
    ensures authority_key_identifier { AUTHORITY_KEY_IDENTIFIER.now ≡ dotted (2 ∷ 5 ∷ 29 ∷ 35 ∷ []) }
    ensures extension_request { EXTENSION_REQUEST.now ≡ dotted (1 ∷ 2 ∷ 840 ∷ 113549 ∷ 1 ∷ 9 ∷ 14 ∷ []) }
    ensures hss_lms { HSS_LMS.now ≡ dotted (1 ∷ 2 ∷ 840 ∷ 113549 ∷ 1 ∷ 9 ∷ 16 ∷ 3 ∷ 17 ∷ []) }
    ensures pbkdf2 { PBKDF2.now ≡ dotted (1 ∷ 2 ∷ 840 ∷ 113549 ∷ 1 ∷ 5 ∷ 12 ∷ []) }
    ensures pbmac1 { PBMAC1.now ≡ dotted (1 ∷ 2 ∷ 840 ∷ 113549 ∷ 1 ∷ 5 ∷ 14 ∷ []) }
    ensures hmac_sha256 { HMAC_SHA256.now ≡ dotted (1 ∷ 2 ∷ 840 ∷ 113549 ∷ 2 ∷ 9 ∷ []) }
    ensures sha256 { SHA256.now ≡ dotted (2 ∷ 16 ∷ 840 ∷ 1 ∷ 101 ∷ 3 ∷ 4 ∷ 2 ∷ 1 ∷ []) }
    ensures old_cert_id { OLD_CERT_ID.now ≡ dotted (1 ∷ 3 ∷ 6 ∷ 1 ∷ 5 ∷ 5 ∷ 7 ∷ 5 ∷ 1 ∷ 5 ∷ []) }
    ensures implicit_confirm { IMPLICIT_CONFIRM.now ≡ dotted (1 ∷ 3 ∷ 6 ∷ 1 ∷ 5 ∷ 5 ∷ 7 ∷ 4 ∷ 13 ∷ []) }
    ensures confirm_wait_time { CONFIRM_WAIT_TIME.now ≡ dotted (1 ∷ 3 ∷ 6 ∷ 1 ∷ 5 ∷ 5 ∷ 7 ∷ 4 ∷ 14 ∷ []) }
    ensures orig_pki_message { ORIG_PKI_MESSAGE.now ≡ dotted (1 ∷ 3 ∷ 6 ∷ 1 ∷ 5 ∷ 5 ∷ 7 ∷ 4 ∷ 15 ∷ []) }
    ensures ca_certs { CA_CERTS.now ≡ dotted (1 ∷ 3 ∷ 6 ∷ 1 ∷ 5 ∷ 5 ∷ 7 ∷ 4 ∷ 17 ∷ []) }
    ensures cert_req_template { CERT_REQ_TEMPLATE.now ≡ dotted (1 ∷ 3 ∷ 6 ∷ 1 ∷ 5 ∷ 5 ∷ 7 ∷ 4 ∷ 19 ∷ []) }
{}
