//! Why a request is refused.
ghost use Rattle.std.specs.Prelude.{◌≡◌, ◌<◌, ◌↔◌, Some};
ghost use Rattle.cmp_values.specs.declared.fail_info.FailInfo.{FailInfo};

/// A reason of refusal: of PKIFailureInfo (RFC 9810, 5.2.3) the twenty that are written, and that have a name where they are
/// read.
#[derive(Clone, Copy, Debug, PartialEq, Eq)]
pub enum FailInfo {
    /// An algorithm that isn't known or isn't served.
    BadAlg,
    /// The protection is absent, or isn't the one of the message.
    BadMessageCheck,
    /// The request isn't allowed, or isn't served.
    BadRequest,
    /// The messageTime is too far from the service's time.
    BadTime,
    /// No certificate is the one that the request names.
    BadCertId,
    /// The message isn't in form.
    BadDataFormat,
    /// The proof of possession of the private key fails.
    BadPop,
    /// The certificate is revoked already.
    CertRevoked,
    /// The certificate is confirmed already.
    CertConfirmed,
    /// The protection is of the other kind than the sender's credential.
    WrongIntegrity,
    /// The recipNonce isn't the senderNonce of the last reply.
    BadRecipientNonce,
    /// The senderNonce is absent or of a wrong length.
    BadSenderNonce,
    /// The certificate that is asked for can't be given so.
    BadCertTemplate,
    /// Nobody is known who could have protected the message.
    SignerNotTrusted,
    /// The transactionID is used already.
    TransactionIdInUse,
    /// The version isn't served.
    UnsupportedVersion,
    /// The sender may not do this.
    NotAuthorized,
    /// The service has no room or no leaf left.
    SystemUnavail,
    /// A device of the service failed.
    SystemFailure,
    /// The key is certified or listed already.
    DuplicateCertReq,
}

ghost use Rattle.cmp_values.specs.Reasons.{bit_of, name_of};

impl FailInfo {
    /// The number of its bit, counted from the highest of the first octet.
    pub fn bit(self) -> u8
        ensures value { result ≡ bit_of self }
        ensures bound { result < 32 }
    {
        match self {
            FailInfo::BadAlg => 0,
            FailInfo::BadMessageCheck => 1,
            FailInfo::BadRequest => 2,
            FailInfo::BadTime => 3,
            FailInfo::BadCertId => 4,
            FailInfo::BadDataFormat => 5,
            FailInfo::BadPop => 9,
            FailInfo::CertRevoked => 10,
            FailInfo::CertConfirmed => 11,
            FailInfo::WrongIntegrity => 12,
            FailInfo::BadRecipientNonce => 13,
            FailInfo::BadSenderNonce => 18,
            FailInfo::BadCertTemplate => 19,
            FailInfo::SignerNotTrusted => 20,
            FailInfo::TransactionIdInUse => 21,
            FailInfo::UnsupportedVersion => 22,
            FailInfo::NotAuthorized => 23,
            FailInfo::SystemUnavail => 24,
            FailInfo::SystemFailure => 25,
            FailInfo::DuplicateCertReq => 26,
        }
    }

    /// The reason of a bit. `None` for a bit that has no name here.
    pub fn of_bit(bit: u8) -> Option<FailInfo>
        ensures { (fail : FailInfo) → (result ≡ Some fail) ↔ (bit_of fail ≡ bit) }
    {
        match bit {
            0 => Some(FailInfo::BadAlg),
            1 => Some(FailInfo::BadMessageCheck),
            2 => Some(FailInfo::BadRequest),
            3 => Some(FailInfo::BadTime),
            4 => Some(FailInfo::BadCertId),
            5 => Some(FailInfo::BadDataFormat),
            9 => Some(FailInfo::BadPop),
            10 => Some(FailInfo::CertRevoked),
            11 => Some(FailInfo::CertConfirmed),
            12 => Some(FailInfo::WrongIntegrity),
            13 => Some(FailInfo::BadRecipientNonce),
            18 => Some(FailInfo::BadSenderNonce),
            19 => Some(FailInfo::BadCertTemplate),
            20 => Some(FailInfo::SignerNotTrusted),
            21 => Some(FailInfo::TransactionIdInUse),
            22 => Some(FailInfo::UnsupportedVersion),
            23 => Some(FailInfo::NotAuthorized),
            24 => Some(FailInfo::SystemUnavail),
            25 => Some(FailInfo::SystemFailure),
            26 => Some(FailInfo::DuplicateCertReq),
            _ => None,
        }
    }

    /// Its name, in ASCII.
    pub fn name(self) -> &'static [u8]
        ensures { result.now ≡ name_of self }
    {
        match self {
            FailInfo::BadAlg => b"badAlg",
            FailInfo::BadMessageCheck => b"badMessageCheck",
            FailInfo::BadRequest => b"badRequest",
            FailInfo::BadTime => b"badTime",
            FailInfo::BadCertId => b"badCertId",
            FailInfo::BadDataFormat => b"badDataFormat",
            FailInfo::BadPop => b"badPOP",
            FailInfo::CertRevoked => b"certRevoked",
            FailInfo::CertConfirmed => b"certConfirmed",
            FailInfo::WrongIntegrity => b"wrongIntegrity",
            FailInfo::BadRecipientNonce => b"badRecipientNonce",
            FailInfo::BadSenderNonce => b"badSenderNonce",
            FailInfo::BadCertTemplate => b"badCertTemplate",
            FailInfo::SignerNotTrusted => b"signerNotTrusted",
            FailInfo::TransactionIdInUse => b"transactionIdInUse",
            FailInfo::UnsupportedVersion => b"unsupportedVersion",
            FailInfo::NotAuthorized => b"notAuthorized",
            FailInfo::SystemUnavail => b"systemUnavail",
            FailInfo::SystemFailure => b"systemFailure",
            FailInfo::DuplicateCertReq => b"duplicateCertReq",
        }
    }
}
