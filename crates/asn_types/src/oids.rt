//! Object identifiers, each as the content octets of its element.

/// Of a common name (RFC 5280, A.1).
pub const COMMON_NAME: &[u8] = &[0x55, 0x04, 0x03];

/// Of the extension subjectKeyIdentifier (RFC 5280, 4.2.1.2).
pub const SUBJECT_KEY_IDENTIFIER: &[u8] = &[0x55, 0x1d, 0x0e];

/// Of the extension keyUsage (RFC 5280, 4.2.1.3).
pub const KEY_USAGE: &[u8] = &[0x55, 0x1d, 0x0f];

/// Of the extension subjectAltName (RFC 5280, 4.2.1.6).
pub const SUBJECT_ALT_NAME: &[u8] = &[0x55, 0x1d, 0x11];

/// Of the extension basicConstraints (RFC 5280, 4.2.1.9).
pub const BASIC_CONSTRAINTS: &[u8] = &[0x55, 0x1d, 0x13];

/// Of the extension reasonCode (RFC 5280, 5.3.1).
pub const REASON_CODE: &[u8] = &[0x55, 0x1d, 0x15];

/// Of the extension authorityKeyIdentifier (RFC 5280, 4.2.1.1).
pub const AUTHORITY_KEY_IDENTIFIER: &[u8] = &[0x55, 0x1d, 0x23];

/// Of the attribute extensionRequest (RFC 2985, 5.4.2).
pub const EXTENSION_REQUEST: &[u8] = &[0x2a, 0x86, 0x48, 0x86, 0xf7, 0x0d, 0x01, 0x09, 0x0e];

/// Of the algorithm HSS/LMS (RFC 9708, 4).
pub const HSS_LMS: &[u8] = &[
    0x2a, 0x86, 0x48, 0x86, 0xf7, 0x0d, 0x01, 0x09, 0x10, 0x03, 0x11,
];

/// Of the key derivation PBKDF2 (RFC 8018, A.2).
pub const PBKDF2: &[u8] = &[0x2a, 0x86, 0x48, 0x86, 0xf7, 0x0d, 0x01, 0x05, 0x0c];

/// Of the MAC scheme PBMAC1 (RFC 8018, A.5).
pub const PBMAC1: &[u8] = &[0x2a, 0x86, 0x48, 0x86, 0xf7, 0x0d, 0x01, 0x05, 0x0e];

/// Of HMAC with SHA-256 (RFC 8018, B.1.2).
pub const HMAC_SHA256: &[u8] = &[0x2a, 0x86, 0x48, 0x86, 0xf7, 0x0d, 0x02, 0x09];

/// Of the hash SHA-256 (RFC 5754, 2.2).
pub const SHA256: &[u8] = &[0x60, 0x86, 0x48, 0x01, 0x65, 0x03, 0x04, 0x02, 0x01];

/// Of the control oldCertID (RFC 4211, 6.5).
pub const OLD_CERT_ID: &[u8] = &[0x2b, 0x06, 0x01, 0x05, 0x05, 0x07, 0x05, 0x01, 0x05];

/// Of the general information implicitConfirm (RFC 9810, 5.1.1.1).
pub const IMPLICIT_CONFIRM: &[u8] = &[0x2b, 0x06, 0x01, 0x05, 0x05, 0x07, 0x04, 0x0d];

/// Of the general information confirmWaitTime (RFC 9810, 5.1.1.2).
pub const CONFIRM_WAIT_TIME: &[u8] = &[0x2b, 0x06, 0x01, 0x05, 0x05, 0x07, 0x04, 0x0e];

/// Of the general information origPKIMessage (RFC 9810, 5.1.1.3).
pub const ORIG_PKI_MESSAGE: &[u8] = &[0x2b, 0x06, 0x01, 0x05, 0x05, 0x07, 0x04, 0x0f];

/// Of the general message caCerts (RFC 9810, 5.3.19.14).
pub const CA_CERTS: &[u8] = &[0x2b, 0x06, 0x01, 0x05, 0x05, 0x07, 0x04, 0x11];

/// Of the general message certReqTemplate (RFC 9810, 5.3.19.16).
pub const CERT_REQ_TEMPLATE: &[u8] = &[0x2b, 0x06, 0x01, 0x05, 0x05, 0x07, 0x04, 0x13];
