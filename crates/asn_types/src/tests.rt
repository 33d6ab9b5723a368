//! Octets by Bouncy Castle 1.72, read and written again; the digest is by Python's hashlib, the seconds by its calendar.timegm.
use crate::{
    AlgorithmId, BadForm, Extension, Extensions, GeneralName, HSS_LMS, KEY_USAGE, Name, Spki,
    Template, generalized, key_id, read_alg, read_extension, read_extensions, read_general,
    read_name, read_spki, read_template, read_time, utc, write_alg, write_cn, write_extension,
    write_extensions, write_general, write_spki,
};
use cmp_values::{Octets, Text};
use der_base::{Bits, DerFault, Element, whole};
use std::alloc::{AllocError, Global};

/// The name of the common name `Fleet CA`.
const NAME: &[u8] =
    b"\x30\x13\x31\x11\x30\x0f\x06\x03\x55\x04\x03\x0c\x08\x46\x6c\x65\x65\x74\x20\x43\x41";

/// The dNSName device.fleet.example.
const DNS: &[u8] =
    b"\x82\x14\x64\x65\x76\x69\x63\x65\x2e\x66\x6c\x65\x65\x74\x2e\x65\x78\x61\x6d\x70\x6c\x65";

/// HSS/LMS, without parameters.
const ALGORITHM: &[u8] = b"\x30\x0d\x06\x0b\x2a\x86\x48\x86\xf7\x0d\x01\x09\x10\x03\x11";

/// The octets of a key, and it with its algorithm.
const KEY: &[u8] =
    b"\x40\x41\x42\x43\x44\x45\x46\x47\x48\x49\x4a\x4b\x4c\x4d\x4e\x4f\x50\x51\x52\x53\x54\x55\x56\x57\x58\x59\x5a\x5b\x5c\x5d\x5e\x5f\x60\x61\x62\x63\x64\x65\x66\x67\x68\x69\x6a\x6b\x6c\x6d\x6e\x6f\x70\x71\x72\x73\x74\x75\x76\x77\x78\x79\x7a\x7b";

const KEY_INFO: &[u8] =
    b"\x30\x4e\x30\x0d\x06\x0b\x2a\x86\x48\x86\xf7\x0d\x01\x09\x10\x03\x11\x03\x3d\x00\x40\x41\x42\x43\x44\x45\x46\x47\x48\x49\x4a\x4b\x4c\x4d\x4e\x4f\x50\x51\x52\x53\x54\x55\x56\x57\x58\x59\x5a\x5b\x5c\x5d\x5e\x5f\x60\x61\x62\x63\x64\x65\x66\x67\x68\x69\x6a\x6b\x6c\x6d\x6e\x6f\x70\x71\x72\x73\x74\x75\x76\x77\x78\x79\x7a\x7b";

/// The content of `KEY_INFO`.
const KEY_CONTENT: &[u8] =
    b"\x30\x0d\x06\x0b\x2a\x86\x48\x86\xf7\x0d\x01\x09\x10\x03\x11\x03\x3d\x00\x40\x41\x42\x43\x44\x45\x46\x47\x48\x49\x4a\x4b\x4c\x4d\x4e\x4f\x50\x51\x52\x53\x54\x55\x56\x57\x58\x59\x5a\x5b\x5c\x5d\x5e\x5f\x60\x61\x62\x63\x64\x65\x66\x67\x68\x69\x6a\x6b\x6c\x6d\x6e\x6f\x70\x71\x72\x73\x74\x75\x76\x77\x78\x79\x7a\x7b";

/// The algorithm of the key.
const PLAIN: AlgorithmId = AlgorithmId {
    oid: HSS_LMS,
    params: None,
};

/// keyUsage, critical.
const USAGE: &[u8] = b"\x30\x0e\x06\x03\x55\x1d\x0f\x01\x01\xff\x04\x04\x03\x02\x07\x80";

/// Three extensions.
const EXTENSIONS: &[u8] =
    b"\x30\x4c\x30\x0e\x06\x03\x55\x1d\x0f\x01\x01\xff\x04\x04\x03\x02\x06\xc0\x30\x25\x06\x03\x55\x1d\x11\x04\x1e\x30\x1c\x82\x14\x64\x65\x76\x69\x63\x65\x2e\x66\x6c\x65\x65\x74\x2e\x65\x78\x61\x6d\x70\x6c\x65\x87\x04\xc0\x00\x02\x01\x30\x13\x06\x03\x55\x1d\x25\x04\x0c\x30\x0a\x06\x08\x2b\x06\x01\x05\x05\x07\x03\x02";

/// The content of `EXTENSIONS`.
const ROW: &[u8] =
    b"\x30\x0e\x06\x03\x55\x1d\x0f\x01\x01\xff\x04\x04\x03\x02\x06\xc0\x30\x25\x06\x03\x55\x1d\x11\x04\x1e\x30\x1c\x82\x14\x64\x65\x76\x69\x63\x65\x2e\x66\x6c\x65\x65\x74\x2e\x65\x78\x61\x6d\x70\x6c\x65\x87\x04\xc0\x00\x02\x01\x30\x13\x06\x03\x55\x1d\x25\x04\x0c\x30\x0a\x06\x08\x2b\x06\x01\x05\x05\x07\x03\x02";

/// A template of every field.
const TEMPLATE: &[u8] =
    b"\x30\x82\x01\x30\x80\x01\x02\x81\x01\x07\xa2\x0d\x06\x0b\x2a\x86\x48\x86\xf7\x0d\x01\x09\x10\x03\x11\xa3\x15\x30\x13\x31\x11\x30\x0f\x06\x03\x55\x04\x03\x0c\x08\x46\x6c\x65\x65\x74\x20\x43\x41\xa4\x24\xa0\x0f\x17\x0d\x37\x30\x30\x31\x30\x31\x30\x30\x30\x30\x30\x30\x5a\xa1\x11\x18\x0f\x32\x30\x35\x30\x30\x31\x30\x31\x30\x30\x30\x30\x30\x30\x5a\xa5\x32\x30\x30\x31\x0b\x30\x09\x06\x03\x55\x04\x06\x13\x02\x44\x45\x31\x0e\x30\x0c\x06\x03\x55\x04\x0a\x0c\x05\x46\x6c\x65\x65\x74\x31\x11\x30\x0f\x06\x03\x55\x04\x03\x0c\x08\x64\x65\x76\x69\x63\x65\x2d\x31\xa6\x4e\x30\x0d\x06\x0b\x2a\x86\x48\x86\xf7\x0d\x01\x09\x10\x03\x11\x03\x3d\x00\x40\x41\x42\x43\x44\x45\x46\x47\x48\x49\x4a\x4b\x4c\x4d\x4e\x4f\x50\x51\x52\x53\x54\x55\x56\x57\x58\x59\x5a\x5b\x5c\x5d\x5e\x5f\x60\x61\x62\x63\x64\x65\x66\x67\x68\x69\x6a\x6b\x6c\x6d\x6e\x6f\x70\x71\x72\x73\x74\x75\x76\x77\x78\x79\x7a\x7b\x87\x04\x00\x01\x02\x03\x88\x04\x00\x04\x05\x06\xa9\x4c\x30\x0e\x06\x03\x55\x1d\x0f\x01\x01\xff\x04\x04\x03\x02\x06\xc0\x30\x25\x06\x03\x55\x1d\x11\x04\x1e\x30\x1c\x82\x14\x64\x65\x76\x69\x63\x65\x2e\x66\x6c\x65\x65\x74\x2e\x65\x78\x61\x6d\x70\x6c\x65\x87\x04\xc0\x00\x02\x01\x30\x13\x06\x03\x55\x1d\x25\x04\x0c\x30\x0a\x06\x08\x2b\x06\x01\x05\x05\x07\x03\x02";

/// The validity and the subject of `TEMPLATE`.
const VALIDITY: &[u8] =
    b"\xa0\x0f\x17\x0d\x37\x30\x30\x31\x30\x31\x30\x30\x30\x30\x30\x30\x5a\xa1\x11\x18\x0f\x32\x30\x35\x30\x30\x31\x30\x31\x30\x30\x30\x30\x30\x30\x5a";

const SUBJECT: &[u8] =
    b"\x30\x30\x31\x0b\x30\x09\x06\x03\x55\x04\x06\x13\x02\x44\x45\x31\x0e\x30\x0c\x06\x03\x55\x04\x0a\x0c\x05\x46\x6c\x65\x65\x74\x31\x11\x30\x0f\x06\x03\x55\x04\x03\x0c\x08\x64\x65\x76\x69\x63\x65\x2d\x31";

/// What `TEMPLATE` asks for.
const ASKED: Template = Template {
    version: Some(b"\x02"),
    serial: Some(b"\x07"),
    alg: Some(PLAIN),
    issuer: Some(Name { whole: NAME }),
    validity: Some(VALIDITY),
    subject: Some(Name { whole: SUBJECT }),
    key: Some(Spki {
        alg: PLAIN,
        key: KEY,
        content: KEY_CONTENT,
    }),
    issuer_uid: Some(Bits {
        unused: 0,
        octets: b"\x01\x02\x03",
    }),
    subject_uid: Some(Bits {
        unused: 0,
        octets: b"\x04\x05\x06",
    }),
    exts: Some(Extensions { content: ROW }),
};

/// Whether these octets were written.
fn is(written: Result<Octets, AllocError>, octets: &[u8]) -> bool {
    match written {
        Ok(written) => written.as_slice() == octets,
        Err(_) => false,
    }
}

/// Whether a common name of at most 64 octets is written as these.
#[tactic(auto, using(crate::proofs::LengthLemmas::short))]
fn is_written_name(alloc: Global, text: &[u8], octets: &[u8]) -> bool {
    text.len() <= 64 && is(write_cn(alloc, text), octets)
}

/// Whether an algorithm without parameters, of a short identifier, is written as these octets.
#[tactic(auto, using(crate::proofs::LengthLemmas::short))]
fn is_written_algorithm(alloc: Global, oid: &[u8], octets: &[u8]) -> bool {
    oid.len() <= 64 && is(write_alg(alloc, oid, None), octets)
}

/// Whether a short key with such an algorithm is.
#[tactic(auto, using(crate::proofs::LengthLemmas::short))]
fn is_written_key(alloc: Global, oid: &[u8], key: &[u8], octets: &[u8]) -> bool {
    let alg = AlgorithmId { oid, params: None };
    oid.len() <= 64 && key.len() <= 64 && is(write_spki(alloc, &alg, key), octets)
}

/// Whether a critical extension of short octets is.
#[tactic(auto, using(crate::proofs::LengthLemmas::short))]
fn is_written_extension(alloc: Global, oid: &[u8], value: &[u8], octets: &[u8]) -> bool {
    oid.len() <= 64 && value.len() <= 64 && is(write_extension(alloc, oid, true, value), octets)
}

/// Whether a row of extensions of at most 99 octets is.
fn is_written_row(alloc: Global, row: &[u8], octets: &[u8]) -> bool {
    row.len() < 100 && is(write_extensions(alloc, row), octets)
}

#[test]
fn writes_names(rt: HostRuntime) {
    assert!(rt; is_written_name(rt.alloc(), b"Fleet CA", NAME));
    assert!(rt;
        is(
            write_general(rt.alloc(), 0x82, b"device.fleet.example"),
            DNS
        )
    );
}

#[test]
fn writes_keys(rt: HostRuntime) {
    assert!(rt; is_written_algorithm(rt.alloc(), HSS_LMS, ALGORITHM));
    assert!(rt; is_written_key(rt.alloc(), HSS_LMS, KEY, KEY_INFO));
}

#[test]
fn writes_extensions(rt: HostRuntime) {
    assert!(rt; is_written_extension(rt.alloc(), KEY_USAGE, b"\x03\x02\x07\x80", USAGE));
    assert!(rt; is_written_row(rt.alloc(), ROW, EXTENSIONS));
}

#[test]
fn digests_a_key(rt: HostRuntime) {
    assert_eq!(rt;
        key_id(KEY),
        *b"\x12\xa3\x65\x1d\xc2\xfd\x3a\x5b\xca\x14\x02\x5c\x50\x6f\x9f\xc4\x40\xe3\xc7\xbf"
    );
}

/// What reading a name, a general name, an algorithm or an extension gives, where these octets are an element.
fn name_in(octets: &[u8]) -> Option<Result<Name<'_>, BadForm>> {
    match whole(octets) {
        Ok(e) => Some(read_name(&e)),
        Err(_) => None,
    }
}

fn general_in(octets: &[u8]) -> Option<Result<GeneralName<'_>, BadForm>> {
    match whole(octets) {
        Ok(e) => Some(read_general(&e)),
        Err(_) => None,
    }
}

fn algorithm_in(octets: &[u8]) -> Option<Result<AlgorithmId<'_>, BadForm>> {
    match whole(octets) {
        Ok(e) => Some(read_alg(&e)),
        Err(_) => None,
    }
}

fn extension_in(octets: &[u8]) -> Option<Result<Extension<'_>, BadForm>> {
    match whole(octets) {
        Ok(e) => Some(read_extension(&e)),
        Err(_) => None,
    }
}

/// The content of these octets, an element.
fn content_of(octets: &[u8]) -> Option<&[u8]> {
    match whole(octets) {
        Ok(e) => Some(e.content),
        Err(_) => None,
    }
}

#[test]
fn reads_names(rt: HostRuntime) {
    assert_eq!(rt; name_in(NAME), Some(Ok(Name { whole: NAME })));
    let dns = GeneralName {
        tag: 0x82,
        content: b"device.fleet.example",
        whole: DNS,
    };
    assert_eq!(rt; general_in(DNS), Some(Ok(dns)));
}

#[test]
fn reads_keys(rt: HostRuntime) {
    assert_eq!(rt; algorithm_in(ALGORITHM), Some(Ok(PLAIN)));
    let key = Spki {
        alg: PLAIN,
        key: KEY,
        content: KEY_CONTENT,
    };
    assert_eq!(rt; content_of(KEY_INFO), Some(KEY_CONTENT));
    assert_eq!(rt; read_spki(KEY_CONTENT), Ok(key));
}

#[test]
fn reads_extensions(rt: HostRuntime) {
    let usage = Extension {
        oid: KEY_USAGE,
        critical: true,
        value: b"\x03\x02\x07\x80",
        whole: USAGE,
    };
    assert_eq!(rt; extension_in(USAGE), Some(Ok(usage)));
    assert_eq!(rt; content_of(EXTENSIONS), Some(ROW));
    assert_eq!(rt; read_extensions(ROW), Ok(Extensions { content: ROW }));
}

#[test]
fn reads_every_field_of_a_template(rt: HostRuntime) {
    let content = content_of(TEMPLATE).unwrap_or(&[]);
    assert_eq!(rt; read_template(content), Ok(ASKED));
}

/// Near misses, by hand from RFC 5280, A.1 and 4.1: an empty set in a name, an attribute of three elements, a directory name that
/// is none, octets behind an algorithm, FALSE written, no extension, a key with unused bits, and a template out of order.
#[test]
fn refuses_near_misses_of_elements(rt: HostRuntime) {
    assert_eq!(rt; name_in(b"\x30\x02\x31\x00"), Some(Err(BadForm)));
    assert_eq!(rt;
        name_in(b"\x30\x0d\x31\x0b\x30\x09\x06\x03\x55\x04\x03\x05\x00\x05\x00"),
        Some(Err(BadForm))
    );
    assert_eq!(rt; general_in(b"\xa4\x02\x31\x00"), Some(Err(BadForm)));
    assert_eq!(rt;
        algorithm_in(b"\x30\x09\x06\x03\x2b\x65\x70\x05\x00\x05\x00"),
        Some(Err(BadForm))
    );
    assert_eq!(rt;
        extension_in(b"\x30\x0c\x06\x03\x55\x1d\x13\x01\x01\x00\x04\x02\x30\x00"),
        Some(Err(BadForm))
    );
}

#[test]
fn refuses_near_misses_of_contents(rt: HostRuntime) {
    assert_eq!(rt; read_extensions(b""), Err(BadForm));
    assert_eq!(rt;
        read_spki(b"\x30\x05\x06\x03\x2b\x65\x70\x03\x02\x01\x02"),
        Err(BadForm)
    );
    assert_eq!(rt; read_template(b"\x81\x01\x07\x80\x01\x02"), Err(BadForm));
}

/// What a time of this tag and content says.
fn time_of(tag: u8, content: &[u8]) -> Result<u64, DerFault> {
    let element = Element {
        tag,
        content,
        whole: content,
    };
    read_time(&element)
}

/// Whether a time was written as these octets.
fn is_time(written: Result<Text, AllocError>, octets: &[u8]) -> bool {
    match written {
        Ok(written) => written.as_slice() == octets,
        Err(_) => false,
    }
}

#[test]
fn times_are_written(rt: HostRuntime) {
    assert!(rt; is_time(generalized(rt.alloc(), 1_700_000_000), b"20231114221320Z"));
    assert!(rt; is_time(utc(rt.alloc(), 1_700_000_000), b"231114221320Z"));
}

#[test]
fn times_are_read(rt: HostRuntime) {
    assert_eq!(rt; time_of(0x18, b"20231114221320Z"), Ok(1_700_000_000));
    assert_eq!(rt; time_of(0x17, b"231114221320Z"), Ok(1_700_000_000));
    assert_eq!(rt; time_of(0x17, b"240229000000Z"), Ok(1_709_164_800));
    assert_eq!(rt; time_of(0x17, b"230229000000Z"), Err(DerFault::BadLength));
    assert_eq!(rt; time_of(0x16, b"240229000000Z"), Err(DerFault::BadTag));
}
