//! Files of settings and of credentials, each with one fault and with two.
//!
//! The name is the subject that OpenSSL wrote for `-subj "/CN=Fleet CA" -utf8`. Bouncy Castle 1.72 made the HSS key, and its
//! identifier was computed by Python's `hashlib`.

use crate::{
    CredCause, RegFault, SettingKey, macs_in, read_credentials, read_settings, read_table,
};
use deal_model::{Credential, CredentialList, Kind, Settings};
use std::alloc::Global;
use std::test::Fail;

/// A line for each setting, at its least or its greatest value.
const SETTINGS: [(&str, &str); 10] = [
    ("days", "36500"),
    ("issue_tree", "5"),
    ("reply_tree", "7"),
    ("issue_ots", "1"),
    ("reply_ots", "4"),
    ("wait", "604800"),
    ("skew", "0"),
    ("rounds", "1"),
    ("check_after", "86400"),
    ("name", "\"Fleet CA\""),
];

/// A device with the secret "secret-1".
const DEVICE: &str = "[[credential]]
kind = 'mac'
reference = 'dev-1'
secret = '7365637265742D31'
rights = ['enrol']
";

/// A registration authority with an HSS key.
const AUTHORITY: &str = "[[credential]]
kind = 'lms'
key = '000000020000000500000004808182838485868788898a8b8c8d8e8f809456a93ffb329cd3ac34051b37722a08ef8e5ee986256ebdb49ad7b1981bf8'
rights = ['revoke', 'enrol', 'wrap', 'vouch']
hold = true
";

/// A line of a file.
fn add_line(text: &mut String, key: &str, value: &str) -> Result<(), Fail> {
    text.push_str(key)?;
    text.push_str(" = ")?;
    text.push_str(value)?;
    text.push_str("\n")?;
    Ok(())
}

/// The settings without two keys, and a line in their place.
fn settings_text(alloc: Global, without: [&str; 2], line: &str) -> Result<String, Fail> {
    let mut text = String::new(alloc);
    for (key, value) in &SETTINGS {
        if *key != without[0] && *key != without[1] {
            add_line(&mut text, key, value)?;
        }
    }
    text.push_str(line)?;
    Ok(text)
}

/// The fault of a file of settings, where it has one.
fn settings_fault(alloc: Global, toml: &[u8]) -> Option<RegFault> {
    read_settings(alloc, toml).err()
}

/// The fault of the settings without two keys, with a line in their place.
fn line_fault(alloc: Global, without: [&str; 2], line: &str) -> Result<Option<RegFault>, Fail> {
    let text = settings_text(alloc, without, line)?;
    Ok(settings_fault(alloc, text.as_bytes()))
}

fn settings(alloc: Global) -> Result<Settings, Fail> {
    let text = settings_text(alloc, ["", ""], "")?;
    match read_settings(alloc, text.as_bytes()) {
        Ok(settings) => Ok(settings),
        Err(_) => Err("a fault".into()),
    }
}

/// Whether these are the name "Fleet CA" and the numbers of the lines.
fn are_of_the_lines(settings: &Settings) -> bool {
    settings.name.as_slice()
        == b"\x30\x13\x31\x11\x30\x0f\x06\x03\x55\x04\x03\x0c\x08Fleet CA".as_slice()
        && settings.time == 0
        && settings.wait == 604_800
        && settings.skew == 0
        && settings.rounds == 1
        && settings.check_after == 86_400
        && settings.days == 36_500
}

/// Whether these are keys of the types of the lines, not yet made.
fn are_unmade(issue: &[u8], reply: &[u8]) -> bool {
    issue.starts_with(b"\0\0\0\x01\0\0\0\x05\0\0\0\x01")
        && reply.starts_with(b"\0\0\0\x01\0\0\0\x07\0\0\0\x04")
        && reply.iter().skip(12).all(|octet| *octet == 0)
}

#[test]
fn settings_are_read(rt: HostRuntime) -> Result<(), Fail> {
    let settings = settings(rt.alloc())?;
    assert!(rt; are_of_the_lines(&settings));
    assert!(rt; are_unmade(&settings.issue_key, &settings.reply_key));
    Ok(())
}

/// Two keys that the settings are without, a line in their place, and the key that is told.
const SETTING_FAULTS: [(&str, &str, &str, SettingKey); 16] = [
    ("name", "", "", SettingKey::Name),
    ("name", "", "name = ''", SettingKey::Name),
    ("name", "", "name = 1", SettingKey::Name),
    ("issue_tree", "", "issue_tree = 4", SettingKey::IssueTree),
    ("reply_tree", "", "reply_tree = 8", SettingKey::ReplyTree),
    ("issue_ots", "", "issue_ots = 0", SettingKey::IssueOts),
    ("reply_ots", "", "reply_ots = 5", SettingKey::ReplyOts),
    ("wait", "", "wait = 0", SettingKey::Wait),
    ("skew", "", "skew = -1", SettingKey::Skew),
    ("rounds", "", "rounds = 200001", SettingKey::Rounds),
    (
        "check_after",
        "",
        "check_after = '60'",
        SettingKey::CheckAfter,
    ),
    ("days", "", "days = 36501", SettingKey::Days),
    ("", "", "port = 80", SettingKey::Unknown),
    // Two at once: the earlier of the table is told, wherever it stands in the file.
    ("days", "wait", "", SettingKey::Wait),
    ("reply_tree", "issue_ots", "", SettingKey::ReplyTree),
    ("days", "", "port = 80", SettingKey::Days),
];

#[test]
fn the_first_setting_at_fault_is_told(rt: HostRuntime) -> Result<(), Fail> {
    for (first, second, line, key) in &SETTING_FAULTS {
        let fault = line_fault(rt.alloc(), [*first, *second], line)?;
        assert!(rt; fault == Some(RegFault::BadSetting(*key)), "{line}");
    }
    Ok(())
}

/// A name of this many octets.
fn name_line(alloc: Global, octets: usize) -> Result<String, Fail> {
    let mut line = String::from_str(alloc, "name = '")?;
    for _ in 0..octets {
        line.push('n')?;
    }
    line.push('\'')?;
    Ok(line)
}

/// The fault of the settings with a name of this many octets.
fn name_fault(alloc: Global, octets: usize) -> Result<Option<RegFault>, Fail> {
    let line = name_line(alloc, octets)?;
    line_fault(alloc, ["name", ""], line.as_str())
}

#[test]
fn a_name_has_58_octets(rt: HostRuntime) -> Result<(), Fail> {
    assert!(rt; name_fault(rt.alloc(), 58)?.is_none());
    assert!(rt; name_fault(rt.alloc(), 59)? == Some(RegFault::BadSetting(SettingKey::Name)));
    Ok(())
}

/// The fault of the settings with a comment behind them, of this many octets in all.
fn length_fault(alloc: Global, octets: usize) -> Result<Option<RegFault>, Fail> {
    let mut text = settings_text(alloc, ["", ""], "#")?;
    for _ in text.len()..octets {
        text.push('x')?;
    }
    Ok(settings_fault(alloc, text.as_bytes()))
}

#[test]
fn a_file_has_65536_octets(rt: HostRuntime) -> Result<(), Fail> {
    assert!(rt; length_fault(rt.alloc(), 65_536)?.is_none());
    assert!(rt; length_fault(rt.alloc(), 65_537)? == Some(RegFault::BadToml));
    Ok(())
}

/// The fault of a file of credentials, where it has one.
fn credentials_fault(alloc: Global, toml: &[u8]) -> Option<RegFault> {
    read_credentials(alloc, toml).err()
}

#[test]
fn a_file_is_toml(rt: HostRuntime) {
    for bad in [
        b"name".as_slice(),
        b"name = '\xff'",
        b"wait = 9223372036854775808",
    ] {
        assert!(rt; settings_fault(rt.alloc(), bad) == Some(RegFault::BadToml));
        assert!(rt; credentials_fault(rt.alloc(), bad) == Some(RegFault::BadToml));
    }
}

/// Texts one behind the other.
fn joined(alloc: Global, texts: &[&str]) -> Result<String, Fail> {
    let mut text = String::new(alloc);
    for part in texts {
        text.push_str(part)?;
    }
    Ok(text)
}

/// The fault of the file of credentials of these texts.
fn texts_fault(alloc: Global, texts: &[&str]) -> Result<Option<RegFault>, Fail> {
    let file = joined(alloc, texts)?;
    Ok(credentials_fault(alloc, file.as_bytes()))
}

fn credentials(alloc: Global) -> Result<CredentialList, Fail> {
    let text = joined(alloc, &[DEVICE, AUTHORITY])?;
    match read_credentials(alloc, text.as_bytes()) {
        Ok(list) => Ok(list),
        Err(_) => Err("a fault".into()),
    }
}

fn is_device(it: &Credential) -> bool {
    it.kind == Kind::Mac && it.kid.is(b"dev-1") && it.material.is(b"secret-1") && it.rights == 1
}

fn is_authority(it: &Credential) -> bool {
    it.kind == Kind::Lms
        && it.kid.is(
            b"\x3c\x5a\xf0\xd8\x22\xfd\x3f\xe3\x1b\xcc\x9c\x31\x01\xb9\x0f\x47\xa5\x9e\x4c\xe8",
        )
        && it.material.len() == 60
        && it.rights == 31
}

fn are_device_and_authority(list: &[Credential]) -> bool {
    match list {
        [device, authority] => is_device(device) && is_authority(authority),
        _ => false,
    }
}

#[test]
fn credentials_are_read(rt: HostRuntime) -> Result<(), Fail> {
    let list = credentials(rt.alloc())?;
    assert!(rt; are_device_and_authority(list.as_slice()));
    Ok(())
}

/// Whether the device is read of a table with another key beside it.
fn is_device_read(alloc: Global, texts: &[&str]) -> Result<bool, Fail> {
    let file = joined(alloc, texts)?;
    let Ok(table) = read_table(alloc, file.as_bytes()) else {
        return Ok(false);
    };
    match macs_in(alloc, &table) {
        Ok(list) => Ok(matches!(list.as_slice(), [device] if is_device(device))),
        Err(_) => Ok(false),
    }
}

/// The fault of the credentials of kind mac alone.
fn macs_fault(alloc: Global, texts: &[&str]) -> Result<Option<RegFault>, Fail> {
    let file = joined(alloc, texts)?;
    let Ok(table) = read_table(alloc, file.as_bytes()) else {
        return Ok(Some(RegFault::BadToml));
    };
    Ok(macs_in(alloc, &table).err())
}

#[test]
fn credentials_of_kind_mac_stand_beside_other_keys(rt: HostRuntime) -> Result<(), Fail> {
    assert!(rt; is_device_read(rt.alloc(), &["mode = 'vouch'\n", DEVICE])?);
    let lms = macs_fault(rt.alloc(), &[DEVICE, AUTHORITY])?;
    assert!(rt; lms == bad_credential(1, CredCause::Kind));
    assert!(rt; macs_fault(rt.alloc(), &["mode = 'vouch'"])? == Some(RegFault::BadCount));
    Ok(())
}

fn bad_credential(index: u32, cause: CredCause) -> Option<RegFault> {
    Some(RegFault::BadCredential { index, cause })
}

/// The lines of a credential behind a device, and the cause that is told.
const CAUSES: [(&str, CredCause); 17] = [
    // A key of the other kind is unknown, and told before any other cause.
    ("kind='mac'\nkey=''", CredCause::Unknown),
    ("kind='lms'\nsecret=''\nrights=1", CredCause::Unknown),
    ("kind='ssh'\nname=1", CredCause::Unknown),
    // Without a kind the keys of both are known.
    ("kind='ssh'\nreference='a'\nkey=''", CredCause::Kind),
    ("reference='a'", CredCause::Kind),
    ("kind='mac'", CredCause::Reference),
    ("kind='mac'\nreference=''\nsecret=''", CredCause::Reference),
    (
        "kind='mac'\nreference='a'\nsecret='00112233445566'",
        CredCause::Secret,
    ),
    (
        "kind='mac'\nreference='a'\nsecret='0011223344556677g8'\nrights=1",
        CredCause::Secret,
    ),
    ("kind='lms'", CredCause::Key),
    ("kind='lms'\nkey='0000000100000005'\nhold=1", CredCause::Key),
    (
        "kind='mac'\nreference='a'\nsecret='0011223344556677'",
        CredCause::Rights,
    ),
    (
        "kind='mac'\nreference='a'\nsecret='0011223344556677'\nrights=['wrap','wrap']",
        CredCause::Rights,
    ),
    (
        "kind='mac'\nreference='a'\nsecret='0011223344556677'\nrights=['hold']\nhold=1",
        CredCause::Rights,
    ),
    (
        "kind='mac'\nreference='a'\nsecret='0011223344556677'\nrights=[]\nhold=1",
        CredCause::Hold,
    ),
    // The same reference: the last check of its table.
    (
        "kind='mac'\nreference='dev-1'\nsecret='0011223344556677'\nrights=[]\nhold='no'",
        CredCause::Hold,
    ),
    (
        "kind='mac'\nreference='dev-1'\nsecret='0011223344556677'\nrights=[]",
        CredCause::Duplicate,
    ),
];

#[test]
fn the_first_cause_of_a_credential_is_told(rt: HostRuntime) -> Result<(), Fail> {
    for (lines, cause) in &CAUSES {
        let fault = texts_fault(rt.alloc(), &[DEVICE, "[[credential]]\n", lines])?;
        assert!(rt; fault == bad_credential(1, *cause), "{lines}");
    }
    Ok(())
}

#[test]
fn the_first_credential_at_fault_is_told(rt: HostRuntime) -> Result<(), Fail> {
    let ssh = b"credential = [{ kind = \"ssh\" }, { name = 1 }]";
    assert!(rt; credentials_fault(rt.alloc(), ssh) == bad_credential(0, CredCause::Kind));
    assert_eq!(rt; CredCause::Kind.word(), "kind");
    let twice = texts_fault(rt.alloc(), &[DEVICE, DEVICE, "[[credential]]\n"])?;
    assert!(rt; twice == bad_credential(1, CredCause::Duplicate));
    Ok(())
}

#[test]
fn a_file_without_credentials_is_refused(rt: HostRuntime) {
    for count in [
        "",
        "credential = []",
        "credential = 1",
        "credential = [{}, 1]",
        "name = 1\n[[credential]]\nkind = 'ssh'",
    ] {
        let fault = credentials_fault(rt.alloc(), count.as_bytes());
        assert!(rt; fault == Some(RegFault::BadCount), "{count}");
    }
}

/// This many tables.
fn many(alloc: Global, count: usize) -> Result<String, Fail> {
    let mut text = String::from_str(alloc, "credential = [")?;
    for _ in 0..count {
        text.push_str("{},")?;
    }
    text.push_str("]")?;
    Ok(text)
}

/// The fault of a file of this many tables.
fn many_fault(alloc: Global, count: usize) -> Result<Option<RegFault>, Fail> {
    let text = many(alloc, count)?;
    Ok(credentials_fault(alloc, text.as_bytes()))
}

#[test]
fn there_are_256_credentials(rt: HostRuntime) -> Result<(), Fail> {
    assert!(rt; many_fault(rt.alloc(), 256)? == bad_credential(0, CredCause::Kind));
    assert!(rt; many_fault(rt.alloc(), 257)? == Some(RegFault::BadCount));
    Ok(())
}
