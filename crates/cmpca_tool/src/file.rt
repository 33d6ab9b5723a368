//! The operator's files, of settings and of credentials: what a run replies that reads none.
ghost use Rattle.std.specs.Prelude.{◌≡◌, ◌≢◌, IfOk};
ghost use Rattle.cmpca_tool.specs.Deeds.{IsUnreadReply, file_line, file_status};
ghost use Rattle.cmpca_tool.specs.Texts.{text_of};

use crate::reply::Reply;
use crate::status::Status;
use cmp_ports::Octets;
use itoa::Buffer;
use registry::{CredCause, RegFault, SettingKey};
use std::alloc::{AllocError, Global};

/// The most octets of a file of the operator's.
pub const FILE_LIMIT: usize = 65_536;

/// Why a file of the operator's isn't read.
#[derive(Clone, Copy)]
pub enum Unread {
    /// The file is at fault, or memory ran out.
    Bad(RegFault),
    /// The input failed.
    ReadFault,
}

/// The line of a credential at fault.
fn credential_line(alloc: Global, index: u32, cause: CredCause) -> Result<Octets, AllocError>
    ensures { IfOk result (λ text. text ≡ file_line (RegFault.BadCredential index cause)) }
{
    let mut text = Octets::empty(alloc);
    let mut digits = Buffer::new();
    text.append(b"refused bad credential ")?;
    text.append(digits.format(index).as_bytes())?;
    text.append(b" ")?;
    text.append(cause.word().as_bytes())?;
    text.append(b"\n")?;
    Ok(text)
}

/// The line of a setting at fault.
fn setting_line(alloc: Global, key: SettingKey) -> Result<Octets, AllocError>
    ensures { IfOk result (λ text. text ≡ file_line (RegFault.BadSetting key)) }
{
    let mut text = Octets::empty(alloc);
    text.append(b"refused bad setting ")?;
    text.append(key.word().as_bytes())?;
    text.append(b"\n")?;
    Ok(text)
}

/// The line of a file's fault.
fn file_line(alloc: Global, fault: RegFault) -> Result<Octets, AllocError>
    ensures { IfOk result (λ text. text ≡ file_line fault) }
{
    match fault {
        RegFault::BadToml => Octets::copy_of(alloc, b"refused bad toml\n"),
        RegFault::BadCount => Octets::copy_of(alloc, b"refused bad count\n"),
        RegFault::BadCredential { index, cause } => credential_line(alloc, index, cause),
        RegFault::BadSetting(key) => setting_line(alloc, key),
        RegFault::NoMemory => Octets::copy_of(alloc, b"no memory\n"),
    }
}

/// How a run ends whose file is at fault.
fn file_status(fault: RegFault) -> Status
    ensures status { result ≡ file_status fault }
    ensures devices { (result ≢ Status.WriteFault) × (result ≢ Status.ReadFault) × (result ≢ Status.DiskFault) }
{
    match fault {
        RegFault::NoMemory => Status::NoMemory,
        _ => Status::Refused,
    }
}

/// The reply of a run whose file isn't read.
pub fn unread_reply(alloc: Global, unread: Unread) -> Reply
    ensures reply { IsUnreadReply unread result.status (text_of result.text) }
    ensures read_fault { result.status ≡ Status.ReadFault → unread ≡ Unread.ReadFault }
    ensures devices { (result.status ≢ Status.WriteFault) × (result.status ≢ Status.DiskFault) }
{
    match unread {
        Unread::Bad(fault) => match file_line(alloc, fault) {
            Ok(text) => Reply::made(file_status(fault), text),
            Err(_) => Reply::no_memory(),
        },
        Unread::ReadFault => Reply::read_fault(),
    }
}
