//! The command that founds a service.
ghost use Rattle.std.specs.Prelude.{◌≡◌, ◌≢◌, ◌⊎◌, ◌≤◌, ℕ, List, [], length, false, Some, Ok, IfOk, IfErr};
ghost use Rattle.cmp_ports.specs.Disk.{Among, LeavesOnly};
ghost use Rattle.cmp_ports.specs.Faults.{Rose, HasCause};
ghost use Rattle.cmp_ports.specs.Whole.{TakesUpTo};
ghost use Rattle.journal_core.specs.Log.{is_open, is_founded};
ghost use Rattle.deal_model.specs.Rules.{Allowed};
ghost use Rattle.registry.specs.Settings.{MayFound, AreUnmade};
ghost use Rattle.desk.specs.Founded.{founding};
ghost use Rattle.cmpca_tool.specs.Changes.{run_of};
ghost use Rattle.cmpca_tool.specs.Inits.{IsInitReply, IsFoundReply, IsUnset, IsUnloadedReply, IsUnfoundedReply, SaysSettings, founded_line, with_keys};
ghost use Rattle.cmpca_tool.specs.Sources.{source_run, ToldBoth, file_most, key_most};
ghost use Rattle.cmpca_tool.specs.Texts.{text_of};

use crate::file::{FILE_LIMIT, Unread, unread_reply};
use crate::reply::Reply;
use crate::status::Status;
use cmp_ports::{Disk, Failed, Octets, ReadError, Source, read_up_to};
use deal_model::Settings;
use desk::{Desk, FoundFault};
use registry::{RegFault, read_settings};
use reply_maker::{KeyFault, Keys};
use std::alloc::{AllocError, Global};

/// The fewest octets of a disk that is founded.
const FOUNDED_SIZE: u64 = 9;

/// What is written where the disk was founded before.
const ALREADY: &[u8] = b"refused already founded\n";

/// What is written where the disk fails.
const DISK_FAULT: &[u8] = b"disk fault\n";

/// The line that tells by what the authority is known.
fn founded_line(alloc: Global, identity: &[u8; 96]) -> Result<Octets, AllocError>
    ensures { IfOk result (λ text. text ≡ founded_line identity.now) }
{
    let mut digits = [0u8; 192];
    let mut text = Octets::empty(alloc);
    text.append(b"founded ")?;
    match hex::encode_to_slice(identity.as_slice(), &mut digits) {
        Ok(()) => text.append(&digits)?,
        Err(_) => unreachable!(),
    }
    text.append(b"\n")?;
    Ok(text)
}

/// The settings of a file, which is read from `input` to its end, at most one octet past its limit.
fn read_file<S: Source>(alloc: Global, input: &mut S) -> Result<Settings, Unread>
    ensures read { IfOk result (λ s. SaysSettings (S.left input.old) (Ok s)) }
    ensures unread { IfErr result (IsUnset (S.left input.old)) }
    ensures founds { IfOk result MayFound }
    ensures unmade { IfOk result AreUnmade }
    ensures taken { TakesUpTo file_most (S.left input.old) (S.left input.new) }
    ensures fault { IfErr result (λ f. f ≡ Unread.ReadFault → Rose (S.faults input.old) (S.faults input.new)) }
{
    let octets = match read_up_to(alloc, input, FILE_LIMIT) {
        Ok(octets) => octets,
        Err(ReadError::Fault) => return Err(Unread::ReadFault),
        Err(ReadError::NoMemory) => return Err(Unread::Bad(RegFault::NoMemory)),
    };
    match read_settings(alloc, octets.as_slice()) {
        Ok(settings) => Ok(settings),
        Err(fault) => Err(Unread::Bad(fault)),
    }
}

/// The settings with the public keys that were grown.
fn with_keys(settings: Settings, keys: &Keys) -> Settings
    requires { keys.now.settings ≡ settings }
    ensures keys { result ≡ with_keys keys.now.file settings }
    ensures sized { (length result.issue_key ≡ 60) × (length result.reply_key ≡ 60) }
{
    Settings {
        issue_key: keys.issue_key(),
        reply_key: keys.reply_key(),
        ..settings
    }
}

/// The reply of a run that has no keys.
fn unloaded_reply(fault: KeyFault) -> Reply
    requires { (file journal : List ℕ) → fault ≢ KeyFault.KeyMismatch file journal }
    ensures reply { IsUnloadedReply fault result.status (text_of result.text) }
    ensures read_fault { result.status ≡ Status.ReadFault → fault ≡ KeyFault.ReadFault }
    ensures devices { (result.status ≢ Status.WriteFault) × (result.status ≢ Status.DiskFault) }
{
    match fault {
        KeyFault::ReadFault => Reply::read_fault(),
        KeyFault::BadKeyFile => Reply::says(Status::BadKeyFile, b"bad key file\n"),
        KeyFault::KeyMismatch { .. } => unreachable!(),
        KeyFault::NoMemory => Reply::no_memory(),
    }
}

/// Whether the first octet of a disk is 1. Nothing is written.
fn is_open<D: Disk>(disk: &mut D) -> Result<bool, Failed>
    ensures told { IfOk result (λ r. (f : List ℕ) → D.content disk.old ≡ Some f → r ≡ is_open f) }
    ensures same { D.content disk.new ≡ D.content disk.old }
    ensures crash { Among (D.images disk.old) (D.images disk.new) }
    ensures moments { LeavesOnly D.moment D.left_since disk.old disk.new (D.images disk.old) }
    ensures cause { HasCause (D.faults disk.old) (D.faults disk.new) result }
{
    let mut first = [0u8; 1];
    let count = disk.read_at(0, &mut first)?;
    Ok(count > 0 && first[0] == 1)
}

/// Whether a disk is founded: it has nine octets at least, and the first of them is 1. Nothing is written.
fn is_founded<D: Disk>(disk: &mut D) -> Result<bool, Failed>
    ensures told { IfOk result (λ r. (f : List ℕ) → D.content disk.old ≡ Some f → r ≡ is_founded f) }
    ensures same { D.content disk.new ≡ D.content disk.old }
    ensures crash { Among (D.images disk.old) (D.images disk.new) }
    ensures moments { LeavesOnly D.moment D.left_since disk.old disk.new (D.images disk.old) }
    ensures cause { HasCause (D.faults disk.old) (D.faults disk.new) result }
{
    let size = disk.size()?;
    let open = is_open(disk)?;
    Ok(size >= FOUNDED_SIZE && open)
}

/// The disk that was not founded.
fn disk_of<F: Disk>(failed: (F, FoundFault)) -> F
    ensures { result ≡ failed.0 }
{
    failed.0
}

/// The reply of a run whose disk is not founded by it.
fn unfounded_reply(fault: FoundFault) -> Reply
    ensures reply { IsUnfoundedReply fault result.status (text_of result.text) }
    ensures streams { (result.status ≢ Status.WriteFault) × (result.status ≢ Status.ReadFault) }
    ensures disk_fault { result.status ≡ Status.DiskFault → fault ≡ FoundFault.DiskFault }
{
    match fault {
        FoundFault::Already => Reply::says(Status::Refused, ALREADY),
        FoundFault::DiskFault => Reply::says(Status::DiskFault, DISK_FAULT),
        FoundFault::NoMemory => Reply::no_memory(),
    }
}

/// Founds a service on a disk that isn't founded. The line that tells it is made before.
fn found_on<D: Disk>(
    alloc: Global,
    disk: &mut D,
    settings: &Settings,
    identity: &[u8; 96],
    now: u64,
) -> Reply
    requires free { (f : List ℕ) → D.content disk.old ≡ Some f → is_founded f ≡ false }
    requires first { Allowed [] (founding settings.now now) }
    ensures reply { IsFoundReply (run_of D.content D.images D.moment D.left_since disk.old disk.new) identity.now (founding settings.now now) result.status (text_of result.text) }
    ensures streams { (result.status ≢ Status.WriteFault) × (result.status ≢ Status.ReadFault) }
    ensures disk_fault { result.status ≡ Status.DiskFault → Rose (D.faults disk.old) (D.faults disk.new) }
{
    let done = match founded_line(alloc, identity) {
        Ok(done) => done,
        Err(_) => return Reply::no_memory(),
    };
    match Desk::found(alloc, &mut *disk, settings, now) {
        Ok(desk) => {
            desk.stands_for_its_disk();
            let _disk = desk.into_disk();
            Reply::made(Status::Done, done)
        }
        Err(failed) => {
            let fault = failed.1;
            let _disk = disk_of(failed);
            unfounded_reply(fault)
        }
    }
}

/// Founds a service on the disk, unless it is founded. Such a disk stays as it was, also where it fails.
fn found_once<D: Disk>(
    alloc: Global,
    disk: &mut D,
    settings: &Settings,
    identity: &[u8; 96],
    now: u64,
) -> Reply
    requires { Allowed [] (founding settings.now now) }
    ensures reply { IsFoundReply (run_of D.content D.images D.moment D.left_since disk.old disk.new) identity.now (founding settings.now now) result.status (text_of result.text) }
    ensures streams { (result.status ≢ Status.WriteFault) × (result.status ≢ Status.ReadFault) }
    ensures disk_fault { result.status ≡ Status.DiskFault → Rose (D.faults disk.old) (D.faults disk.new) }
{
    match is_founded(disk) {
        Ok(false) => found_on(alloc, disk, settings, identity, now),
        Ok(true) => Reply::says(Status::Refused, ALREADY),
        Err(_) => Reply::says(Status::DiskFault, DISK_FAULT),
    }
}

/// Founds a service with the settings of the input and the keys of the key file, at this time in seconds since 1970. The key file
/// is read once the settings are, and the disk once the keys are made.
pub fn run_init<D: Disk, S: Source, K: Source>(
    alloc: Global,
    key: &mut K,
    input: &mut S,
    disk: &mut D,
    now: u64,
) -> Reply
    requires { now ≤ 250000000000 }
    ensures told { ToldBoth (S.left input.old) (K.left key.old) (IsInitReply (run_of D.content D.images D.moment D.left_since disk.old disk.new) (source_run S.faults input.old input.new) (source_run K.faults key.old key.new) now) result.status (text_of result.text) }
    ensures taken { TakesUpTo file_most (S.left input.old) (S.left input.new) }
    ensures key_taken { TakesUpTo key_most (K.left key.old) (K.left key.new) }
    ensures read_fault { result.status ≡ Status.ReadFault → Rose (S.faults input.old) (S.faults input.new) ⊎ Rose (K.faults key.old) (K.faults key.new) }
    ensures no_write { result.status ≢ Status.WriteFault }
    ensures disk_fault { result.status ≡ Status.DiskFault → Rose (D.faults disk.old) (D.faults disk.new) }
{
    let settings = match read_file(alloc, input) {
        Ok(settings) => settings,
        Err(unread) => return unread_reply(alloc, unread),
    };
    let keys = match Keys::load(alloc, key, &settings) {
        Ok(keys) => keys,
        Err(fault) => return unloaded_reply(fault),
    };
    let identity = keys.identity();
    let settings = with_keys(settings, &keys);
    found_once(alloc, disk, &settings, &identity, now)
}
