//! The command that answers one message.
ghost use Rattle.std.specs.Prelude.{◌≡◌, ◌≢◌, ◌⊎◌, ◌+◌, ◌≤◌, ◌++◌, ℕ, List, length, take, None, IfOk, IfErr, IfSome, OnOk, true, false};
ghost use Rattle.hex.specs.Hex.{encode_lower};
ghost use Rattle.cmp_ports.specs.Coming.{Gives};
ghost use Rattle.cmp_ports.specs.Disk.{LeavesOnly};
ghost use Rattle.cmp_ports.specs.Faults.{Rose};
ghost use Rattle.cmp_ports.specs.Whole.{TakesUpTo};
ghost use Rattle.deal_model.specs.Views.{settings_of};
ghost use Rattle.deal_table.specs.History.{IsFounded};
ghost use Rattle.desk.specs.History.{history_of};
ghost use Rattle.pki_message.specs.Frame.{message_limit};
ghost use Rattle.reply_maker.specs.Keys.{AreUsable, Loaded, IsLoad};
ghost use Rattle.reply_maker.specs.Keys as reply_maker;
ghost use Rattle.reply_maker.specs.Replies.{replier_of};
ghost use Rattle.cmpca_tool.specs.Lines.{line};
ghost use Rattle.cmpca_tool.specs.Changes.{run_of};
ghost use Rattle.cmpca_tool.specs.Takes.{IsTakeReply, whole_identity, mismatch_lines};
ghost use Rattle.cmpca_tool.specs.Takings.{IsKeyReply, IsWhyUntaken, is_keyless, IsUntakenReply, IsAnswering, device_status, outcome_status, taken_status, taken_text};
ghost use Rattle.cmpca_tool.specs.Sources.{devices_of, ToldBoth, message_most, key_most};
ghost use Rattle.cmpca_tool.specs.Texts.{text_of};

use crate::ending::disk_of;
use crate::reply::{Reply, unmounted};
use crate::status::{Identity, Status};
use cmp_ports::{
    Answered, Answerer, Clock, Disk, Entropy, Gate, Octets, Outcome, Point, ReadError, Source,
    read_up_to,
};
use deal_model::{Change, Settings};
use desk::{Desk, SoleClerk};
use desk_laws::at_most_one_answer;
use front::{Device, Front};
use pki_message::MESSAGE_LIMIT;
use reply_maker::{KeyFault, Keys};
use std::alloc::{AllocError, Global};

/// A gate that nobody watches.
#[derive(Drop)]
struct NoGate;

impl Gate for NoGate {
    fn pass(&mut self, _point: Point) {}
}

/// A message, and the keys that it is answered under.
#[derive(Drop)]
struct Request {
    keys: Keys,
    octets: Vec<u8>,
}

/// Why there is no message to answer.
#[derive(Clone, Copy)]
enum Untaken {
    /// The key file gives no keys.
    Keyless(KeyFault),
    /// The input failed.
    ReadFault,
    /// Memory ran out.
    NoMemory,
}

/// How a message was answered, which device failed, and the reply.
#[derive(Drop)]
struct Taken {
    answered: Answered,
    failed: Option<Device>,
    reply: Octets,
}

/// An identity of 96 octets, as a status carries it.
fn whole_identity(octets: [u8; 96]) -> Identity
    ensures { result ≡ whole_identity octets }
{
    Identity { octets, length: 96 }
}

/// Puts a line behind a text: a title, and an identity in hex.
fn append_identity(text: &mut Octets, title: &[u8], identity: &[u8; 96]) -> Result<(), AllocError>
    ensures { OnOk result (text.new ≡ text.old ++ line (title.now ++ encode_lower identity.now)) }
{
    let mut digits = [0u8; 192];
    text.append(title)?;
    match hex::encode_to_slice(identity.as_slice(), &mut digits) {
        Ok(()) => text.append(&digits)?,
        Err(_) => unreachable!(),
    }
    text.append(b"\n")?;
    Ok(())
}

/// The lines that tell two identities, that of the key file and the journal's.
fn mismatch_lines(alloc: Global, file: &[u8; 96], journal: &[u8; 96]) -> Result<Octets, AllocError>
    ensures { IfOk result (λ text. text ≡ mismatch_lines file.now journal.now) }
{
    let mut text = Octets::empty(alloc);
    text.append(b"key mismatch\n")?;
    append_identity(&mut text, b"file ", file)?;
    append_identity(&mut text, b"journal ", journal)?;
    Ok(text)
}

/// The reply of a run whose key file is another authority's.
fn mismatch_reply(alloc: Global, file: [u8; 96], journal: [u8; 96]) -> Reply
    ensures reply { IsKeyReply (KeyFault.KeyMismatch file journal) result.status (text_of result.text) }
    ensures devices { (result.status ≢ Status.WriteFault) × (result.status ≢ Status.ReadFault) × (result.status ≢ Status.DiskFault) }
{
    let text = match mismatch_lines(alloc, &file, &journal) {
        Ok(text) => text,
        Err(_) => return Reply::no_memory(),
    };
    let status = Status::KeyMismatch {
        file: whole_identity(file),
        journal: whole_identity(journal),
    };
    Reply::made(status, text)
}

/// The reply of a run whose key file gives no keys.
pub fn keyless_reply(alloc: Global, fault: KeyFault) -> Reply
    ensures reply { IsKeyReply fault result.status (text_of result.text) }
    ensures read_fault { result.status ≡ Status.ReadFault → fault ≡ KeyFault.ReadFault }
    ensures devices { (result.status ≢ Status.WriteFault) × (result.status ≢ Status.DiskFault) }
{
    match fault {
        KeyFault::ReadFault => Reply::read_fault(),
        KeyFault::BadKeyFile => Reply::says(Status::BadKeyFile, b"bad key file\n"),
        KeyFault::KeyMismatch { file, journal } => mismatch_reply(alloc, file, journal),
        KeyFault::NoMemory => Reply::no_memory(),
    }
}

/// How a run ends where a device failed.
fn device_status(failed: Option<Device>) -> Status
    ensures status { result ≡ device_status failed }
    ensures no_write { result ≢ Status.WriteFault }
{
    match failed {
        Some(Device::Entropy) => Status::ReadFault,
        Some(Device::Disk) | None => Status::DiskFault,
    }
}

/// How a run ends whose message ended so.
fn outcome_status(outcome: Outcome, failed: Option<Device>) -> Status
    ensures status { result ≡ outcome_status outcome failed }
    ensures no_write { result ≢ Status.WriteFault }
{
    match outcome {
        Outcome::Done | Outcome::Again => Status::Done,
        Outcome::Refused(_) => Status::Refused,
        Outcome::SystemFailure => device_status(failed),
    }
}

/// The reply of a run whose message was answered.
fn taken_reply(taken: Taken) -> Reply
    requires { taken.answered ≢ Answered.Failed }
    ensures ends { result.status ≡ taken_status taken.answered taken.failed }
    ensures says { text_of result.text ≡ taken_text taken.answered taken.reply }
    ensures no_write { result.status ≢ Status.WriteFault }
{
    match taken.answered {
        Answered::Replied(note) => {
            Reply::made(outcome_status(note.outcome, taken.failed), taken.reply)
        }
        Answered::Failed => unreachable!(),
        Answered::NoMemory => Reply::no_memory(),
    }
}

/// The settings that the history of a desk was founded with.
pub fn settings_at<F: Disk>(desk: &Desk<F>) -> &Settings
    ensures same { result.now ≡ settings_of (history_of desk.now) }
    ensures usable { AreUsable result.now }
    ensures founded { IsFounded (history_of desk.now) }
{
    desk.stands_for_its_disk();
    match desk.change_at(1) {
        Change::Found(settings) => settings,
        _ => unreachable!(),
    }
}

/// Reads the key file under the settings of a history, and then a message to its end, at most one octet past its limit.
fn read_request<S: Source, K: Source>(
    alloc: Global,
    key: &mut K,
    input: &mut S,
    settings: &Settings,
) -> Result<Request, Untaken>
    requires { AreUsable settings.now }
    ensures keys { IfOk result (λ r. IsLoad (K.left key.old) settings.now (Ok r.keys)) }
    ensures octets { IfOk result (λ r. IfSome (S.left input.old) (λ all. r.octets.items ≡ take (message_limit + 1) all)) }
    ensures bound { IfOk result (λ r. length r.octets.items ≤ message_limit + 1) }
    ensures unread { IfErr result (IsWhyUntaken (K.left key.old) settings.now) }
    ensures untouched { IfErr result (λ untaken. is_keyless untaken ≡ true → input.new ≡ input.old) }
    ensures taken { TakesUpTo message_most (S.left input.old) (S.left input.new) }
    ensures key_taken { TakesUpTo key_most (K.left key.old) (K.left key.new) }
    ensures input_fault { result ≡ Err Untaken.ReadFault → Rose (S.faults input.old) (S.faults input.new) }
    ensures key_fault { result ≡ Err (Untaken.Keyless KeyFault.ReadFault) → Rose (K.faults key.old) (K.faults key.new) }
{
    let keys = match Keys::load(alloc, key, settings) {
        Ok(keys) => keys,
        Err(fault) => return Err(Untaken::Keyless(fault)),
    };
    match read_up_to(alloc, input, MESSAGE_LIMIT) {
        Ok(octets) => Ok(Request { keys, octets }),
        Err(ReadError::Fault) => Err(Untaken::ReadFault),
        Err(ReadError::NoMemory) => Err(Untaken::NoMemory),
    }
}

/// The reply of a run that has no message to answer.
fn untaken_reply(alloc: Global, untaken: Untaken) -> Reply
    ensures reply { IsUntakenReply untaken result.status (text_of result.text) }
    ensures read_fault { result.status ≡ Status.ReadFault → (untaken ≡ Untaken.ReadFault) ⊎ (untaken ≡ Untaken.Keyless KeyFault.ReadFault) }
    ensures devices { (result.status ≢ Status.WriteFault) × (result.status ≢ Status.DiskFault) }
{
    match untaken {
        Untaken::Keyless(fault) => keyless_reply(alloc, fault),
        Untaken::ReadFault => Reply::read_fault(),
        Untaken::NoMemory => Reply::no_memory(),
    }
}

/// Answers a message under the keys that were read, at a desk where nothing is in doubt.
fn answer_on<F: Disk, C: Clock, E: Entropy>(
    alloc: Global,
    request: &Request,
    desk: &mut Desk<F>,
    clock: &mut C,
    entropy: &mut E,
) -> Taken
    requires clear { desk.old.doubt ≡ None }
    requires founded { IsFounded (history_of desk.old) }
    requires settings { settings_of (history_of desk.old) ≡ request.now.keys.settings }
    ensures answering { IsAnswering (replier_of request.now.keys.file request.now.keys.settings) request.now.octets.items (Gives (C.readings clock.old) (C.readings clock.new)) (Gives (E.draws entropy.old) (E.draws entropy.new)) (LeavesOnly F.moment F.left_since desk.old.disk desk.new.disk) (history_of desk.old) (history_of desk.new) desk.new.doubt (taken_status result.answered result.failed) (taken_text result.answered result.reply) }
    ensures always { result.answered ≢ Answered.Failed }
    ensures disk_fault { taken_status result.answered result.failed ≡ Status.DiskFault → Rose (F.faults desk.old.disk) (F.faults desk.new.disk) }
    ensures entropy_fault { taken_status result.answered result.failed ≡ Status.ReadFault → Rose (E.faults entropy.old) (E.faults entropy.new) }
    ensures loan { F.loan desk.new.disk ≡ F.loan desk.old.disk }
{
    let mut reply = Octets::empty(alloc);
    let clerk = SoleClerk::new(desk);
    let mut front = Front::new(
        alloc,
        &request.keys,
        clerk,
        &mut *clock,
        &mut *entropy,
        NoGate,
    );
    let answered = front.answer(request.octets.as_slice(), &mut reply);
    let failed = front.failed();
    let (clerk, clock_back, entropy_back, _gate) = front.into_parts();
    let _desk = clerk.into_desk();
    let _read = clock_back;
    let _drawn = entropy_back;
    Taken {
        answered,
        failed,
        reply,
    }
}

/// Answers the message of the input over the history that the disk holds, with the keys of the key file. The disk is mounted first;
/// then the key file is read, and then the input; then the clock is read and words are drawn, each once. Where one of these ends the
/// run, nothing of those behind it is read.
pub fn run_take<D: Disk, S: Source, K: Source, C: Clock, E: Entropy>(
    alloc: Global,
    key: &mut K,
    input: &mut S,
    disk: &mut D,
    clock: &mut C,
    entropy: &mut E,
) -> Reply
    ensures told { ToldBoth (S.left input.old) (K.left key.old) (IsTakeReply (run_of D.content D.images D.moment D.left_since disk.old disk.new) (devices_of S.faults K.faults E.faults input.old input.new key.old key.new clock.old clock.new entropy.old entropy.new) (Gives (C.readings clock.old) (C.readings clock.new)) (Gives (E.draws entropy.old) (E.draws entropy.new))) result.status (text_of result.text) }
    ensures taken { TakesUpTo message_most (S.left input.old) (S.left input.new) }
    ensures key_taken { TakesUpTo key_most (K.left key.old) (K.left key.new) }
    ensures read_fault { result.status ≡ Status.ReadFault → (Rose (S.faults input.old) (S.faults input.new) ⊎ Rose (K.faults key.old) (K.faults key.new)) ⊎ Rose (E.faults entropy.old) (E.faults entropy.new) }
    ensures no_write { result.status ≢ Status.WriteFault }
    ensures disk_fault { result.status ≡ Status.DiskFault → Rose (D.faults disk.old) (D.faults disk.new) }
{
    at_most_one_answer();
    let mut desk = match Desk::mount(alloc, &mut *disk) {
        Ok(desk) => desk,
        Err(failed) => {
            let fault = failed.1;
            let _disk = disk_of(failed);
            return unmounted(alloc, fault);
        }
    };
    match read_request(alloc, key, input, settings_at(&desk)) {
        Ok(request) => {
            let taken = answer_on(alloc, &request, &mut desk, clock, entropy);
            desk.stands_for_its_disk();
            let _disk = desk.into_disk();
            taken_reply(taken)
        }
        Err(untaken) => {
            desk.stands_for_its_disk();
            let _disk = desk.into_disk();
            untaken_reply(alloc, untaken)
        }
    }
}
