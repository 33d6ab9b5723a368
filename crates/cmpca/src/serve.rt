//! The command that serves: over the sockets of one port, the real files, clocks and random octets.
ghost use Rattle.std.specs.Prelude.{◌≡◌, IfOk, length, map, string_bytes};
ghost use Rattle.cmpca_serve.specs.Words.{Serves};
ghost use Rattle.cmpca_serve.specs.declared.words.ServePlan.{ServePlan};

use crate::ENTROPY;
use crate::advice::{advise, tell_port, tell_why};
use crate::heard::Heard;
use cmp_ports::{
    FileDisk, FileEntropy, FileOrders, FileSource, OpenGate, Opening, StdSink, SysClock,
};
use cmpca_serve::{ServePlan, run_serve};
use cmpca_tool::Status;
use desk::FaultMarks;
use std::alloc::AllocError;
use std::net::{Net, TcpListener, TcpStream};
use std::sync::{Arc, Wait};
use std::thread::Threads;
use tcp_links::{TcpDoor, listen};
use workers::Station;

/// Where a worker of the program works.
type Post<'a> = Station<
    TcpDoor,
    SysClock<&'a HostRuntime>,
    FileEntropy<&'a HostRuntime>,
    OpenGate<&'a HostRuntime>,
>;

/// A post at the port's listener.
fn post_at(rt: &HostRuntime, listener: Option<Arc<TcpListener>>) -> Result<Post<'_>, AllocError> {
    Ok(Station {
        door: TcpDoor::new(listener),
        clock: SysClock::new(rt),
        entropy: FileEntropy::new(rt, String::from_str(rt.alloc(), ENTROPY)?),
        gate: OpenGate::new(rt),
    })
}

/// A post for each worker, all at one listener.
fn posts_of<'a>(
    rt: &'a HostRuntime,
    plan: &ServePlan,
    listener: &Option<Arc<TcpListener>>,
) -> Result<Vec<Post<'a>>, AllocError>
    ensures { IfOk result (λ posts. length posts.items ≡ plan.now.workers) }
{
    let mut posts = Vec::new(rt.alloc());
    for _ in 0..plan.workers {
        posts.push(post_at(rt, listener.clone()?)?)?;
    }
    Ok(posts)
}

/// The one listener of the port. Where the port can't be had there is none, and that is told.
fn listener_at<R: Net<Listener = TcpListener, Stream = TcpStream>>(
    rt: &HostRuntime,
    host: &R,
    plan: &ServePlan,
) -> Option<Arc<TcpListener>> {
    match listen(rt.alloc(), host, plan.port) {
        Ok(listener) => Some(listener),
        Err(error) => {
            tell_port(rt, plan.port, Some(error));
            None
        }
    }
}

/// Tells why the devices of a post failed, where they did. Answers whether they did.
fn tell_post(rt: &HostRuntime, plan: &ServePlan, post: &Post<'_>) -> bool {
    let port = tell_port(rt, plan.port, post.door.why());
    let entropy = tell_why(rt, post.entropy.path(), post.entropy.why());
    port || entropy
}

/// Serves as the words ask, by the threads and the sockets of the host, with these paths of the journal, the key file and the orders.
pub fn serve<R: Net<Listener = TcpListener, Stream = TcpStream> + Threads + Wait + Sync>(
    rt: &HostRuntime,
    host: &R,
    words: &[String],
    plan: &ServePlan,
    journal: String,
    key: String,
    orders: String,
    out: &mut Heard<StdSink>,
) -> Result<Status, AllocError>
    requires { (p : ServePlan) → Serves (map string_bytes words.now) p → plan.now ≡ p }
{
    let listener = listener_at(rt, host, plan);
    let mut posts = posts_of(rt, plan, &listener)?;
    let mut disk = FileDisk::new(rt, journal, Opening::Existing);
    let mut key = FileSource::new(rt, key);
    let mut orders = FileOrders::new(rt, orders);
    let mut clock = SysClock::new(rt);
    let mut gate = OpenGate::new(rt);
    let mut marks = FaultMarks::none();
    let status = run_serve(
        rt.alloc(),
        host,
        words,
        &mut key,
        &mut disk,
        &mut posts,
        &mut clock,
        &mut orders,
        &mut gate,
        &mut marks,
        out,
    );
    let mut told = listener.is_none();
    for post in &posts {
        told |= tell_post(rt, plan, post);
    }
    let files = [
        tell_why(rt, disk.path(), disk.why()),
        tell_why(rt, key.path(), key.why()),
        tell_why(rt, orders.path(), orders.why()),
        tell_why(rt, "standard output", out.out().why()),
    ];
    if !told && files == [false; 4] {
        advise(rt, status, out.first());
    }
    Ok(status)
}
