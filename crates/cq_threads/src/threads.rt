//! Nodes on threads of their own.
ghost use Rattle.cq_nodes.specs.ClientNodes.{IsSameClient};
ghost use Rattle.cq_nodes.specs.MasterNodes.{IsSameNode};
ghost use Rattle.cq_nodes.specs.Nodes.{IsSameServer};
ghost use Rattle.cq_threads.specs.SameNodes.{AreSame};
ghost use Rattle.std.specs.Prelude.{◌≡◌, IfOk, map};

use crate::fault::ThreadFault;
use cq_base::Request;
use cq_chain::Message;
use cq_link::{PutEnd, TakeEnd};
use cq_nodes::{ClientNode, Flags, Gate, MasterNode, ServerNode, Stop};
use std::alloc::Global;
use std::snapshot::Snapshot;
use std::sync::Wait;
use std::thread;
use std::thread::{Promise, PromisedHandle, Scope, Threads};

/// A server's node comes back with ends of the same links.
#[derive(Drop)]
struct SameServer<
    'a,
    P: PutEnd<Message> + Drop,
    T: TakeEnd<Message> + Drop,
    I: TakeEnd<Request> + Drop,
> {
    was: Snapshot<ServerNode<'a, P, T, I>>,
}

impl<'a, P: PutEnd<Message> + Drop, T: TakeEnd<Message> + Drop, I: TakeEnd<Request> + Drop> Promise<
    ServerNode<'a, P, T, I>,
> for SameServer<'a, P, T, I> {
    ghost kept_by = { λ p r. IsSameServer P.link T.link I.link p.was.value r };
}

/// So does the master's.
#[derive(Drop)]
struct SameMaster<'a, P: PutEnd<Message> + Drop, T: TakeEnd<Message> + Drop> {
    was: Snapshot<MasterNode<'a, P, T>>,
}

impl<'a, P: PutEnd<Message> + Drop, T: TakeEnd<Message> + Drop> Promise<MasterNode<'a, P, T>>
    for SameMaster<'a, P, T> {
    ghost kept_by = { λ p r. IsSameNode P.link T.link p.was.value r };
}

/// So does a client's.
#[derive(Drop)]
struct SameClient<'a, Q: PutEnd<Request> + Drop, T: TakeEnd<Message> + Drop> {
    was: Snapshot<ClientNode<'a, Q, T>>,
}

impl<'a, Q: PutEnd<Request> + Drop, T: TakeEnd<Message> + Drop> Promise<ClientNode<'a, Q, T>>
    for SameClient<'a, Q, T> {
    ghost kept_by = { λ p r. IsSameClient Q.link T.link p.was.value r };
}

/// A server's node after its run. Where its gate is shut, all nodes are to stop.
fn run_server<
    'a,
    R: Wait,
    G: Gate,
    P: PutEnd<Message> + Drop,
    T: TakeEnd<Message> + Drop,
    I: TakeEnd<Request> + Drop,
>(
    rt: &R,
    mut node: ServerNode<'a, P, T, I>,
    turns: u64,
    gate: &G,
    flags: &Flags,
) -> ServerNode<'a, P, T, I>
    ensures { IsSameServer P.link T.link I.link node.entry result }
{
    if node.run(rt, turns, gate) == Stop::Shut {
        flags.stop();
    }
    node
}

/// The master's node after its run. Where its gate is shut, all nodes are to stop.
fn run_master<'a, R: Wait, G: Gate, P: PutEnd<Message> + Drop, T: TakeEnd<Message> + Drop>(
    rt: &R,
    mut node: MasterNode<'a, P, T>,
    turns: u64,
    gate: &G,
    flags: &Flags,
) -> MasterNode<'a, P, T>
    ensures { IsSameNode P.link T.link node.entry result }
{
    if node.run(rt, turns, gate) == Stop::Shut {
        flags.stop();
    }
    node
}

/// A client's node after its run.
fn run_client<'a, R: Wait, Q: PutEnd<Request> + Drop, T: TakeEnd<Message> + Drop>(
    rt: &R,
    mut node: ClientNode<'a, Q, T>,
    turns: u64,
) -> ClientNode<'a, Q, T>
    ensures { IsSameClient Q.link T.link node.entry result }
{
    node.run(rt, turns);
    node
}

/// The thread of a server's node.
type ServerThread<'a, P, T, I> = PromisedHandle<ServerNode<'a, P, T, I>, SameServer<'a, P, T, I>>;

/// The thread of the master's node.
type MasterThread<'a, P, T> = PromisedHandle<MasterNode<'a, P, T>, SameMaster<'a, P, T>>;

/// The thread of a client's node.
type ClientThread<'a, Q, T> = PromisedHandle<ClientNode<'a, Q, T>, SameClient<'a, Q, T>>;

/// Starts a server's node. Where that can't be, all nodes are to stop.
fn start_server<
    's,
    'a: 's,
    E: 's,
    R: Wait + Sync,
    G: Gate + Sync,
    P: PutEnd<Message> + Drop + Send + 's,
    T: TakeEnd<Message> + Drop + Send + 's,
    I: TakeEnd<Request> + Drop + Send + 's,
>(
    scope: &Scope<'s, E>,
    rt: &'s R,
    node: ServerNode<'a, P, T, I>,
    turns: u64,
    gate: &'s G,
    flags: &'s Flags,
) -> Result<ServerThread<'a, P, T, I>, ThreadFault>
    ensures { IfOk result (λ thread. thread.promise.was.value ≡ node.entry) }
{
    let same = SameServer {
        was: Snapshot::of(&node),
    };
    match scope.spawn_with(same, move || run_server(rt, node, turns, gate, flags)) {
        Ok(thread) => Ok(thread),
        Err(_refused) => {
            flags.stop();
            Err(ThreadFault::SpawnFailed)
        }
    }
}

/// Starts the servers' nodes, in order, up to one for which that can't be.
fn start_servers<
    's,
    'a: 's,
    E: 's,
    R: Wait + Sync,
    G: Gate + Sync,
    P: PutEnd<Message> + Drop + Send + 's,
    T: TakeEnd<Message> + Drop + Send + 's,
    I: TakeEnd<Request> + Drop + Send + 's,
>(
    scope: &Scope<'s, E>,
    rt: &'s R,
    alloc: Global,
    nodes: Vec<ServerNode<'a, P, T, I>>,
    turns: u64,
    gate: &'s G,
    flags: &'s Flags,
) -> Result<Vec<ServerThread<'a, P, T, I>>, ThreadFault>
    ensures { IfOk result (λ threads. map (λ thread. thread.promise.was.value) threads.items ≡ nodes.entry.items) }
{
    let mut threads = Vec::new(alloc);
    for node in nodes {
        threads.push(start_server(scope, rt, node, turns, gate, flags)?)?;
    }
    Ok(threads)
}

/// Starts the master's node. Where that can't be, all nodes are to stop.
fn start_master<
    's,
    'a: 's,
    E: 's,
    R: Wait + Sync,
    G: Gate + Sync,
    P: PutEnd<Message> + Drop + Send + 's,
    T: TakeEnd<Message> + Drop + Send + 's,
>(
    scope: &Scope<'s, E>,
    rt: &'s R,
    node: MasterNode<'a, P, T>,
    turns: u64,
    gate: &'s G,
    flags: &'s Flags,
) -> Result<MasterThread<'a, P, T>, ThreadFault>
    ensures { IfOk result (λ thread. thread.promise.was.value ≡ node.entry) }
{
    let same = SameMaster {
        was: Snapshot::of(&node),
    };
    match scope.spawn_with(same, move || run_master(rt, node, turns, gate, flags)) {
        Ok(thread) => Ok(thread),
        Err(_refused) => {
            flags.stop();
            Err(ThreadFault::SpawnFailed)
        }
    }
}

/// Starts a client's node. Where that can't be, all nodes are to stop.
fn start_client<
    's,
    'a: 's,
    E: 's,
    R: Wait + Sync,
    Q: PutEnd<Request> + Drop + Send + 's,
    T: TakeEnd<Message> + Drop + Send + 's,
>(
    scope: &Scope<'s, E>,
    rt: &'s R,
    node: ClientNode<'a, Q, T>,
    turns: u64,
    flags: &'s Flags,
) -> Result<ClientThread<'a, Q, T>, ThreadFault>
    ensures { IfOk result (λ thread. thread.promise.was.value ≡ node.entry) }
{
    let same = SameClient {
        was: Snapshot::of(&node),
    };
    match scope.spawn_with(same, move || run_client(rt, node, turns)) {
        Ok(thread) => Ok(thread),
        Err(_refused) => {
            flags.stop();
            Err(ThreadFault::SpawnFailed)
        }
    }
}

/// Joins the servers' threads.
fn join_servers<
    'a,
    R: Threads,
    P: PutEnd<Message> + Drop + Send,
    T: TakeEnd<Message> + Drop + Send,
    I: TakeEnd<Request> + Drop + Send,
>(
    rt: &R,
    threads: Vec<ServerThread<'a, P, T, I>>,
) -> Result<Vec<ServerNode<'a, P, T, I>>, ThreadFault>
    ensures { IfOk result (λ nodes. AreSame P.link T.link I.link (map (λ thread. thread.promise.was.value) threads.entry.items) nodes.items) }
{
    match thread::join_promised(rt, threads) {
        Ok(nodes) => Ok(nodes),
        Err(_left) => Err(ThreadFault::NoMemory),
    }
}

/// Runs the clients' nodes. It comes back once both have ended.
fn run_clients<
    's,
    'c: 's,
    'd: 's,
    E: 's,
    R: Threads + Wait + Sync,
    Q: PutEnd<Request> + Drop + Send + 's,
    T: TakeEnd<Message> + Drop + Send + 's,
>(
    scope: &Scope<'s, E>,
    rt: &'s R,
    first: ClientNode<'c, Q, T>,
    second: ClientNode<'d, Q, T>,
    turns: u64,
    flags: &'s Flags,
) -> Result<(ClientNode<'c, Q, T>, ClientNode<'d, Q, T>), ThreadFault>
    ensures first { IfOk result (λ ran. IsSameClient Q.link T.link first.entry ran.0) }
    ensures second { IfOk result (λ ran. IsSameClient Q.link T.link second.entry ran.1) }
{
    let first = start_client(scope, rt, first, turns, flags)?;
    let second = start_client(scope, rt, second, turns, flags)?;
    Ok((first.join(rt), second.join(rt)))
}

/// The nodes of the master and of the clients after their runs.
type Others<'a, 'c, 'd, P, T, Q> = (
    MasterNode<'a, P, T>,
    (ClientNode<'c, Q, T>, ClientNode<'d, Q, T>),
);

/// Runs the master's node, and beside it those of the clients. It comes back once all three have ended.
fn run_others<
    's,
    'a: 's,
    'c: 's,
    'd: 's,
    E: 's,
    R: Threads + Wait + Sync,
    G: Gate + Sync,
    P: PutEnd<Message> + Drop + Send + 's,
    T: TakeEnd<Message> + Drop + Send + 's,
    Q: PutEnd<Request> + Drop + Send + 's,
>(
    scope: &Scope<'s, E>,
    rt: &'s R,
    master: MasterNode<'a, P, T>,
    first: ClientNode<'c, Q, T>,
    second: ClientNode<'d, Q, T>,
    turns: u64,
    gate: &'s G,
    flags: &'s Flags,
) -> Result<Others<'a, 'c, 'd, P, T, Q>, ThreadFault>
    ensures master { IfOk result (λ ran. IsSameNode P.link T.link master.entry ran.0) }
    ensures first { IfOk result (λ ran. IsSameClient Q.link T.link first.entry ran.1.0) }
    ensures second { IfOk result (λ ran. IsSameClient Q.link T.link second.entry ran.1.1) }
{
    let master = start_master(scope, rt, master, turns, gate, flags)?;
    let clients = run_clients(scope, rt, first, second, turns, flags)?;
    Ok((master.join(rt), clients))
}

/// The nodes after their runs: the servers', the master's and the clients'.
type Ran<'a, 'b, 'c, 'd, P, T, I, Q> = (Vec<ServerNode<'b, P, T, I>>, Others<'a, 'c, 'd, P, T, Q>);

/// Runs the servers' nodes, and beside them the others. Where there is no thread or no memory for one of them, those that
/// run are to stop.
fn run_servers<
    's,
    'a: 's,
    'b: 's,
    'c: 's,
    'd: 's,
    E: 's,
    R: Threads + Wait + Sync,
    G: Gate + Sync,
    P: PutEnd<Message> + Drop + Send + 's,
    T: TakeEnd<Message> + Drop + Send + 's,
    I: TakeEnd<Request> + Drop + Send + 's,
    Q: PutEnd<Request> + Drop + Send + 's,
>(
    scope: &Scope<'s, E>,
    rt: &'s R,
    alloc: Global,
    master: MasterNode<'a, P, T>,
    servers: Vec<ServerNode<'b, P, T, I>>,
    first: ClientNode<'c, Q, T>,
    second: ClientNode<'d, Q, T>,
    turns: u64,
    gate: &'s G,
    flags: &'s Flags,
) -> Result<Ran<'a, 'b, 'c, 'd, P, T, I, Q>, ThreadFault>
    ensures servers { IfOk result (λ ran. AreSame P.link T.link I.link servers.entry.items ran.0.items) }
    ensures master { IfOk result (λ ran. IsSameNode P.link T.link master.entry ran.1.0) }
    ensures first { IfOk result (λ ran. IsSameClient Q.link T.link first.entry ran.1.1.0) }
    ensures second { IfOk result (λ ran. IsSameClient Q.link T.link second.entry ran.1.1.1) }
{
    let servers = start_servers(scope, rt, alloc, servers, turns, gate, flags)?;
    let others = run_others(scope, rt, master, first, second, turns, gate, flags)?;
    Ok((join_servers(rt, servers)?, others))
}

/// Runs all nodes, each on a thread of its own, for so many turns or until they have ended. Where a thread can't be
/// started, or there is no memory for the servers' threads, those that were are stopped. It comes back once all have ended.
pub(crate) fn run_all<
    'a,
    R: Threads + Wait + Sync,
    G: Gate + Sync,
    P: PutEnd<Message> + Drop + Send,
    T: TakeEnd<Message> + Drop + Send,
    I: TakeEnd<Request> + Drop + Send,
    Q: PutEnd<Request> + Drop + Send,
>(
    rt: &R,
    alloc: Global,
    master: MasterNode<'a, P, T>,
    servers: Vec<ServerNode<'a, P, T, I>>,
    first: ClientNode<'a, Q, T>,
    second: ClientNode<'a, Q, T>,
    turns: u64,
    gate: &G,
    flags: &Flags,
) -> Result<Ran<'a, 'a, 'a, 'a, P, T, I, Q>, ThreadFault>
    ensures servers { IfOk result (λ ran. AreSame P.link T.link I.link servers.entry.items ran.0.items) }
    ensures master { IfOk result (λ ran. IsSameNode P.link T.link master.entry ran.1.0) }
    ensures first { IfOk result (λ ran. IsSameClient Q.link T.link first.entry ran.1.1.0) }
    ensures second { IfOk result (λ ran. IsSameClient Q.link T.link second.entry ran.1.1.1) }
{
    thread::scope(
        thread::scope_env(),
        rt,
        move |scope| -> Result<Ran<P, T, I, Q>, ThreadFault>
            ensures servers { IfOk result (λ ran. AreSame P.link T.link I.link servers.entry.items ran.0.items) }
            ensures master { IfOk result (λ ran. IsSameNode P.link T.link master.entry ran.1.0) }
            ensures first { IfOk result (λ ran. IsSameClient Q.link T.link first.entry ran.1.1.0) }
            ensures second { IfOk result (λ ran. IsSameClient Q.link T.link second.entry ran.1.1.1) }
        {
            let ran = run_servers(
                scope, rt, alloc, master, servers, first, second, turns, gate, flags,
            );
            if ran.is_err() {
                flags.stop();
            }
            ran
        },
    )
}
