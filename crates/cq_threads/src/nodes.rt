//! All nodes of a run.
ghost use Rattle.std.specs.Prelude.{IfOk};
ghost use Rattle.cq_nodes.specs.ClientNodes.{IsSameClient};
ghost use Rattle.cq_nodes.specs.MasterNodes.{IsSameNode};
ghost use Rattle.cq_threads.specs.SameNodes.{AreSame};

use crate::fault::ThreadFault;
use crate::threads::run_all;
use cq_base::Request;
use cq_chain::Message;
use cq_link::{PutEnd, TakeEnd};
use cq_nodes::{ClientNode, Flags, Gate, MasterNode, ServerNode};
use std::alloc::Global;
use std::sync::Wait;
use std::thread::Threads;

/// The master's node, those of the servers in the order of their numbers, and those of the two clients.
#[derive(Drop)]
pub struct Nodes<
    'a,
    P: PutEnd<Message> + Drop,
    T: TakeEnd<Message> + Drop,
    I: TakeEnd<Request> + Drop,
    Q: PutEnd<Request> + Drop,
> {
    pub master: MasterNode<'a, P, T>,
    pub servers: Vec<ServerNode<'a, P, T, I>>,
    pub first: ClientNode<'a, Q, T>,
    pub second: ClientNode<'a, Q, T>,
}

impl<
    'a,
    P: PutEnd<Message> + Drop + Send,
    T: TakeEnd<Message> + Drop + Send,
    I: TakeEnd<Request> + Drop + Send,
    Q: PutEnd<Request> + Drop + Send,
> Nodes<'a, P, T, I, Q> {
    /// Runs each node on a thread of its own, for so many turns or until it has ended, and comes back once all threads have
    /// ended. Each turn of a server and of the master begins once the gate lets it. A gate that answers false stops all
    /// nodes, as does a thread that can't be started: `flags`, which must be those of the nodes, tells so from then on, and
    /// lets the nodes sleep between their turns. So nobody else may put anything for them. It waits for the threads, and
    /// takes memory for a handle for each server as its thread is started.
    pub fn run<R: Threads + Wait + Sync, G: Gate + Sync>(
        self,
        rt: &R,
        alloc: Global,
        turns: u64,
        gate: &G,
        flags: &Flags,
    ) -> Result<Nodes<'a, P, T, I, Q>, ThreadFault>
        ensures master { IfOk result (λ ran. IsSameNode P.link T.link self.entry.master ran.master) }
        ensures servers { IfOk result (λ ran. AreSame P.link T.link I.link self.entry.servers.items ran.servers.items) }
        ensures first { IfOk result (λ ran. IsSameClient Q.link T.link self.entry.first ran.first) }
        ensures second { IfOk result (λ ran. IsSameClient Q.link T.link self.entry.second ran.second) }
    {
        flags.let_sleep();
        let (servers, (master, (first, second))) = run_all(
            rt,
            alloc,
            self.master,
            self.servers,
            self.first,
            self.second,
            turns,
            gate,
            flags,
        )?;
        Ok(Nodes {
            master,
            servers,
            first,
            second,
        })
    }
}
