//! What is known of the links from and to all servers.
ghost use Rattle.std.specs.Prelude.{◌≡◌, ℕ, ◌+◌, ◌==◌, ◌&&◌, ◌<◌, true, false, OnOk, OnErr};
ghost use Rattle.cq_master_process.specs.Links.{counted, gone_of, is_open, put_of, taken_of, with_one};
ghost use Rattle.cq_master_process.specs.within.Writing.{Writes};
ghost use Rattle.cq_process.specs.declared.outgoing.TheConstants.{LINK_LIMIT};

use crate::link::Link;
use cq_base::{NoMemory, ServerId};
use cq_frames::PieceNumber;
use indexmap::IndexMap;
use std::alloc::Global;
use std::marker::Model;

/// What is known of the links from and to each server, found by a hash of the server.
#[derive(Drop)]
pub struct Links {
    links: IndexMap<ServerId, Link>,
}

impl Model for Links {
    ghost use Rattle.std.specs.Prelude.{List, ℕ};
    ghost use Rattle.cq_master_process.specs.declared.link.Link as rust_link;

    ghost Value = { List (ℕ × rust_link.Link) };

    ghost view = { λ l. l.links.entries };
}

impl Links {
    /// Nothing is known.
    pub fn new(alloc: Global) -> Links
        ensures taken { (id : ℕ) → taken_of result id ≡ 0 }
        ensures put { (id : ℕ) → put_of result id ≡ 0 }
        ensures gone { (id : ℕ) → gone_of result id ≡ false }
    {
        Links {
            links: IndexMap::new(alloc),
        }
    }

    /// What is known of that server: O(1).
    pub fn link(&self, id: ServerId) -> Link
        ensures taken { result.taken ≡ taken_of self.now id }
        ensures put { result.put ≡ put_of self.now id }
        ensures gone { result.is_gone ≡ gone_of self.now id }
    {
        match self.links.get(&id) {
            Some(link) => *link,
            None => Link {
                taken: 0,
                put: 0,
                is_gone: false,
            },
        }
    }

    /// The number of the last message that was put for that server: O(1).
    pub fn last_put(&self, id: ServerId) -> u64
        ensures { result ≡ put_of self.now id }
    {
        self.link(id).put
    }

    /// Whether that server is gone: O(1).
    pub fn is_gone(&self, id: ServerId) -> bool
        ensures { result ≡ gone_of self.now id }
    {
        self.link(id).is_gone
    }

    /// Whether that piece is the first one of the message behind the last one that was taken: O(1).
    pub fn is_next(&self, id: ServerId, number: PieceNumber) -> bool
        ensures is { result ≡ ((number.index == 0) && (number.message == taken_of self.now id + 1)) }
        ensures room { result ≡ true → taken_of self.now id < LINK_LIMIT }
    {
        let last = self.link(id).taken;
        let PieceNumber { message, index } = number;
        index == 0 && 0 < message && message - 1 == last
    }

    /// Makes room for what is known of that server: then a message of it is counted without memory.
    pub fn open(&mut self, id: ServerId) -> Result<(), NoMemory>
        ensures ok { OnOk result (is_open self.new id ≡ true) }
        ensures absent { OnErr result (is_open self.old id ≡ false) }
        ensures taken { taken_of self.new ≡ taken_of self.old }
        ensures put { put_of self.new ≡ put_of self.old }
        ensures gone { gone_of self.new ≡ gone_of self.old }
    {
        if self.links.contains_key(&id) {
            return Ok(());
        }
        let link = Link {
            taken: 0,
            put: 0,
            is_gone: false,
        };
        self.links.insert(id, link)?;
        Ok(())
    }

    /// Sets what is known of that server, for which there is room.
    fn set(&mut self, id: ServerId, link: Link)
        requires { is_open self.old id ≡ true }
        ensures writes { Writes self.old self.new id link }
        ensures open { is_open self.new id ≡ true }
    {
        match self.links.insert(id, link) {
            Ok(_) => (),
            Err(_) => unreachable!(),
        }
    }

    /// Counts one message more that was taken from that server, for which there is room: O(1).
    pub fn count_taken(&mut self, id: ServerId)
        requires open { is_open self.old id ≡ true }
        requires room { taken_of self.old id < LINK_LIMIT }
        ensures taken { taken_of self.new ≡ counted (taken_of self.old) id }
        ensures put { put_of self.new ≡ put_of self.old }
        ensures gone { gone_of self.new ≡ gone_of self.old }
    {
        let link = self.link(id);
        let more = Link {
            taken: link.taken + 1,
            put: link.put,
            is_gone: link.is_gone,
        };
        self.set(id, more);
    }

    /// Counts one message more that was put for that server, for which there is room: O(1).
    pub fn count_put(&mut self, id: ServerId)
        requires open { is_open self.old id ≡ true }
        requires room { put_of self.old id < LINK_LIMIT }
        ensures put { put_of self.new ≡ counted (put_of self.old) id }
        ensures taken { taken_of self.new ≡ taken_of self.old }
        ensures gone { gone_of self.new ≡ gone_of self.old }
        ensures open { is_open self.new id ≡ true }
    {
        let link = self.link(id);
        let more = Link {
            taken: link.taken,
            put: link.put + 1,
            is_gone: link.is_gone,
        };
        self.set(id, more);
    }

    /// That server, for which there is room, is gone: O(1).
    pub fn note_gone(&mut self, id: ServerId)
        requires { is_open self.old id ≡ true }
        ensures gone { gone_of self.new ≡ with_one (gone_of self.old) id }
        ensures taken { taken_of self.new ≡ taken_of self.old }
        ensures put { put_of self.new ≡ put_of self.old }
    {
        let link = self.link(id);
        let gone = Link {
            taken: link.taken,
            put: link.put,
            is_gone: true,
        };
        self.set(id, gone);
    }
}
