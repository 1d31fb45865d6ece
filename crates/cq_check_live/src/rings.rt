//! Ends of rings between the parties of a chain.
ghost use Rattle.std.specs.Prelude.{◌≡◌};

use crate::stop;
use cq_chain::Message;
use cq_link::{Full, Link, PutEnd, Putter, Taker};
use cq_nodes::Links;
use std::alloc::Global;
use std::io;
use std::marker::Model;
use std::sync::Wait;

/// The end of a ring that hands each message back once before it takes it.
#[derive(Drop)]
pub struct Reluctant {
    end: Putter<Message>,
    refused: bool,
}

impl PutEnd<Message> for Reluctant {
    ghost use Rattle.cq_link.specs.Links.{LinkId, putter_link, put_on};

    ghost Id = { LinkId };

    ghost list = { λ r. put_on r.end };

    ghost link = { λ r. putter_link r.end };

    fn put<R: Wait>(&mut self, _rt: &R, item: Message) -> Result<(), Full<Message>> {
        self.refused = !self.refused;
        if self.refused {
            return Err(Full(item));
        }
        self.end.put(item)
    }
}

impl Reluctant {
    pub fn of(end: Putter<Message>) -> Reluctant
        ensures { result.end ≡ end }
    {
        Reluctant {
            end,
            refused: false,
        }
    }
}

/// An end on which nothing was put.
#[derive(Drop)]
pub struct FreshPutter {
    end: Reluctant,
}

impl Model for FreshPutter {
    ghost use Rattle.std.specs.Prelude.{◌≡◌, []};
    ghost use Rattle.cq_link.specs.Links.{put_on};

    ghost Value = { Unit {0} };

    ghost view = { λ _. tt };

    ghost invariant = { λ f. put_on f.end.end ≡ [] };
}

/// An end from which nothing was taken.
#[derive(Drop)]
pub struct FreshTaker {
    end: Taker<Message>,
}

impl Model for FreshTaker {
    ghost use Rattle.std.specs.Prelude.{◌≡◌, []};
    ghost use Rattle.cq_link.specs.Links.{taken_from};

    ghost Value = { Unit {0} };

    ghost view = { λ _. tt };

    ghost invariant = { λ f. taken_from f.end ≡ [] };
}

/// The two ends of a new ring.
fn ring(alloc: Global, capacity: usize) -> io::Result<(FreshPutter, FreshTaker)> {
    let (putter, taker) = Link::make(alloc, capacity).map_err(|_| stop("no link"))?;
    Ok((
        FreshPutter {
            end: Reluctant::of(putter),
        },
        FreshTaker { end: taker },
    ))
}

/// The ends of links, by the party that has them.
#[derive(Drop)]
struct Ends {
    /// On which a party puts, to each other one.
    puts: Vec<Vec<FreshPutter>>,
    /// From which it takes, from each other one.
    takes: Vec<Vec<FreshTaker>>,
}

/// Room for the ends of so many parties.
fn no_ends(alloc: Global, parties: usize) -> io::Result<Ends> {
    let mut ends = Ends {
        puts: Vec::new(alloc),
        takes: Vec::new(alloc),
    };
    for _ in 0..parties {
        ends.puts
            .push(Vec::new(alloc))
            .map_err(|_| stop("no memory"))?;
        ends.takes
            .push(Vec::new(alloc))
            .map_err(|_| stop("no memory"))?;
    }
    Ok(ends)
}

/// Adds a ring from each party to each.
fn add_rings(alloc: Global, ends: &mut Ends, parties: usize, capacity: usize) -> io::Result<()> {
    for from in 0..parties {
        for to in 0..parties {
            let (put, take) = ring(alloc, capacity)?;
            ends.puts
                .get_mut(from)
                .ok_or(stop("no row"))?
                .push(put)
                .map_err(|_| stop("no memory"))?;
            ends.takes
                .get_mut(to)
                .ok_or(stop("no column"))?
                .push(take)
                .map_err(|_| stop("no memory"))?;
        }
    }
    Ok(())
}

/// The links of the master and of so many servers to each other, in order, over rings: the master's are to the servers alone,
/// those of a server are to the master and to all servers.
pub fn between(
    alloc: Global,
    servers: usize,
    capacity: usize,
) -> io::Result<Vec<Links<Reluctant, Taker<Message>>>> {
    let parties = servers.saturating_add(1);
    let mut ends = no_ends(alloc, parties)?;
    add_rings(alloc, &mut ends, parties, capacity)?;
    let mut all = Vec::new(alloc);
    for (row, column) in ends.puts.into_iter().zip(ends.takes) {
        let skipped = usize::from(all.is_empty());
        all.push(joined(alloc, row, column, skipped)?)
            .map_err(|_| stop("no memory"))?;
    }
    Ok(all)
}

/// The links with these ends, without the first few.
fn joined(
    alloc: Global,
    row: Vec<FreshPutter>,
    column: Vec<FreshTaker>,
    skipped: usize,
) -> io::Result<Links<Reluctant, Taker<Message>>> {
    let mut links = Links::new(alloc);
    for (put, take) in row.into_iter().zip(column).skip(skipped) {
        links.add(put.end, take.end).map_err(|_| stop("no memory"))?;
    }
    Ok(links)
}
