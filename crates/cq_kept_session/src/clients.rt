//! The clients of the lines that were kept.
use cq_base::NoMemory;
use cq_events::Event;
use cq_script::{Line, LineFault, cut_line, event_of};
use std::alloc::Global;

/// The highest numbers of clients, 0 where there are none. A client of a new run begins above them.
#[derive(Clone, Copy, Debug, PartialEq, Eq)]
pub struct Highest {
    /// In requests.
    pub clients: u32,
    /// In queries.
    pub queriers: u32,
}

impl Highest {
    /// Of no lines.
    pub(crate) fn none() -> Highest {
        Highest {
            clients: 0,
            queriers: 0,
        }
    }

    /// With those of the lines that end in a text. It reads each line once more than a run does.
    pub(crate) fn with_lines(self, alloc: Global, text: &[u8]) -> Result<Highest, NoMemory> {
        let mut highest = self;
        let mut rest = text;
        while let Some((line, later)) = cut_line(rest) {
            match event_of(alloc, line) {
                Ok(Line::Event(event)) => highest = highest.with(&event),
                Ok(_) | Err(LineFault::Bad) => (),
                Err(LineFault::NoMemory) => return Err(NoMemory),
            }
            rest = later;
        }
        Ok(highest)
    }

    fn with(self, event: &Event) -> Highest {
        match event {
            Event::Arrive { request, .. } => Highest {
                clients: self.clients.max(request.client),
                queriers: self.queriers,
            },
            Event::Ask { query, .. } => Highest {
                clients: self.clients,
                queriers: self.queriers.max(query.client),
            },
            _ => self,
        }
    }
}
