//! Lines of a script, written one after another.
use itoa::Buffer;
use std::alloc::Global;
use std::io;

/// Lines, the last of which may have begun.
#[derive(Drop)]
pub struct Lines {
    bytes: Vec<u8>,
}

impl Lines {
    pub fn new(alloc: Global) -> Lines {
        Lines {
            bytes: Vec::new(alloc),
        }
    }

    pub fn as_slice(&self) -> &[u8] {
        self.bytes.as_slice()
    }

    pub fn clear(&mut self) {
        self.bytes.clear();
    }

    /// Adds this text.
    pub fn text(&mut self, text: &str) -> io::Result<()> {
        self.bytes.extend_from_slice(text.as_bytes())?;
        Ok(())
    }

    /// Adds these bytes.
    pub fn bytes(&mut self, bytes: &[u8]) -> io::Result<()> {
        self.bytes.extend_from_slice(bytes)?;
        Ok(())
    }

    /// Adds this number, in decimal.
    pub fn number(&mut self, number: u64) -> io::Result<()> {
        let mut buffer = Buffer::new();
        self.bytes
            .extend_from_slice(buffer.format(number).as_bytes())?;
        Ok(())
    }

    /// Adds the name of a party.
    pub fn party(&mut self, party: Name) -> io::Result<()> {
        match party {
            Name::Server(number) => self.number(number),
            Name::Master => self.text("\"master\""),
            Name::Clients => self.text("\"clients\""),
        }
    }

    /// Adds the line of what is put or taken from one party to another.
    fn motion(&mut self, op: &str, from: Name, to: Name) -> io::Result<()> {
        self.text("{\"op\":\"")?;
        self.text(op)?;
        self.text("\",\"from\":")?;
        self.party(from)?;
        self.text(",\"to\":")?;
        self.party(to)?;
        self.text("}\n")
    }

    /// Adds the line of a put.
    pub fn put(&mut self, from: Name, to: Name) -> io::Result<()> {
        self.motion("put", from, to)
    }

    /// Adds the lines of a put and of the take of what was put.
    pub fn carry(&mut self, from: Name, to: Name) -> io::Result<()> {
        self.motion("put", from, to)?;
        self.motion("take", from, to)
    }

    /// Adds the line of what becomes of a server: it crashes, is detected, or joins.
    pub fn change(&mut self, op: &str, server: u64) -> io::Result<()> {
        self.text("{\"op\":\"")?;
        self.text(op)?;
        self.text("\",\"server\":")?;
        self.number(server)?;
        self.text("}\n")
    }
}

/// A party, as lines name it.
#[derive(Clone, Copy)]
pub enum Name {
    Server(u64),
    Master,
    Clients,
}
