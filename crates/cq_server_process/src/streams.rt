//! Streams of arrivals.
ghost use Rattle.std.specs.Prelude.{◌≡◌};
ghost use Rattle.cq_server_process.specs.Answers.{ended_with, has_ended};

/// Which streams of arrivals have ended: all up to one. Streams are numbered from 1.
#[derive(Drop)]
pub struct Streams {
    ended: u64,
}

impl Streams {
    /// None has ended.
    pub fn new() -> Streams
        ensures { result.ended ≡ 0 }
    {
        Streams { ended: 0 }
    }

    /// Whether that stream has ended, if there is one: O(1).
    pub fn has_ended(&self, stream: Option<u64>) -> bool
        ensures { result ≡ has_ended self.now.ended stream }
    {
        match stream {
            Some(stream) => stream <= self.ended,
            None => false,
        }
    }

    /// That stream ends, if there is one, and all lower ones: O(1).
    pub fn end(&mut self, stream: Option<u64>)
        ensures { self.new.ended ≡ ended_with self.old.ended stream }
    {
        if let Some(stream) = stream {
            if self.ended < stream {
                self.ended = stream;
            }
        }
    }
}
