//! When a base is worth its time, and how much of the device is left for one.
ghost use Rattle.std.specs.Prelude.{◌≡◌, ◌+◌, ◌≤◌, ◌<◌, ◌↔◌, true, false, IsTrue};

use cq_base::ChainSize;

/// How many regions of lines there are at least before a rewrite, if there is space for them.
const LEAST: usize = 4;

/// How many times as many regions of lines as of a base there are before a rewrite, if there is space for them.
const TIMES: usize = 2;

/// So much of a region is filled before a rewrite is tried again that had no space.
const PARTS: usize = 16;

/// Where little room is left, a rewrite that had no space is tried again behind at most so many records.
const LONGEST_PAUSE: u32 = 16;

/// Before a rewrite there are lines of such a part of the bytes of the base.
const FEW: usize = 8;

/// How many bytes a message takes more in a base once it was handed out.
const HANDED: u64 = 24;

/// Where lines find no space, there is a rewrite behind such a part of as many lines as the store has messages.
const QUARTER: u64 = 4;

/// When the next rewrite is due, by the bytes of lines since the last one or since one that had no space. So the time of
/// rewrites is in proportion to that of lines, and half of the free space is left for a base. Once lines found too little room, it is
/// due earlier, and where it had no space it is tried again behind 2, 4, 8 and then 16 records: a few deletes may have
/// made the space that it lacked.
///
/// And how much may be used behind lines that add something, so that a base always finds space: four ninths of all regions but the one
/// that an opening needs, less what the messages of the base take more once they are handed out. A store takes no more than
/// the lines that made it, but for the bodies that its clients received last. So no base takes more than four ninths; with
/// an eighth of that in lines behind it half is used, and the next base finds the other half. A rewrite is due once three
/// quarters of what a base left are used, so that lines that add something find the rest.
#[derive(Clone, Copy, Debug, PartialEq, Eq)]
pub struct Schedule {
    /// The length of a region.
    region: usize,
    /// For how many regions the device has space.
    capacity: usize,
    /// How many bytes may be used for a base.
    share: usize,
    /// How many may be used behind a line that adds something.
    limit: usize,
    /// How many bytes the base took when it was written.
    base: usize,
    /// How many bytes of lines there are since then.
    behind: usize,
    /// How many there are when the next rewrite is due.
    due: usize,
    /// How many there are when it is due where lines find no space.
    soon: usize,
    /// Whether there was too little room for lines since the last rewrite.
    is_tight: bool,
    /// How many records of lines there are since a rewrite was tried.
    records: u32,
    /// How many there are when it is tried again, where lines find too little room or no space.
    pause: u32,
    /// How many lines had ended when it was tried.
    lines: u64,
    /// How many lines there are behind them when it is tried again, where lines find no space.
    enough: u64,
}

/// How many bytes of so many regions may be used for a base. A session on more servers than one has none.
fn share_of(size: ChainSize, region: usize, capacity: usize) -> usize {
    if size.get() > 1 {
        return region.saturating_mul(capacity);
    }
    let regions = capacity.saturating_sub(1).max(1);
    (region.saturating_mul(regions) / 9).saturating_mul(4)
}

impl Schedule {
    /// Of a session on so many servers, whose device has this length behind the root.
    pub fn new(size: ChainSize, region: usize, len: usize) -> Schedule {
        let capacity = len.checked_div(region).unwrap_or(0);
        let mut schedule = Schedule {
            region,
            capacity,
            share: share_of(size, region, capacity),
            limit: 0,
            base: 0,
            behind: 0,
            due: 0,
            soon: 0,
            is_tight: false,
            records: 0,
            pause: 1,
            lines: 0,
            enough: 1,
        };
        schedule.rewritten(0, 0, 0);
        schedule
    }

    /// Notes that a record of so many bytes of lines is kept.
    pub fn count(&mut self, bytes: usize) {
        self.behind = self.behind.saturating_add(bytes);
        self.records = self.records.saturating_add(1);
    }

    /// Notes that there was too little room for lines.
    pub fn tighten(&mut self) {
        self.is_tight = true;
    }

    /// Whether so many bytes more leave space for a base, where so many are used.
    pub fn has_space(&self, used: usize, more: usize) -> bool
        ensures { IsTrue result ↔ (used + more ≤ self.now.limit) }
    {
        more <= self.limit && used <= self.limit - more
    }

    /// Whether a rewrite is due, where so many bytes are used, lines of so many are to come, and so many lines have ended.
    pub fn is_due(&self, used: usize, coming: usize, lines: u64) -> bool
        ensures due { self.now.due ≤ self.now.behind → result ≡ true }
        ensures early { self.now.is_tight ≡ false → used + coming ≤ self.now.limit → self.now.behind < self.now.due → result ≡ false }
    {
        if self.behind >= self.due {
            return true;
        }
        if !self.is_tight && self.has_space(used, coming) {
            return false;
        }
        let are_enough = lines.saturating_sub(self.lines) >= self.enough;
        self.behind >= self.soon || (self.records >= self.pause && (self.is_tight || are_enough))
    }

    /// Notes that a base has taken the place of all: it takes so many bytes and has so many messages, and so many lines led to it.
    pub fn rewritten(&mut self, used: usize, messages: u64, lines: u64) {
        self.is_tight = false;
        self.pause = 1;
        self.begin_behind(used, messages);
        self.try_behind(messages, lines);
    }

    /// Notes that all is read: so many bytes are used, with the lines behind the base that were counted, and there are so many messages.
    pub fn opened(&mut self, used: usize, messages: u64) {
        let behind = self.behind;
        self.begin_behind(used.saturating_sub(behind), messages);
        self.behind = behind;
    }

    /// Notes that there was no space beside so many regions for a base of so many messages, behind so many lines.
    pub fn refused(&mut self, regions: usize, messages: u64, lines: u64) {
        self.pause = self.pause.saturating_mul(2).min(LONGEST_PAUSE);
        let free = self.capacity.saturating_sub(regions);
        let wanted = self.region.saturating_mul(free / 2);
        self.begin(wanted.max(self.region / PARTS));
        self.try_behind(messages, lines);
    }

    /// Begins to count behind a base of so many bytes and messages.
    fn begin_behind(&mut self, base: usize, messages: u64) {
        let more = messages.saturating_mul(HANDED) as usize;
        self.base = base;
        self.limit = self.share.saturating_sub(more);
        let regions = base.checked_div(self.region).unwrap_or(0).saturating_add(1);
        let free = self.capacity.saturating_sub(regions);
        let wanted = regions.saturating_mul(TIMES).max(LEAST);
        let most = self.region.saturating_mul(wanted.min(free / 2).max(1));
        let left = self.limit.saturating_sub(base);
        let early = left.saturating_sub(left / 4).max(base / FEW);
        self.begin(early.min(most));
    }

    fn begin(&mut self, due: usize) {
        self.behind = 0;
        self.due = due;
        self.soon = due.min((self.base / FEW).max(self.region / PARTS));
        self.records = 0;
    }

    /// Where lines find no space, the next rewrite waits for some lines more than these, by so many messages of the store.
    fn try_behind(&mut self, messages: u64, lines: u64) {
        self.lines = lines;
        self.enough = (messages / QUARTER).max(1);
    }
}
