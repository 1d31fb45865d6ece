//! Which letters a queue hands out, as far as a consumer that ends with each of them can tell.
use std::alloc::Global;
use std::collections::{BTreeMap, VecDeque};
use std::io;

/// A letter that waits.
#[derive(Clone, Copy)]
struct Letter {
    number: u64,
    /// How many times it has been handed out.
    handings: u64,
}

/// A letter in the hands of a consumer.
#[derive(Clone, Copy)]
pub struct Handed {
    group: usize,
    pub letter: u64,
    /// Which of the letter's handings this is, from 1.
    pub handing: u64,
}

/// The letters that wait in a queue.
#[derive(Drop)]
pub struct Letters {
    /// By group, in order.
    groups: Vec<VecDeque<Letter>>,
    /// By its oldest letter, each group that has one and of which none is in a consumer's hands.
    by_oldest: BTreeMap<u64, usize>,
}

impl Letters {
    pub fn new(alloc: Global, groups: u64) -> io::Result<Letters> {
        let mut made = Vec::new(alloc);
        for _ in 0..groups {
            made.push(VecDeque::new(alloc))?;
        }
        Ok(Letters {
            groups: made,
            by_oldest: BTreeMap::new(alloc),
        })
    }

    pub fn is_empty(&self) -> bool {
        self.by_oldest.is_empty()
    }

    /// Adds a new letter, whose number is above all others.
    pub fn add(&mut self, group: usize, number: u64) -> io::Result<()> {
        if let Some(letters) = self.groups.get_mut(group) {
            letters.push_back(Letter {
                number,
                handings: 0,
            })?;
        }
        self.open(group)
    }

    /// Has the group stand by its oldest letter.
    fn open(&mut self, group: usize) -> io::Result<()> {
        if let Some(letters) = self.groups.get(group) {
            if let Some(oldest) = letters.front() {
                self.by_oldest.insert(oldest.number, group)?;
            }
        }
        Ok(())
    }

    /// Takes the oldest letter of the group.
    fn take_oldest(&mut self, group: usize) -> Option<Handed> {
        let letter = self.groups.get_mut(group)?.pop_front()?;
        Some(Handed {
            group,
            letter: letter.number,
            handing: letter.handings.saturating_add(1),
        })
    }

    /// Hands out letters of the group, until there are so many.
    fn hand_of(&mut self, group: usize, most: usize, handed: &mut Vec<Handed>) -> io::Result<()> {
        for _ in handed.len()..most {
            match self.take_oldest(group) {
                Some(one) => handed.push(one)?,
                None => return Ok(()),
            }
        }
        Ok(())
    }

    /// Hands out up to so many: those of the group whose oldest letter is the oldest one, and then those of the next group.
    pub fn hand(&mut self, alloc: Global, most: usize) -> io::Result<Vec<Handed>> {
        let mut handed = Vec::new(alloc);
        for _ in 0..most {
            if handed.len() >= most {
                break;
            }
            match self.by_oldest.pop_first() {
                Some((_, group)) => self.hand_of(group, most, &mut handed)?,
                None => break,
            }
        }
        Ok(handed)
    }

    /// Puts these back, which were handed out in this order.
    fn put_back(&mut self, given_back: &[Handed]) -> io::Result<()> {
        for one in given_back.iter().rev() {
            if let Some(letters) = self.groups.get_mut(one.group) {
                letters.push_front(Letter {
                    number: one.letter,
                    handings: one.handing,
                })?;
            }
        }
        Ok(())
    }

    /// Ends with all that were handed out: some were given back, and the others deleted.
    pub fn end(&mut self, handed: &[Handed], given_back: &[Handed]) -> io::Result<()> {
        self.put_back(given_back)?;
        for one in handed {
            self.open(one.group)?;
        }
        Ok(())
    }
}
