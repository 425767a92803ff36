use std::alloc::{AllocError, Global};
use std::collections::VecDeque;
use zr_kinds::PoolStats;

/// What is on its way to an application and back, by the number of the buffer.
#[derive(Drop)]
pub struct Ways {
    /// The pieces whose notes it hasn't taken.
    pub notes: VecDeque<u32>,
    /// Its refill entries. `None` names no buffer.
    pub ring: VecDeque<Option<u32>>,
}

/// A board as plain lists, which slow code of its own moves. An application gives each piece that it takes back at once,
/// so a buffer is held as long as one of its pieces is on its way.
#[derive(Drop)]
pub struct Lists {
    pub alloc: Global,
    pub buffers: u32,
    pub places: usize,
    /// In the order in which buffers entered.
    pub cache: Vec<u32>,
    /// Those of the free list, in any order.
    pub listed: Vec<u32>,
    pub apps: Vec<Ways>,
    pub stats: PoolStats,
}

impl Lists {
    /// The lists of a board that was just opened.
    pub fn open(alloc: Global, buffers: u32, apps: u32, places: u32) -> Result<Lists, AllocError> {
        let mut lists = Lists {
            alloc,
            buffers,
            places: places as usize,
            cache: Vec::new(alloc),
            listed: Vec::new(alloc),
            apps: Vec::new(alloc),
            stats: PoolStats {
                fast: 0,
                refill: 0,
                slow: 0,
                empty: 0,
                strays: 0,
            },
        };
        for buffer in 0..buffers {
            lists.listed.push(buffer)?;
        }
        for _ in 0..apps {
            lists.apps.push(Ways {
                notes: VecDeque::new(alloc),
                ring: VecDeque::new(alloc),
            })?;
        }
        Ok(lists)
    }

    /// How many buffers are cached.
    pub fn cached(&self) -> u32 {
        self.cache.len().min(u32::MAX as usize) as u32
    }

    /// So many pieces of one buffer go to an application, if there is room. It answers whether they went.
    pub fn send(&mut self, app: u32, pieces: u32) -> Result<bool, AllocError> {
        let Some(ways) = self.apps.get_mut(app as usize) else {
            return Ok(false);
        };
        if ways.notes.len().saturating_add(pieces as usize) > self.places {
            return Ok(false);
        }
        let Some(buffer) = self.cache.pop() else {
            return Ok(false);
        };
        for _ in 0..pieces {
            ways.notes.push_back(buffer)?;
        }
        Ok(true)
    }

    /// An application gives a piece back, behind an entry that names no buffer if `stray`, if there is room. While such an
    /// entry is on its way it lends nothing. It answers whether it did.
    pub fn give_back(&mut self, app: u32, stray: bool) -> Result<bool, AllocError> {
        let Some(ways) = self.apps.get_mut(app as usize) else {
            return Ok(false);
        };
        let entries = if stray { 2 } else { 1 };
        if ways.ring.len().saturating_add(entries) > self.places
            || ways.ring.iter().any(|e| e.is_none())
        {
            return Ok(false);
        }
        let Some(buffer) = ways.notes.pop_front() else {
            return Ok(false);
        };
        if stray {
            ways.ring.push_back(None)?;
        }
        ways.ring.push_back(Some(buffer))?;
        Ok(true)
    }

    /// An application writes an entry that names no buffer, if there is room. It answers whether it did.
    pub fn write_stray(&mut self, app: u32) -> Result<bool, AllocError> {
        let Some(ways) = self.apps.get_mut(app as usize) else {
            return Ok(false);
        };
        if ways.ring.len() >= self.places {
            return Ok(false);
        }
        ways.ring.push_back(None)?;
        Ok(true)
    }

    /// Whether a piece of the buffer is on its way.
    fn is_held(&self, buffer: u32) -> bool {
        self.apps.iter().any(|ways| ways.notes.contains(&buffer)
            || ways.ring.contains(&Some(buffer)))
    }

    /// Deals with entries of an application: as many as its ring has places, until it is empty, or until so many buffers
    /// are cached. It answers how many.
    fn drain_ring(&mut self, app: usize, enough: usize) -> Result<u32, AllocError> {
        let mut count = 0u32;
        for _ in 0..self.places {
            if self.cache.len() >= enough {
                break;
            }
            let Some(ways) = self.apps.get_mut(app) else {
                break;
            };
            match ways.ring.pop_front() {
                None => break,
                Some(None) => self.stats.strays = self.stats.strays.wrapping_add(1),
                Some(Some(buffer)) => {
                    if !self.is_held(buffer) {
                        if self.cache.len() < 128 {
                            self.cache.push(buffer)?;
                        } else {
                            self.listed.push(buffer)?;
                        }
                    }
                }
            }
            count = count.wrapping_add(1);
        }
        Ok(count)
    }

    /// Drains all rings. It answers how many entries it dealt with.
    pub fn drain(&mut self) -> Result<u32, AllocError> {
        let mut count = 0u32;
        for app in 0..self.apps.len() {
            count = count.wrapping_add(self.drain_ring(app, usize::MAX)?);
        }
        Ok(count)
    }

    /// Moves the buffers of a word of the free list into the cache, the highest first.
    fn sweep(&mut self, word: u32) -> Result<(), AllocError> {
        for below in 0..64u32 {
            let buffer = word.wrapping_mul(64).wrapping_add(63 - below);
            if self.listed.contains(&buffer) {
                self.listed.retain(|&b| b != buffer);
                self.cache.push(buffer)?;
            }
        }
        Ok(())
    }

    /// Looks for so many fresh buffers. It answers whether they are cached.
    pub fn search(&mut self, needed: usize) -> Result<bool, AllocError> {
        if self.cache.len() >= needed {
            self.stats.fast = self.stats.fast.wrapping_add(1);
            return Ok(true);
        }
        for app in 0..self.apps.len() {
            self.drain_ring(app, 64)?;
        }
        if self.cache.len() >= needed {
            self.stats.refill = self.stats.refill.wrapping_add(1);
            return Ok(true);
        }
        for word in 0..self.buffers.div_ceil(64) {
            if self.cache.len() < 64 {
                self.sweep(word)?;
            }
        }
        if self.cache.len() >= needed {
            self.stats.slow = self.stats.slow.wrapping_add(1);
            return Ok(true);
        }
        self.stats.empty = self.stats.empty.wrapping_add(1);
        Ok(false)
    }

    /// The free buffers: those of the cache, the last first, then those of the free list from the lowest.
    pub fn free(&self) -> Result<Vec<u32>, AllocError> {
        let mut free = Vec::new(self.alloc);
        for &buffer in self.cache.iter().rev() {
            free.push(buffer)?;
        }
        for buffer in 0..self.buffers {
            if self.listed.contains(&buffer) {
                free.push(buffer)?;
            }
        }
        Ok(free)
    }
}
