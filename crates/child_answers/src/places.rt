// Where in a list what has some hash may stand.
use apt_base::NoMemory;
use std::alloc::Global;
use std::mem;

/// At how many places what has a hash is looked for at most.
pub(crate) const MOST_STEPS: u32 = 16;

// How many places there are at first, and as how many times as many as there are numbers at least.
const FEWEST: usize = 64;

const TIMES: usize = 4;

/// A hash, and the number in the list of what has it.
#[derive(Clone, Copy)]
pub(crate) struct Place {
    pub hash: u32,
    pub number: u32,
}

/// The numbers of a list by hashes. There is a power of two of places, and a number stands at one of the `MOST_STEPS`
/// places from its hash on. A number that found none free takes the first of them. What is given is to be tested: it may
/// be the number of another thing with this hash.
#[derive(Drop)]
pub(crate) struct Places {
    alloc: Global,
    places: Vec<Option<Place>>,
    count: usize,
}

impl Places {
    /// No number yet. It takes no memory.
    pub fn new(alloc: Global) -> Places {
        Places {
            alloc,
            places: Vec::new(alloc),
            count: 0,
        }
    }

    // The place so many steps behind the one of the hash.
    fn at(&self, hash: u32, step: u32) -> usize {
        hash.wrapping_add(step) as usize & self.places.len().saturating_sub(1)
    }

    /// What stands at the place so many steps behind the one of the hash, if anything does.
    pub fn get(&self, hash: u32, step: u32) -> Option<Place> {
        match self.places.as_slice().get(self.at(hash, step)) {
            Some(Some(place)) => Some(*place),
            _ => None,
        }
    }

    // The first free place for the hash, or else its first one.
    fn free(&self, hash: u32) -> usize {
        for step in 0..MOST_STEPS {
            if self.get(hash, step).is_none() {
                return self.at(hash, step);
            }
        }
        self.at(hash, 0)
    }

    fn put(&mut self, place: Place) {
        let at = self.free(place.hash);
        if let Some(held) = self.places.as_mut_slice().get_mut(at) {
            *held = Some(place);
        }
    }

    // Twice as many places.
    fn grow(&mut self) -> Result<(), NoMemory> {
        let wider = self.places.len().saturating_mul(2).max(FEWEST);
        let free = vec![in self.alloc; None; wider]?;
        let full = mem::replace(&mut self.places, free);
        for held in &full {
            if let Some(place) = held {
                self.put(*place);
            }
        }
        drop(full);
        Ok(())
    }

    /// Adds a number by its hash.
    pub fn add(&mut self, place: Place) -> Result<(), NoMemory> {
        if self.count.saturating_mul(TIMES) >= self.places.len() {
            self.grow()?;
        }
        self.put(place);
        self.count = self.count.saturating_add(1);
        Ok(())
    }
}
