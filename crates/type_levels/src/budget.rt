// What a search may cost.
use apt_base::NoMemory;

/// How many arguments and supertypes the questions of one search name at most. Each counts as often as a question names it, also where it is settled.
const MOST_NAMED: usize = 65536;

/// What the questions of a search may still name.
#[derive(Drop)]
pub struct Budget {
    left: usize,
}

impl Budget {
    /// All of 65,536.
    pub fn new() -> Budget {
        Budget { left: MOST_NAMED }
    }

    /// Takes so much; out of memory where less is left.
    pub fn take(&mut self, named: usize) -> Result<(), NoMemory> {
        if named > self.left {
            return Err(NoMemory);
        }
        self.left -= named;
        Ok(())
    }
}
