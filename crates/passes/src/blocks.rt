// Turns of variables, and who waits for whom. The variables stand in 32 blocks by rank. By rank there are the blocks in which a variable waits for this
// one's value: when the value is found, only they can find something new.
ghost use Rattle.std.specs.Prelude.{◌≡◌, ◌<◌, ◌^◌, length};
ghost use Rattle.std.specs.Int.Bits.{bit_or};
ghost use Rattle.scan.specs.Bits.{bit_at};
ghost use Rattle.passes.specs.Visits.{reads, SameColumns, Stands};
ghost use Rattle.passes.specs.Blocks.{marked_at, Turns};

use crate::visits::{Progress, Rules, TooLarge, Visited};
use scan::column::entry;

// A set of blocks: the bits of a word.
// Kept beside `fields::Seen`: sets of other things, of other sizes; a type for both would say neither.
#[derive(Clone, Copy)]
pub struct Blocks(pub u32);

impl Blocks {
    // How many blocks there are.
    pub const COUNT: u32 = 32;

    pub const NONE: Blocks = Blocks(0);

    pub const ALL: Blocks = Blocks(u32::MAX);

    // Whether block b is of the set.
    pub fn has(self, b: u32) -> bool
        requires { b < 32 }
        ensures { result ≡ bit_at self.0 b }
    {
        (self.0 >> b) % 2 == 1
    }

    // The set with block b.
    pub fn with(self, b: u32) -> Blocks
        requires { b < 32 }
        ensures { result.0 ≡ bit_or self.0 (2 ^ b) }
    {
        Blocks(self.0 | (1 << b))
    }

    // The blocks of either set.
    pub fn union(self, other: Blocks) -> Blocks
        ensures { result.0 ≡ bit_or self.0 other.0 }
    {
        Blocks(self.0 | other.0)
    }
}

// Block b waits for the variable to which token j refers.
// Kept: no heap, so a variable is known by its rank, and a token by its place, in lent columns.
fn mark(ranks: &[u32], waiters: &mut [u32], j: usize, b: u32)
    requires { b < 32 }
    ensures { waiters.new ≡ marked_at ranks.now j b waiters.old }
{
    let p = entry(ranks, j);
    if p < waiters.len() {
        waiters[p] = Blocks(waiters[p]).with(b).0;
    }
}

impl<'a> Progress<'a> {
    // The turn of variable i, which stands in block b: the blocks that wait for its value, if it is found.
    pub fn turn(&mut self, rules: Rules, i: usize, b: u32) -> Result<Option<Blocks>, TooLarge>
        requires { Stands (reads rules) self.old × (length self.old.waiters.now ≡ length rules.keys.now)
            × (i < length rules.keys.now) × (b < 32) }
        ensures same { SameColumns self.old self.new }
        ensures turns { Stands (reads rules.entry) self.new
            × Turns (reads rules.entry) self.old.lengths.now self.old.stops.now self.old.waiters.now self.new.lengths.now self.new.stops.now self.new.waiters.now i b result }
        ensures long { length self.new.waiters.now ≡ length self.old.waiters.now }
    {
        match self.step(rules, i)? {
            Visited::Known => Ok(None),
            Visited::Blocked(j) => {
                mark(rules.ranks, self.waiters, j, b);
                Ok(None)
            }
            Visited::Valued => Ok(Some(Blocks(self.waiters[i]))),
        }
    }
}
