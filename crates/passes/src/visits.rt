// Visits of variables, by rank. A visit of one that lacks a value goes on where the last one stopped, so a visit that finds nothing new is cheap.
ghost use Rattle.std.specs.Prelude.{◌≡◌, ◌<◌, ◌==◌, length, get_or, position};
ghost use Rattle.rules.proofs.Lengths.{left_lens, lacking_lens};
ghost use Rattle.tokens.specs.Entries.{token_at};
ghost use Rattle.passes.specs.Visits.{reads, rules_of, rule, SameColumns, Stands, advance_in, Visits, Steps, Lacking, Stuck, said};

use crate::sums::{Stop, View};
use scan::column::entry;
use tokens::table::Table;

// What the passes read: the tokens; by token the rank of the variable that it refers to; by rank the variable's key token; by key token the value's first
// token, and the token past it.
#[derive(Clone, Copy)]
pub struct Rules<'a> {
    pub tokens: &'a Table<'a>,
    pub ranks: &'a [u32],
    pub keys: &'a [u32],
    pub starts: &'a [u32],
    pub ends: &'a [u32],
}

// What the passes write, by rank: the length of the value + 1, 0 for none yet; the token at which the sum stopped + 1, 0 before the first visit; the sum up to
// there; and the blocks in which a variable waits for the value.
#[derive(Drop)]
pub struct Progress<'a> {
    pub lengths: &'a mut [u32],
    pub stops: &'a mut [u32],
    pub sums: &'a mut [u32],
    pub waiters: &'a mut [u32],
}

// What a turn finds.
#[derive(Clone, Copy)]
pub enum Visited {
    // A value that was there.
    Known,
    // The value lacks, at this token.
    Blocked(usize),
    // A new value.
    Valued,
}

// The variable of this rank has a value that is too large.
#[derive(Clone, Copy)]
pub struct TooLarge(pub usize);

// Why not all variables have values.
#[derive(Clone, Copy)]
pub enum Unresolved {
    // The value of the variable of this rank is too large.
    TooLarge(usize),
    // The variable of this rank, the smallest without a value, lacks one at this token.
    Lacks(usize, usize),
}

impl<'a> Progress<'a> {
    // Goes on with the sum of variable i.
    fn resume(&self, rules: Rules, i: usize) -> Result<usize, Stop>
        requires { Stands (reads rules) self.now × (i < length rules.keys.now) }
        ensures { result ≡ advance_in (reads rules.entry) self.now.lengths.now self.now.stops.now self.now.sums.now i }
    {
        let key = entry(rules.keys, i);
        let start = entry(rules.starts, key);
        let from = entry(self.stops, i).checked_sub(1).unwrap_or(start);
        let view = View {
            tokens: rules.tokens,
            ranks: rules.ranks,
            lengths: &self.lengths,
        };
        view.sum_on(from, entry(rules.ends, key), entry(self.sums, i))
    }

    // Visits variable i, which has no value yet.
    fn visit(&mut self, rules: Rules, i: usize) -> Result<Visited, TooLarge>
        requires { Stands (reads rules) self.old × (i < length rules.keys.now) × (get_or self.old.lengths.now i 0 ≡ 0) }
        ensures same { SameColumns self.old self.new }
        ensures same_waiters { self.new.waiters.now ≡ self.old.waiters.now }
        ensures visits { Stands (reads rules.entry) self.new
            × Visits (reads rules.entry) self.old.lengths.now self.old.stops.now self.new.lengths.now self.new.stops.now i result }
    {
        match self.resume(rules, i) {
            Ok(sum) => {
                self.lengths[i] = (sum + 1) as u32;
                Ok(Visited::Valued)
            }
            Err(Stop::Missing(j, sum)) => {
                self.stops[i] = (j + 1) as u32;
                self.sums[i] = sum as u32;
                Ok(Visited::Blocked(j))
            }
            Err(Stop::Over) => Err(TooLarge(i)),
        }
    }

    // Variable i's turn in a pass.
    pub fn step(&mut self, rules: Rules, i: usize) -> Result<Visited, TooLarge>
        requires { Stands (reads rules) self.old × (i < length rules.keys.now) }
        ensures same { SameColumns self.old self.new }
        ensures same_waiters { self.new.waiters.now ≡ self.old.waiters.now }
        ensures steps { Stands (reads rules.entry) self.new
            × Steps (reads rules.entry) self.old.lengths.now self.old.stops.now self.old.sums.now self.new.lengths.now self.new.stops.now self.new.sums.now i result }
    {
        if self.lengths[i] == 0 {
            return self.visit(rules, i);
        }
        Ok(Visited::Known)
    }

    // The token of variable i's first reference without a value.
    fn lacking(&self, rules: Rules, i: usize) -> usize
        requires { Stands (reads rules) self.now × (i < length rules.keys.now) × Lacking (reads rules) self.now.lengths.now i }
        ensures { lacking_lens self.now.lengths.now (rule (reads rules.entry) i) ≡ token_at rules.entry.tokens.now result }
    {
        match self.resume(rules, i) {
            Err(Stop::Missing(j, _)) => j,
            Err(Stop::Over) => unreachable!(),
            Ok(_) => unreachable!(),
        }
    }

    // Whether all variables have values; else the smallest name left.
    pub fn left(&self, rules: Rules) -> Result<(), Unresolved>
        requires { Stands (reads rules) self.now × Stuck (reads rules) self.now.lengths.now }
        ensures { said rules.entry.tokens.now self.now.lengths.now result ≡ left_lens 0 (rules_of (reads rules.entry)) self.now.lengths.now }
    {
        match first_without(self.lengths) {
            None => Ok(()),
            Some(i) => Err(Unresolved::Lacks(i, self.lacking(rules, i))),
        }
    }
}

// The smallest rank without a value.
fn first_without(lengths: &[u32]) -> Option<usize>
    ensures { result ≡ position (λ x. x == 0) lengths.now }
{
    lengths.iter().position(|l| *l == 0)
}
