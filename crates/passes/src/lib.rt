// The passes on lengths (resolve_variables of upstream): which variables get a value, and how long each is.
#![tactic(auto)]

ghost use Rattle.std.specs.Prelude.{◌≡◌, length, take};
ghost use Rattle.workspace.specs.Map.{Room};
ghost use Rattle.passes.specs.Visits.{reads, SameColumns, Stands};
ghost use Rattle.passes.specs.Passes.{Turning, Passes, Ready, Runs, Clear, Mapped, kept_of, Resolved, Resolves};

use crate::blocks::Blocks;
use crate::visits::{Progress, Rules, TooLarge, Unresolved};
use scan::column::column;
use scan::store::zero_from;
use tokens::table::Table;
use workspace::layout::Layout;

pub mod blocks;
pub mod sums;
pub mod visits;

// The answer, and how many passes were made, the last idle one included.
#[derive(Clone, Copy)]
pub struct Outcome {
    pub settled: Result<(), Unresolved>,
    pub passes: usize,
}

impl<'a> Progress<'a> {
    // One pass over all variables in byte order: the blocks that wait for values found, if any is.
    // Of the blocks, of `width` variables each, only those of `set` are due, and those that wait for a value found: in the others all rest.
    fn pass(&mut self, rules: Rules, width: usize, set: Blocks) -> Result<Option<Blocks>, TooLarge>
        requires { Turning (reads rules) width set.0 self.old.lengths.now self.old.stops.now self.old.sums.now self.old.waiters.now }
        ensures same { SameColumns self.old self.new }
        ensures passes { Stands (reads rules.entry) self.new
            × Passes (reads rules.entry) width self.old.lengths.now self.new.lengths.now self.new.stops.now self.new.waiters.now result }
        ensures long { length self.new.waiters.now ≡ length self.old.waiters.now }
    {
        let v = rules.keys.len();
        let mut due = set;
        let mut found: Option<Blocks> = None;
        for b in 0..Blocks::COUNT {
            let from = b as usize * width;
            if v <= from {
                break;
            }
            if due.has(b) {
                for i in from..(from + width).min(v) {
                    if let Some(m) = self.turn(rules, i, b)? {
                        due = due.union(m);
                        found = Some(found.unwrap_or(Blocks::NONE).union(m));
                    }
                }
            }
        }
        Ok(found)
    }

    // Passes until one finds nothing. Each other finds a value, so there are at most v + 1.
    fn run(&mut self, rules: Rules, width: usize) -> Outcome
        requires { Ready (reads rules) width self.old.lengths.now self.old.stops.now self.old.sums.now self.old.waiters.now }
        ensures same { SameColumns self.old self.new }
        ensures runs { Runs (reads rules.entry) self.new.lengths.now result.settled result.passes }
    {
        let mut passes = 0;
        let mut due = Blocks::ALL;
        loop {
            passes += 1;
            match self.pass(rules, width, due) {
                Err(TooLarge(i)) => {
                    return Outcome {
                        settled: Err(Unresolved::TooLarge(i)),
                        passes,
                    };
                }
                Ok(None) => {
                    return Outcome {
                        settled: self.left(rules),
                        passes,
                    };
                }
                Ok(Some(m)) => {
                    due = m;
                }
            }
        }
    }
}

// The passes in four columns, which are clear, as one value.
// Kept: made where the columns are split, the proof did not close: their final values are not known there.
fn run_by(
    rules: Rules,
    lengths: &mut [u32],
    stops: &mut [u32],
    sums: &mut [u32],
    waiters: &mut [u32],
    width: usize,
) -> Outcome
    requires { Ready (reads rules) width lengths.old stops.old sums.old waiters.old }
    ensures { Runs (reads rules.entry) lengths.new result.settled result.passes }
{
    let mut progress = Progress {
        lengths,
        stops,
        sums,
        waiters,
    };
    progress.run(rules, width)
}

// The passes in four columns of v entries, which are clear: the lengths, where sums stopped, the sums, and who waits.
fn run_in(rules: Rules, v: usize, columns: &mut [u32]) -> Outcome
    requires { Clear (reads rules) v columns.old }
    ensures { Runs (reads rules.entry) (take v columns.new) result.settled result.passes }
{
    let (lengths, rest) = columns.split_at_mut(v);
    let (stops, rest) = rest.split_at_mut(v);
    let (sums, waiters) = rest.split_at_mut(v);
    run_by(
        rules,
        lengths,
        stops,
        sums,
        waiters,
        v / Blocks::COUNT as usize + 1,
    )
}

// How many lengths stay.
fn kept(settled: Result<(), Unresolved>, v: usize) -> usize
    ensures { result ≡ kept_of settled v }
{
    match settled {
        Ok(()) => v,
        Err(_) => 0,
    }
}

// The passes over the map of the variables, in columns that are cleared before; of all that they write the lengths stay, where all variables have values.
fn resolve_in(map: &[u32], pool: &[u8], layout: Layout, columns: &mut [u32]) -> Outcome
    requires { Mapped layout.n layout.count layout.v map.now columns.old }
    ensures { Resolved layout.n layout.count layout.v pool.now map.now columns.new result.settled result.passes }
{
    let Layout { n, count, v } = layout;
    let tokens = Table::new(map, pool, count);
    let rules = Rules {
        tokens: &tokens,
        ranks: column(map, 7 * n, n),
        keys: column(map, 4 * n, v),
        starts: column(map, 5 * n, n),
        ends: column(map, 6 * n, n),
    };
    zero_from(columns, 0, 4 * v);
    let outcome = run_in(rules, v, columns);
    let stay = kept(outcome.settled, v);
    zero_from(columns, stay, 4 * v - stay);
    outcome
}

// The lengths of all variables' values, or why there are none. All else in the columns that it uses becomes 0.
pub fn resolve_variables(ws: &mut [u32], pool: &[u8], layout: Layout) -> Outcome
    requires { Room layout.n layout.count layout.v ws.old }
    ensures { Resolves layout.n layout.count layout.v pool.now ws.old ws.new result.settled result.passes }
{
    let (map, rest) = ws.split_at_mut(8 * layout.n);
    let (columns, _beyond) = rest.split_at_mut(4 * layout.v);
    resolve_in(map, pool, layout, columns)
}
