// Sums of tokens: what a range of tokens comes to in bytes, once references have their values. For variables, string fields and list arguments alike.
ghost use Rattle.std.specs.Prelude.{◌≡◌, ◌≤◌, ◌-◌};
ghost use Rattle.passes.specs.Sums.{top, size_in, added, advance};

use scan::column::entry;
use tokens::TokenKind;
use tokens::table::Table;

// MAX_TEMPLATE_SIZE of upstream. Kept: the limits belong to named types as constants (docs/PROMISES.md).
#[derive(Clone, Copy)]
pub struct Limit;

impl Limit {
    pub const VALUE: usize = 67108864;
}

// Why a sum stops.
#[derive(Clone, Copy)]
pub enum Stop {
    // It would be above the limit.
    Over,
    // This token refers to no value; the sum of those before it.
    Missing(usize, usize),
}

// What sums read: the tokens; by token the rank of the variable that it refers to; by rank the length of the value + 1, 0 for none.
// Kept beside `write_value` of writer: it measures by lengths, before a byte is written.
#[derive(Clone, Copy)]
pub struct View<'a> {
    pub tokens: &'a Table<'a>,
    pub ranks: &'a [u32],
    pub lengths: &'a [u32],
}

impl<'a> View<'a> {
    // What token j adds; none where it refers to no value. A token that was dropped adds nothing.
    #[tactic(auto, using(crate::proofs::SumLaws::sizes))]
    pub fn size_at(self, j: usize) -> Option<usize>
        ensures { result ≡ added (size_in self.entry.tokens.now self.entry.ranks.now self.entry.lengths.now j) }
    {
        let kind = self.tokens.kind(j);
        if kind == TokenKind::Dropped as u32 {
            return Some(0);
        }
        if kind == TokenKind::Variable as u32 {
            return entry(self.lengths, entry(self.ranks, j)).checked_sub(1);
        }
        Some(self.tokens.text_len(j))
    }

    // Goes on with the sum s at token `from`, up to, not with, token `to`.
    pub fn sum_on(self, from: usize, to: usize, s: usize) -> Result<usize, Stop>
        requires { s ≤ top }
        ensures { result ≡ advance (size_in self.entry.tokens.now self.entry.ranks.now self.entry.lengths.now) from s (to - from) }
    {
        let mut sum = s;
        for k in from..to {
            let Some(size) = self.size_at(k) else {
                return Err(Stop::Missing(k, sum));
            };
            if Limit::VALUE - sum < size {
                return Err(Stop::Over);
            }
            sum += size;
        }
        Ok(sum)
    }
}
