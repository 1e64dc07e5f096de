// The tokens that workspace and pool hold, as one value: a list of tokens.
ghost use Rattle.std.specs.Prelude.{◌≡◌, ◌+◌, ◌*◌, ◌≤◌, length, take, List};
ghost use Rattle.rules.specs.Tokens.{Token};
ghost use Rattle.answers.specs.Tells.{Names};
ghost use Rattle.scan.specs.Stores.{puts};
ghost use Rattle.tokens.specs.Entries.{decode, token_at, pool_text, byte_of};

use answers::Name;
use std::marker::Model;

// The first `count` tokens of a workspace, with the pool that has their texts. Past the last there is no token, and all of it is 0 or empty.
#[derive(Drop)]
pub struct Table<'a> {
    entries: &'a [u32],
    pool: &'a [u8],
    count: usize,
}

impl<'a> Model for Table<'a> {
    ghost Value = { List Token };

    ghost view = { λ t. decode t.count t.entries.now t.pool.now };

    ghost invariant = { λ t. 4 * t.count ≤ length t.entries.now };
}

impl<'a> Table<'a> {
    // The first `count` tokens of the entries, four each, and of the pool.
    pub fn new(entries: &'a [u32], pool: &'a [u8], count: usize) -> Self
        requires { 4 * count ≤ length entries.now }
        ensures { result ≡ decode count entries.now pool.now }
    {
        Table {
            entries,
            pool,
            count,
        }
    }

    // How many tokens there are.
    #[tactic(auto, using(crate::proofs::TokenLaws::tables))]
    pub fn len(&self) -> usize
        ensures { result ≡ length self.now }
    {
        self.count
    }

    // The tokens before the `end`-th.
    #[tactic(auto, using(crate::proofs::TokenLaws::tables))]
    pub fn until(&self, end: usize) -> Table<'a>
        requires { end ≤ length self.now }
        ensures { result ≡ take end self.now }
    {
        Table {
            entries: self.entries,
            pool: self.pool,
            count: end,
        }
    }

    // The number of the kind of token j.
    // Kept: kinds as numbers, since lent memory may hold any; `TokenKind` has ten.
    #[tactic(auto, using(crate::proofs::TokenLaws::tables))]
    pub fn kind(&self, j: usize) -> u32
        ensures { result ≡ (token_at self.now j).kind }
    {
        crate::kind_at(self.entries, self.count, j)
    }

    // Its place in the source.
    #[tactic(auto, using(crate::proofs::TokenLaws::tables))]
    pub fn source(&self, j: usize) -> u32
        ensures { result ≡ (token_at self.now j).source }
    {
        crate::source_at(self.entries, self.count, j)
    }

    // Its place in the pool; 0 where it has none.
    #[tactic(auto, using(crate::proofs::TokenLaws::tables))]
    pub fn place(&self, j: usize) -> u32
        ensures { result ≡ (token_at self.now j).place }
    {
        crate::place_at(self.entries, self.count, j)
    }

    // The byte of a token that is neither Text nor Variable, else 0.
    #[tactic(auto, using(crate::proofs::TokenLaws::tables))]
    pub fn byte(&self, j: usize) -> u8
        ensures { result ≡ byte_of (token_at self.now j) }
    {
        crate::byte_at(self.entries, self.count, j)
    }

    // The text of a Text or Variable token, a part of the pool; else nothing, and `byte` has the text's one byte.
    pub fn text(&self, j: usize) -> &'a [u8]
        ensures { result.now ≡ pool_text (token_at self.now j) }
    {
        crate::text_at(self.entries, self.pool, self.count, j)
    }

    // The length of the text, of any kind.
    pub fn text_len(&self, j: usize) -> usize
        ensures { result ≡ length (token_at self.now j).text }
    {
        crate::length_at(self.entries, self.pool, self.count, j)
    }

    // What a refusal shows of it: its place in the pool, and the length of its text.
    #[tactic(auto, using(crate::proofs::TokenLaws::tables))]
    pub fn name(&self, j: usize) -> Name
        ensures { Names result (token_at self.now j) }
    {
        crate::name_at(self.entries, self.pool, self.count, j)
    }

    // The text, of any kind, goes to `out` from place `to` on. Returns the place past it.
    // Kept: the clause says what becomes of the whole output, so it needs the place.
    pub fn copy_text(&self, j: usize, out: &mut [u8], to: usize) -> usize
        requires { to + length (token_at self.now j).text ≤ length out.old }
        ensures past { result ≡ to + length (token_at self.now j).text }
        ensures stored { out.new ≡ puts out.old to (token_at self.now j).text }
    {
        crate::copy_text(self.entries, self.pool, self.count, j, out, to)
    }
}
