// What is read of the workspace while values are written: the tokens; by token the rank of the variable that it refers to, and where a value begins and
// ends; and by rank the variables' keys and the lengths of their values.
ghost use Rattle.std.specs.Prelude.{◌≡◌, ◌+◌, ◌*◌, ◌≤◌, ◌<◌, length, get_or};
ghost use Rattle.scan.specs.Stores.{puts};
ghost use Rattle.tokens.specs.Entries.{token_at};
ghost use Rattle.writer.specs.Tables.{Tables, tables_by, tables_in, start_of, end_of};

use scan::column::{column, entry};
use std::marker::Model;
use tokens::table::Table;
use workspace::layout::Layout;

#[derive(Drop)]
pub struct Columns<'a> {
    tokens: Table<'a>,
    ranks: &'a [u32],
    keys: &'a [u32],
    starts: &'a [u32],
    ends: &'a [u32],
    lengths: &'a [u32],
}

impl<'a> Model for Columns<'a> {
    ghost Value = { Tables };

    ghost view = { λ c. tables_by c.tokens c.ranks.now c.keys.now c.starts.now c.ends.now c.lengths.now };
}

impl<'a> Columns<'a> {
    // Those that the workspace holds; `front` are its first entries, up to its scratch.
    pub fn new(front: &'a [u32], pool: &'a [u8], layout: Layout) -> Columns<'a>
        requires { 9 * layout.n ≤ length front.now }
        ensures { result ≡ tables_in layout.n layout.count layout.v front.now pool.now }
    {
        let Layout { n, count, v } = layout;
        let tokens = Table::new(front, pool, count);
        Columns {
            tokens,
            ranks: column(front, 7 * n, n),
            keys: column(front, 4 * n, v),
            starts: column(front, 5 * n, n),
            ends: column(front, 6 * n, n),
            lengths: column(front, 8 * n, v),
        }
    }

    // How many variables there are.
    pub fn variables(&self) -> usize
        ensures { result ≡ length self.now.keys }
    {
        self.keys.len()
    }

    // The kind of token i.
    pub fn kind(&self, i: usize) -> u32
        ensures { result ≡ (token_at self.now.tokens i).kind }
    {
        self.tokens.kind(i)
    }

    // The text of token i goes to `out` from place `at` on. Returns the place past it.
    // Kept: the clause says what becomes of the whole output, so it needs the place.
    pub fn copy_text(&self, i: usize, out: &mut [u8], at: usize) -> usize
        requires { at + length (token_at self.now.tokens i).text ≤ length out.old }
        ensures past { result ≡ at + length (token_at self.now.tokens i).text }
        ensures stored { out.new ≡ puts out.old at (token_at self.now.tokens i).text }
    {
        self.tokens.copy_text(i, out, at)
    }

    // The rank of the variable that token i refers to.
    pub fn rank(&self, i: usize) -> usize
        ensures { result ≡ get_or self.now.ranks i 0 }
    {
        entry(self.ranks, i)
    }

    // The length of the value of the variable of rank j, which has one.
    pub fn value_length(&self, j: usize) -> usize
        requires { 1 ≤ get_or self.now.lengths j 0 }
        ensures { result + 1 ≡ get_or self.now.lengths j 0 }
    {
        entry(self.lengths, j) - 1
    }

    // The key token of the variable of rank j.
    pub fn key(&self, j: usize) -> usize
        ensures { result ≡ get_or self.now.keys j 0 }
    {
        entry(self.keys, j)
    }

    // The first token of the value of the key token k; of a list the row where its arguments begin.
    pub fn start(&self, k: usize) -> usize
        ensures { result ≡ get_or self.now.starts k 0 }
    {
        entry(self.starts, k)
    }

    // The token past the value of the key token k; of a list how many arguments it has.
    pub fn end(&self, k: usize) -> usize
        ensures { result ≡ get_or self.now.ends k 0 }
    {
        entry(self.ends, k)
    }
}
