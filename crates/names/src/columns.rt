// Names looked for among the keys of variables, which are tokens in byte order of their names.
// Kept: no heap, so a variable is known by its rank, and a token by its place, in lent columns.
ghost use Rattle.std.specs.Prelude.{◌≡◌, ◌≤◌, ◌<◌, length, slice_index};
ghost use Rattle.rules.specs.Bytes.{overwrite};
ghost use Rattle.rules.specs.Variables.{rank_of};
ghost use Rattle.scan.specs.ByteOrder.{order_of};
ghost use Rattle.tokens.specs.Entries.{token_at, pool_text};
ghost use Rattle.names.specs.Store.{place_among, rank_for, ranks};
ghost use Rattle.names.specs.Named.{named, Searchable};

use std::cmp::Ordering;
use tokens::TokenKind;
use tokens::table::Table;

// Byte order. Kept: `a.cmp(b)` stays a call where it is compiled, and `forward` of docs/SPEED.md then misses its aim.
fn compare(a: &[u8], b: &[u8]) -> Ordering
    ensures { result ≡ order_of a.now b.now }
{
    let end = a.len().min(b.len());
    for i in 0..end {
        if a[i] != b[i] {
            return a[i].cmp(&b[i]);
        }
    }
    a.len().cmp(&b.len())
}

// How the name of the i-th key compares with a name.
fn order_at(tokens: &Table, keys: &[u32], i: usize, name: &[u8]) -> Ordering
    requires { i < length keys.now }
    ensures { result ≡ order_of (pool_text (token_at tokens.now (slice_index keys.now i))) name.now }
{
    compare(tokens.text(keys[i] as usize), name)
}

// Looks for a name among those of the keys: its rank, or how many stand before its place where it is none of them.
pub fn find_place(tokens: &Table, keys: &[u32], name: &[u8]) -> Result<usize, usize>
    requires { Searchable tokens.now keys.now }
    ensures { result ≡ place_among (named tokens.now keys.now) name.now }
{
    // Kept: std's `binary_search_by` has no early end and calls its closure; with it `forward` of docs/SPEED.md misses its aim.
    let mut low = 0;
    let mut high = keys.len();
    while low < high {
        let middle = low + (high - low) / 2;
        match order_at(tokens, keys, middle, name) {
            Ordering::Less => low = middle + 1,
            Ordering::Equal => return Ok(middle),
            Ordering::Greater => high = middle,
        }
    }
    Err(low)
}

// The rank of the variable of this name; as many as there are where it is none of them. Document 01: "zero characters are allowed, and that name is never assigned".
pub fn rank(tokens: &Table, keys: &[u32], name: &[u8]) -> usize
    requires { Searchable tokens.now keys.now }
    ensures { result ≡ rank_of name.now (named tokens.now keys.now) }
{
    find_place(tokens, keys, name).unwrap_or(keys.len())
}

// The rank of the variable that token j refers to; 0 where it is no reference.
#[tactic(auto, using(crate::proofs::Lookups::reading))]
fn rank_at(tokens: &Table, keys: &[u32], j: usize) -> usize
    requires { Searchable tokens.now keys.now }
    ensures { result ≡ rank_for (named tokens.now keys.now) (token_at tokens.now j) }
{
    if tokens.kind(j) == TokenKind::Variable as u32 {
        rank(tokens, keys, tokens.text(j))
    } else {
        0
    }
}

// Looks up what the tokens refer to: the ranks go to the front of the column.
pub fn look_up(tokens: &Table, keys: &[u32], column: &mut [u32])
    requires search { Searchable tokens.now keys.now }
    requires room { length tokens.now ≤ length column.old }
    requires few { length keys.now ≤ 65535 }
    ensures { column.new ≡ overwrite (ranks (named tokens.now keys.now) tokens.now) column.old }
{
    for j in 0..tokens.len() {
        column[j] = rank_at(tokens, keys, j) as u32;
    }
}
