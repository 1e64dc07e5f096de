// Variables, kept in byte order of their names in the workspace (document 01, "Variables, then fields"); references, looked up once.
// The map of the workspace is in crate `workspace`: key tokens in byte order at 4n, where values start and end at 5n and 6n, ranks of references at 7n.
// While lines are read the keys stand from a place `first` on, with room on both sides: a new one moves the fewer of those before and after it.
#![tactic(auto)]

ghost use Rattle.std.specs.Prelude.{◌≡◌, ◌+◌, ◌*◌, ◌≤◌, ◌<◌, length};
ghost use Rattle.scan.specs.Stores.{puts};
ghost use Rattle.tokens.specs.Entries.{decode};
ghost use Rattle.workspace.specs.Map.{keys_from, variables_in};
ghost use Rattle.names.specs.Store.{first_after, with_key, Insertable, Inserts, ranks, Lookable};

pub mod columns;

use crate::columns::find_place;
use tokens::table::Table;

// What a line assigns: the key's token, and the value's tokens, from `from` up to `end`.
#[derive(Clone, Copy)]
pub struct Assigned {
    pub key: usize,
    pub from: usize,
    pub end: usize,
}

// Key goes to place p of the v sorted ones, which begin at `first`; the answer is where they begin now. The fewer of those before and after it move, by one
// place in a part of their own: a move by a constant becomes one move of memory.
// Kept: a place among places in one slice; a struct of the four numbers would be made for one call.
fn put_key(ws: &mut [u32], first: usize, v: usize, p: usize, key: usize) -> usize
    requires below { 0 < first }
    requires above { first + v < length ws.old }
    requires place { p ≤ v }
    requires small { key ≤ 65535 }
    ensures begin { result ≡ first_after first v p }
    ensures stored { ws.new ≡ puts ws.old (first_after first v p) (with_key p key (keys_from first v ws.old)) }
{
    let at = first + p;
    if p < v - p {
        let part = &mut ws[first - 1..at];
        part.copy_within(1.., 0);
        part[p] = key as u32;
        return first - 1;
    }
    let part = &mut ws[at..first + v + 1];
    part.copy_within(..v - p, 1);
    part[0] = key as u32;
    first
}

// The v sorted keys, which begin at `first`, go to 4n: so they stand once all lines are read.
// Kept: a move of keys from place to place of one slice.
#[tactic(auto, using(scan::proofs::Stores::stores))]
pub fn settle(ws: &mut [u32], n: usize, first: usize, v: usize)
    requires { (4 * n ≤ first) × (first + v ≤ length ws.old) }
    ensures { ws.new ≡ puts ws.old (4 * n) (keys_from first v ws.old) }
{
    ws.copy_within(first..first + v, 4 * n);
}

// Stores a variable with the v whose keys begin at `first`: where they begin then. None where its name is assigned already, and nothing changes.
// Kept over the whole workspace: a line that is read also writes kinds of tokens, rows and fields there: three slices would go along in place of one.
pub fn insert(
    ws: &mut [u32],
    pool: &[u8],
    n: usize,
    count: usize,
    first: usize,
    v: usize,
    value: Assigned,
) -> Option<usize>
    requires { Insertable first n count v value.key value.from value.end ws.old pool.now }
    ensures { Inserts first n count v value.key value.from value.end pool.now ws.old ws.new result }
{
    let read: &[u32] = ws;
    let tokens = Table::new(read, pool, count);
    let Err(p) = find_place(&tokens, &read[first..first + v], tokens.text(value.key)) else {
        return None;
    };
    let begin = put_key(ws, first, v, p, value.key);
    ws[5 * n + value.key] = value.from as u32;
    ws[6 * n + value.key] = value.end as u32;
    Some(begin)
}

// Looks up what the tokens refer to.
// Kept: n, count and v by themselves, since `Lookable` asks less of v than a `Layout` does.
pub fn look_up(ws: &mut [u32], pool: &[u8], n: usize, count: usize, v: usize)
    requires { Lookable n count v ws.old pool.now }
    ensures { ws.new ≡ puts ws.old (7 * n) (ranks (variables_in n count v ws.old pool.now) (decode count ws.old pool.now)) }
{
    let (front, column) = ws.split_at_mut(7 * n);
    // Lent as read only, so that the workspace is known afterwards.
    let front: &[u32] = front;
    let tokens = Table::new(front, pool, count);
    columns::look_up(&tokens, &front[4 * n..4 * n + v], column);
}
