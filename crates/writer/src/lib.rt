// Values are written to the output with a stack in the workspace. A variable's value is written out once: its place in the output is remembered, and
// it is copied from there afterwards. So the cost is that of the parts and of the bytes, however deep the references go.
#![tactic(auto)]

pub mod columns;
mod stack;

ghost use Rattle.std.specs.Prelude.{◌≡◌, [], ◌∷◌, ◌+◌, ◌-◌, ◌*◌, ◌/◌, ◌%◌, ◌≤◌, ◌<◌, length, get_or, replicate, MatchOption};
ghost use Rattle.scan.specs.Stores.{puts};
ghost use Rattle.writer.specs.Tables.{value, value_between, start_of, end_of};
ghost use Rattle.writer.specs.Writing.{place_in, Referred, Writable, Written};

use columns::Columns;
use scan::store::copy_within;
use stack::{Frame, Stack};
use tokens::TokenKind;

// A place is held in two entries, in parts below this.
const PART: usize = 2147483648;

// The place in the output where the value of the variable of rank j stands, if it is remembered: the entries hold one more than it, and 0 for none.
// Kept: no heap, so a variable is known by its rank, and a token by its place, in lent columns.
fn place(places: &[u32], j: usize) -> Option<usize>
    requires { 2 * j + 1 < length places.now }
    ensures { MatchOption result (place_in places.now j ≡ 0) (λ p. p + 1 ≡ place_in places.now j) }
{
    let past = places[2 * j] as usize + PART * (places[2 * j + 1] as usize);
    past.checked_sub(1)
}

// The value of the variable of rank j stands at place p.
// Kept: no heap, so a variable is known by its rank, and a token by its place, in lent columns.
fn remember(places: &mut [u32], j: usize, p: usize)
    requires { (2 * j + 1 < length places.old) × (p < 9223372036854775807) }
    ensures { places.new ≡ puts places.old (2 * j) ((p + 1) % 2147483648 ∷ (p + 1) / 2147483648 ∷ []) }
{
    let past = p + 1;
    places[2 * j] = (past % PART) as u32;
    places[2 * j + 1] = (past / PART) as u32;
}

// No place is remembered.
pub fn forget(places: &mut [u32])
    ensures { places.new ≡ replicate (length places.old) 0 }
{
    places.fill(0);
}

// The whole value of the variable of rank j.
fn value_of(columns: &Columns, j: usize) -> Frame
    ensures { result ≡ record { next = start_of columns.now j; end = end_of columns.now j; owner = j } }
{
    let key = columns.key(j);
    Frame {
        next: columns.start(key),
        end: columns.end(key),
        owner: j,
    }
}

// The value of the variable of rank j goes to the output from place p on, if its place is remembered or it is empty. Returns the place past it.
// Kept: as in `write_value`, of which this is a step.
fn copy_value(
    columns: &Columns,
    places: &[u32],
    j: usize,
    out: &mut [u8],
    p: usize,
) -> Option<usize>
    requires { Referred columns.now places.now j out.old p }
    ensures { MatchOption result ((place_in places.now j ≡ 0) × (out.new ≡ out.old))
        (λ past. (past ≡ p + length (value columns.now j)) × (out.new ≡ puts out.old p (value columns.now j))) }
{
    let length = columns.value_length(j);
    if length == 0 {
        return Some(p);
    }
    let from = place(places, j)?;
    copy_within(out, from, length, p);
    Some(p + length)
}

// The value of the tokens from `from` up to `to` goes to the output from place `at` on. Returns the place past it. A frame is left where it refers to a
// variable whose value is not written yet, and comes back from the stack after that. The frame asked for is no variable's.
// Kept: no plainer: the `Writer` of records has these as fields; a struct to lend them on would be made anew for each record.
pub fn write_value(
    columns: &Columns,
    places: &mut [u32],
    stack: &mut [u32],
    out: &mut [u8],
    at: usize,
    from: usize,
    to: usize,
) -> usize
    requires { Writable columns.now places.old stack.old out.old at from to }
    ensures { Written columns.now places.old out.old at (value_between columns.now from to) places.new out.new result }
{
    let top = stack.len();
    let mut stack = Stack {
        entries: stack,
        top,
    };
    let mut frame = Frame {
        next: from,
        end: to,
        owner: columns.variables(),
    };
    let mut p = at;
    loop {
        if frame.next < frame.end {
            let token = frame.next;
            let kind = columns.kind(token);
            frame.next = token + 1;
            if kind == TokenKind::Variable as u32 {
                let j = columns.rank(token);
                match copy_value(columns, places, j, out, p) {
                    Some(past) => p = past,
                    None => {
                        stack.push(frame);
                        frame = value_of(columns, j);
                    }
                }
            } else if kind != TokenKind::Dropped as u32 {
                p = columns.copy_text(token, out, p);
            }
        } else {
            let Some(waiting) = stack.pop() else {
                return p;
            };
            remember(places, frame.owner, p - columns.value_length(frame.owner));
            frame = waiting;
        }
    }
}
