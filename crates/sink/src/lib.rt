// Where bytes go: a counter measures them, a buffer stores them. What writes to any sink is written once, and what it needs is what it writes.
#![tactic(auto)]

pub mod decimal;

ghost use Rattle.std.specs.Prelude.{◌≡◌, ◌+◌, ◌≤◌, ◌++◌, [], ◌∷◌, List, ℕ, length};
ghost use Rattle.rules.specs.Listing.{decimal};

use decimal::{decimal_length, put_decimal};

pub trait Sink {
    // how many bytes may still go there
    ghost room: { Self → ℕ };

    // before and after bytes went there
    ghost Takes: { Self → List ℕ → Self → Type 0 };

    // The bytes go there.
    fn push_bytes(&mut self, bytes: &[u8])
        requires { length bytes.now ≤ room self.old }
        ensures taken { Takes self.old bytes.now self.new }
        ensures left { room self.new + length bytes.now ≡ room self.old };

    // One byte goes there.
    fn push(&mut self, byte: u8)
        requires { 1 ≤ room self.old }
        ensures taken { Takes self.old (byte ∷ []) self.new }
        ensures left { room self.new + 1 ≡ room self.old };

    // The digits of a number go there.
    fn push_decimal(&mut self, n: u64)
        requires { length (decimal n) ≤ room self.old }
        ensures taken { Takes self.old (decimal n) self.new }
        ensures left { room self.new + length (decimal n) ≡ room self.old };

    // bytes one after another are their list
    ghost then: { (a : Self) (xs : List ℕ) (b : Self) (ys : List ℕ) (c : Self) → Takes a xs b → Takes b ys c → Takes a (xs ++ ys) c };

    // no bytes leave it as it is
    ghost nothing: { (a : Self) → Takes a [] a };
}

// How many bytes went there.
#[derive(Clone, Copy, Default)]
pub struct Counter {
    pub count: usize,
}

impl Sink for Counter {
    ghost use Rattle.std.specs.Prelude.{◌-◌, ◌^◌};
    ghost use Rattle.sink.specs.Counts.{Counts, counts_then, counts_nothing};

    ghost room = { λ s. 2 ^ 64 - 1 - s.count };

    ghost Takes = { Counts };

    ghost then = { counts_then };

    ghost nothing = { counts_nothing };

    fn push_bytes(&mut self, bytes: &[u8]) {
        self.count += bytes.len();
    }

    fn push(&mut self, _byte: u8) {
        self.count += 1;
    }

    fn push_decimal(&mut self, n: u64) {
        self.count += decimal_length(n);
    }
}

// Bytes stored one after another into lent memory, the next at place `at`.
#[derive(Drop)]
pub struct Buffer<'a> {
    pub at: usize,
    pub bytes: &'a mut [u8],
    ghost inside: { at ≤ length bytes.now },
}

impl<'a> Buffer<'a> {
    // From the front of the bytes on.
    pub fn new(bytes: &'a mut [u8]) -> Self
        ensures at { result.at ≡ 0 }
        ensures bytes { result.bytes.now ≡ bytes.entry.now }
        ensures same_reference { result.bytes.ghost_name ≡ bytes.entry.ghost_name }
    {
        Buffer { at: 0, bytes }
    }
}

impl<'a> Sink for Buffer<'a> {
    ghost use Rattle.sink.specs.Stores.{Stores, stores_then, stores_nothing, room_in};

    ghost room = { room_in };

    ghost Takes = { Stores };

    ghost then = { stores_then };

    ghost nothing = { stores_nothing };

    fn push_bytes(&mut self, bytes: &[u8]) {
        scan::store::copy(bytes, self.bytes, self.at);
        self.at += bytes.len();
    }

    fn push(&mut self, byte: u8) {
        self.bytes[self.at] = byte;
        self.at += 1;
    }

    fn push_decimal(&mut self, n: u64) {
        self.at = put_decimal(self.bytes, self.at, n);
    }
}
