// Runs of bytes. Short ones are passed byte by byte. Long ones are passed a block at a time: all bytes of a block are looked at, with no early end, which
// the compiler makes a few operations on 16 bytes at once. So a test of a byte has `|` and not `||`, of which the compiler makes branches.
ghost use Rattle.std.specs.Prelude.{◌≡◌, ◌+◌, ◌≤◌, ℕ, Bool, length, drop};
ghost use Rattle.std.specs.List.{list_any};
ghost use Rattle.rules.specs.Bytes.{run};
ghost use Rattle.lexer.specs.Marks.{free};

// the bytes of a block
const BLOCK: usize = 16;

// Past the bytes from place i on that pass the test.
pub fn run_end<F: Fn(u8) -> bool>(passes: F, text: &[u8], i: usize) -> usize
    requires callable { F.IsAlwaysCallable passes }
    requires inside { i ≤ length text.now }
    ensures { (p : ℕ → Bool) → ((b : ℕ) (r : Bool) → F.post passes b r → r ≡ p b) → result ≡ i + run p (drop i text.now) }
{
    for j in i..text.len() {
        if !passes(text[j]) {
            return j;
        }
    }
    text.len()
}

// Whether any byte is one that is looked for, which `stops` tells.
pub fn any_in<F: Fn(u8) -> bool>(stops: &F, block: &[u8]) -> bool
    requires { F.IsAlwaysCallable stops.now }
    ensures { (p : ℕ → Bool) → ((b : ℕ) (r : Bool) → F.post stops.now b r → r ≡ p b) → result ≡ list_any p block.now }
{
    let mut seen = false;
    for b in block {
        seen |= stops(*b);
    }
    seen
}

// Past the bytes from place i on that are none of those that are looked for, which `stops` tells.
pub fn next_stop<F: Fn(u8) -> bool>(stops: F, text: &[u8], i: usize) -> usize
    requires callable { F.IsAlwaysCallable stops }
    requires inside { i ≤ length text.now }
    ensures { (p : ℕ → Bool) → ((b : ℕ) (r : Bool) → F.post stops b r → r ≡ p b) → result ≡ i + run (free p) (drop i text.now) }
{
    let mut j = i;
    // Kept: a `while`, as the place where the blocks end is used below.
    while BLOCK <= text.len() - j {
        let end = j + BLOCK;
        if any_in(&stops, &text[j..end]) {
            break;
        }
        j = end;
    }
    for k in j..text.len() {
        if stops(text[k]) {
            return k;
        }
    }
    text.len()
}
