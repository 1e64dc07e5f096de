// Stores into lent memory. Each says its whole effect: the values, the rest as it was, and so the length.
// Kept: memory and a place in it, since each clause says the effect on the whole memory.
ghost use Rattle.std.specs.Prelude.{◌≡◌, [], ◌∷◌, ◌+◌, ◌≤◌, length, take, drop, replicate};
ghost use Rattle.rules.specs.Bytes.{overwrite};
ghost use Rattle.scan.specs.Stores.{puts};

// The bytes of `from` go to `to` from place `at` on.
pub fn copy(from: &[u8], to: &mut [u8], at: usize)
    requires { at + length from.now ≤ length to.old }
    ensures { to.new ≡ puts to.old at from.now }
{
    // Kept: a loop; `copy_from_slice` becomes a call of the C library in `records`, dearer for the few bytes that most runs have.
    for (i, byte) in from.iter().enumerate() {
        to[at + i] = *byte;
    }
}

// The `len` bytes from place `from` on go to place `at`, which is past them.
pub fn copy_within(out: &mut [u8], from: usize, len: usize, at: usize)
    requires { (from + len ≤ at) × (at + len ≤ length out.old) }
    ensures { out.new ≡ puts out.old at (take len (drop from out.old)) }
{
    // Kept: a loop; std's `copy_within` goes backwards here, and takes a fifth longer for long values.
    for i in 0..len {
        out[at + i] = out[from + i];
    }
}

// `count` entries become 0, from place `at` on.
pub fn zero_from(ws: &mut [u32], at: usize, count: usize)
    requires { at + count ≤ length ws.old }
    ensures { ws.new ≡ puts ws.old at (replicate count 0) }
{
    let end = at + count;
    ws[at..end].fill(0);
}

// The first `count` entries become 0.
pub fn zero(ws: &mut [u32], count: usize)
    requires { count ≤ length ws.old }
    ensures { ws.new ≡ overwrite (replicate count 0) ws.old }
{
    zero_from(ws, 0, count);
}

// Four entries from place `at` on.
pub fn put4(ws: &mut [u32], at: usize, a: u32, b: u32, c: u32, d: u32)
    requires { at + 4 ≤ length ws.old }
    ensures { ws.new ≡ puts ws.old at (a ∷ b ∷ c ∷ d ∷ []) }
{
    // Kept: no plainer with `copy_from_slice`, for which an array of the four is made first; and that is slower.
    ws[at] = a;
    ws[at + 1] = b;
    ws[at + 2] = c;
    ws[at + 3] = d;
}
