// Parts of lent memory, its columns, and their entries.
ghost use Rattle.std.specs.Prelude.{◌≡◌, ◌+◌, ◌≤◌, ◌<◌, length, take, drop, get_or};

// The `len` bytes from `start` on: as many of them as there are, so it asks nothing.
// Kept: start and length as they come, of which nothing is asked.
pub fn part(bytes: &[u8], start: usize, len: usize) -> &[u8]
    ensures { result.now ≡ take len (drop start bytes.now) }
{
    let rest = bytes.get(start..).unwrap_or(&[]);
    rest.get(..len).unwrap_or(rest)
}

// The column of n entries at base, which is inside.
pub fn column(ws: &[u32], base: usize, n: usize) -> &[u32]
    requires { base + n ≤ length ws.now }
    ensures { result.now ≡ take n (drop base ws.now) }
{
    let end = base + n;
    &ws[base..end]
}

// Entry k of a column; 0 past its end.
pub fn entry(column: &[u32], k: usize) -> usize
    ensures value { result ≡ get_or column.now k 0 }
    ensures small { result < 4294967296 }
{
    column.get(k).copied().unwrap_or(0) as usize
}
