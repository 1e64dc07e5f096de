// Numbers as bytes, the lowest first.
// Kept: bytes and a place in them, since each clause says the effect on all the bytes.
ghost use Rattle.std.specs.Prelude.{◌≡◌, ◌+◌, ◌≤◌, length, take, drop};
ghost use Rattle.rules.specs.Bytes.{to_little, from_little};
ghost use Rattle.scan.specs.Stores.{puts};

use crate::column::part;

// The `width` lowest bytes of n go to `out` from place `at` on.
// Kept by hand: its clause has any width, above eight too, and may not say less.
pub fn put_little(out: &mut [u8], at: usize, width: usize, n: u64)
    requires { at + width ≤ length out.old }
    ensures { out.new ≡ puts out.old at (to_little width n) }
{
    let mut rest = n;
    let bytes = &mut out[at..at + width];
    for byte in bytes.iter_mut() {
        *byte = (rest % 256) as u8;
        rest /= 256;
    }
}

// The number that the bytes are, at most eight.
pub fn little(bytes: &[u8]) -> u64
    requires { length bytes.now ≤ 8 }
    ensures { result ≡ from_little bytes.now }
{
    // Kept: no plainer with `from_le_bytes`, which wants eight bytes: an array is filled first, and that takes twice as long.
    let mut n: u64 = 0;
    for i in (0..bytes.len()).rev() {
        n = bytes[i] as u64 + 256 * n;
    }
    n
}

// The number in the `width` bytes from place `at` on; past the end there are none.
pub fn get_little(bytes: &[u8], at: usize, width: usize) -> u64
    requires { width ≤ 8 }
    ensures { result ≡ from_little (take width (drop at bytes.now)) }
{
    little(part(bytes, at, width))
}
