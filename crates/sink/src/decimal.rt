// Numbers in decimal.
ghost use Rattle.std.specs.Prelude.{◌≡◌, ◌+◌, ◌≤◌, length};
ghost use Rattle.rules.specs.Listing.{decimal};
ghost use Rattle.scan.specs.Stores.{puts};

// How many digits a number has.
pub fn decimal_length(n: u64) -> usize
    ensures { result ≡ length (decimal n) }
{
    // Kept: no plainer with `checked_ilog10`, which is none for 0 and needs a case for it; and that takes longer.
    let mut rest = n;
    let mut count = 1;
    while 10 <= rest {
        rest /= 10;
        count += 1;
    }
    count
}

// The digits go to `out` from place `at` on; the place after them. They are stored from the last to the first.
// Kept: the clause says what becomes of the whole output, so it needs the place.
pub fn put_decimal(out: &mut [u8], at: usize, n: u64) -> usize
    requires { at + length (decimal n) ≤ length out.old }
    ensures stored { out.new ≡ puts out.old at (decimal n) }
    ensures next { result ≡ at + length (decimal n) }
{
    let end = at + decimal_length(n);
    // Kept: no plainer with `for i in (at..end).rev()`, which divides by hand all the same; and a listing takes longer, as with the crate itoa.
    let mut rest = n;
    let mut i = end;
    while 10 <= rest {
        i -= 1;
        out[i] = b'0' + (rest % 10) as u8;
        rest /= 10;
    }
    out[at] = b'0' + rest as u8;
    end
}
