// The details of the calls for C: numbers of eight bytes each, the lowest byte first.
ghost use Rattle.std.specs.Prelude.{◌≡◌, ◌*◌, ◌≤◌, length};
ghost use Rattle.rules.specs.Bytes.{overwrite};
ghost use Rattle.export.specs.Details.{numbers_bytes};

use scan::little::put_little;

// The numbers go to the front of the detail, which has room for them.
pub fn put_numbers(detail: &mut [u8], numbers: &[u64])
    requires { 8 * length numbers.now ≤ length detail.old }
    ensures { detail.new ≡ overwrite (numbers_bytes numbers.now) detail.old }
{
    for (i, number) in numbers.iter().enumerate() {
        put_little(detail, 8 * i, 8, *number);
    }
}
