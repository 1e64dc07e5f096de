// The calls for C (document 01, "Records and listing"): include/cabbagelute.h says every promise in words.
#![tactic(auto)]

pub mod detail;
pub mod items;

ghost use Rattle.std.specs.Prelude.{◌≡◌, ◌+◌, ◌≤◌, length};
ghost use Rattle.rules.specs.Bytes.{overwrite};
ghost use Rattle.export.specs.Calls.{ExportsIn, ExportsWith, Exports, detail_of};

use answers::{Answer, Detail, number_of};
use detail::put_numbers;
use pkg_config::read;

pub mod version_calls;

// The sizes of the exported calls. Kept: sizes belong to a named type, as limits do.
#[derive(Clone, Copy)]
pub struct Size;

impl Size {
    // the bytes of a detail: six numbers of eight bytes
    pub const DETAIL: usize = 48;

    // the entries that the first call has of its own
    pub const ENTRIES: usize = 16384;
}

// The answer as six 8-byte little-endian numbers: refusal, number, then place and length of each name.
fn put_detail(detail: &mut [u8], answer: Answer)
    requires { 48 ≤ length detail.old }
    ensures { detail.new ≡ overwrite (detail_of answer) detail.old }
{
    let Detail {
        value,
        first,
        second,
    } = answer.detail;
    let numbers = [
        number_of(answer.number) as u64,
        value,
        first.place as u64,
        first.length as u64,
        second.place as u64,
        second.length as u64,
    ];
    put_numbers(detail, &numbers);
}

// With a lent workspace, counted in entries of 32 bits.
// Kept: the arguments are those of the C call.
pub fn cabbagelute_read_in(
    text: &[u8],
    workspace: &mut [u32],
    pool: &mut [u8],
    output: &mut [u8],
    detail: &mut [u8],
) -> u32
    ensures { ExportsIn text.now workspace.old pool.old output.old detail.old
        workspace.new pool.new output.new detail.new result }
{
    if detail.len() < Size::DETAIL {
        return 19;
    }
    let answer = Answer::from(read(text, workspace, pool, output));
    put_detail(detail, answer);
    number_of(answer.number)
}

// The same, said without what the workspace holds.
// Kept: the arguments are those of the C call.
fn read_with(
    text: &[u8],
    workspace: &mut [u32],
    pool: &mut [u8],
    output: &mut [u8],
    detail: &mut [u8],
) -> u32
    ensures { ExportsWith (length workspace.old) text.now pool.old output.old detail.old
        pool.new output.new detail.new result }
{
    cabbagelute_read_in(text, workspace, pool, output, detail)
}

// With a workspace of its own: 16,384 entries, so texts of up to 1,360 bytes.
pub fn cabbagelute_read(text: &[u8], pool: &mut [u8], output: &mut [u8], detail: &mut [u8]) -> u32
    ensures { Exports text.now pool.old output.old detail.old pool.new output.new detail.new result }
{
    let mut workspace = [0u32; Size::ENTRIES];
    read_with(text, &mut workspace, pool, output, detail)
}
