// Reads the fixed list of upstream's answers on standard input (host/oracle/answers/README.md has its form), gives each text to the
// reader, and compares. Prints a line for each text that differs, then how many texts there are and how many differ.
#![tactic(auto)]

use answers::{Detail, Name, Refusal, number_of};
use scan::column::part;
use scan::little::get_little;
use std::io;
use std::io::{Read, Write};

// What the list says of a text.
#[derive(Clone, Copy)]
enum Expected<'a> {
    // its records
    Records(&'a [u8]),
    // how many bytes its records need: more than 65,536, which do not fit the output, so their bytes are not compared
    Long(u64),
    // a refusal's number, and its detail
    Refused(u64, &'a [u8]),
}

impl<'a> Expected<'a> {
    // By the first byte: 0, 255, or the number of a refusal.
    fn new(bytes: &'a [u8]) -> Expected<'a> {
        let rest = part(bytes, 1, bytes.len());
        match get_little(bytes, 0, 1) {
            0 => Expected::Records(rest),
            255 => Expected::Long(get_little(rest, 0, 8)),
            number => Expected::Refused(number, rest),
        }
    }
}

// Reads n bytes to the front of a buffer; false where it is shorter, or the input ends before.
fn fill<R: Read>(input: &mut R, buffer: &mut [u8], n: usize) -> io::Result<bool> {
    if buffer.len() < n {
        return Ok(false);
    }
    match input.read_exact(&mut buffer[..n]) {
        Ok(()) => Ok(true),
        Err(e) if e.kind() == io::ErrorKind::UnexpectedEof => Ok(false),
        Err(e) => Err(e),
    }
}

// A number of 2 or 4 bytes, little-endian; 0 where the input ends before.
fn read_number<R: Read>(input: &mut R, width: usize) -> io::Result<usize> {
    let mut bytes = [0u8; 8];
    if fill(input, &mut bytes, width)? {
        return Ok(get_little(&bytes, 0, 4) as usize);
    }
    Ok(0)
}

// 2 bytes of length and so many bytes, against a name in the pool.
fn same_name(name: Name, expected: &[u8], pool: &[u8]) -> bool {
    let place = name.place as usize;
    let length = name.length as usize;
    get_little(expected, 0, 2) == length as u64
        && part(expected, 2, length) == part(pool, place, length)
}

// 4 bytes of value, the first name and the second.
fn same_detail(detail: Detail, expected: &[u8], pool: &[u8]) -> bool {
    let names = part(expected, 4, expected.len());
    let after = 2 + detail.first.length as usize;
    get_little(expected, 0, 4) == detail.value
        && same_name(detail.first, names, pool)
        && same_name(detail.second, part(names, after, names.len()), pool)
}

// The records and nothing else, the same need, or the same refusal.
fn same_answer(
    answer: Result<u64, Refusal>,
    expected: Expected,
    pool: &[u8],
    output: &[u8],
) -> bool {
    match (expected, answer) {
        (Expected::Records(records), Ok(written)) => {
            records.len() as u64 == written && records == part(output, 0, records.len())
        }
        (Expected::Long(bytes), Err(Refusal::OutputShort(need))) => bytes == need,
        (Expected::Refused(number, detail), Err(refusal)) => {
            number == number_of(refusal.number()) as u64
                && same_detail(refusal.detail(), detail, pool)
        }
        _ => false,
    }
}

// Whether the reader answers the next text of the list as it says.
// Kept: the buffers one by one, since the proof does not close over the fields of a lent struct.
fn next_is_same<R: Read>(
    input: &mut R,
    text: &mut [u8],
    expected: &mut [u8],
    workspace: &mut [u32],
    pool: &mut [u8],
    output: &mut [u8],
) -> io::Result<bool> {
    let n = read_number(input, 2)?;
    if !fill(input, text, n)? {
        return Ok(false);
    }
    let m = read_number(input, 4)?;
    if !fill(input, expected, m)? {
        return Ok(false);
    }
    let answer = pkg_config::read(part(text, 0, n), workspace, pool, output);
    Ok(same_answer(answer, Expected::new(part(expected, 0, m)), pool, output))
}

// The memory that a run is lent beside the workspace: for a text and what is expected of it, and for the reader.
struct Buffers<'a> {
    text: &'a mut [u8],
    expected: &'a mut [u8],
    pool: &'a mut [u8],
    output: &'a mut [u8],
}

// The list: its first eight bytes, how many texts it has, and the texts with their answers. The workspace comes with its length as a parameter: so large an
// array, as a slice of `main`, would be written out in the proof.
fn run<const N: usize, R: Read, W: Write>(
    input: &mut R,
    out: &mut W,
    workspace: &mut [u32; N],
    buffers: Buffers<'_>,
) -> io::Result<()> {
    let Buffers {
        text,
        expected,
        pool,
        output,
    } = buffers;
    fill(input, text, 8)?;
    if part(text, 0, 8) != b"cabbage1".as_slice() {
        return writeln!(out, "not a list");
    }
    let count = read_number(input, 4)?;
    let mut found = 0usize;
    for i in 0..count {
        if !next_is_same(input, text, expected, workspace, pool, output)? {
            writeln!(out, "differs: {i}")?;
            found += 1;
        }
    }
    writeln!(out, "{count} texts, {found} differences")
}

// Room for the longest text, 65,535 bytes: 12 * 65,535 + 64 entries of workspace.
fn main(rt: HostRuntime) -> io::Result<()> {
    let mut text = [0u8; 65535];
    let mut expected = [0u8; 65537];
    let mut workspace = [0u32; 786484];
    let mut pool = [0u8; 65535];
    let mut output = [0u8; 65536];
    let buffers = Buffers {
        text: &mut text,
        expected: &mut expected,
        pool: &mut pool,
        output: &mut output,
    };
    run(
        &mut rt.reader(),
        &mut io::writer(&rt),
        &mut workspace,
        buffers,
    )
}
