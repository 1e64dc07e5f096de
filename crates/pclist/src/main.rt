// Lists the fields of a text on standard input (document 01, "Records and listing"; the rule is crates/rules/specs/Pclist.antt).
#![tactic(auto)]

ghost use Rattle.std.specs.Prelude.{◌≤◌, length, IfOk};

use answers::{Answer, Number, plain};
use scan::column::part;
use std::io;
use std::io::{Read, Write};

// "`pc`, the number, and the need (0 unless the number is 0 or 17)"
fn print_line<W: Write>(out: &mut W, answer: Answer) -> io::Result<()> {
    let number = answers::number_of(answer.number);
    let need = match answer.number {
        Number::Accepted | Number::OutputShort => answer.detail.value,
        _ => 0,
    };
    writeln!(out, "pc {number} {need}")
}

// "then the listing. If the listing refuses, `pc 17` and the listing's need stand alone."
fn print_listing<W: Write>(
    out: &mut W,
    written: u64,
    records: &[u8],
    lines: &mut [u8],
) -> io::Result<()> {
    let listed = listing::listing(part(records, 0, written as usize), lines);
    match listed.number {
        Number::Accepted => {
            print_line(out, plain(Number::Accepted, written))?;
            out.write_all(part(lines, 0, listed.detail.value as usize))
        }
        _ => print_line(out, listed),
    }
}

// Reads until the buffer is full or the input ends, and tells how many bytes came.
fn fill<R: Read>(input: &mut R, buffer: &mut [u8]) -> io::Result<usize>
    ensures { IfOk result (λ n. n ≤ length buffer.old) }
{
    let mut bytes = input.bytes();
    for (count, byte) in buffer.iter_mut().enumerate() {
        match bytes.next() {
            Some(read) => *byte = read?,
            None => return Ok(count),
        }
    }
    Ok(buffer.len())
}

// The memory that a run is lent: for the text, for the reader and its records, and for their lines.
struct Buffers<'a> {
    text: &'a mut [u8],
    workspace: &'a mut [u32],
    pool: &'a mut [u8],
    records: &'a mut [u8],
    lines: &'a mut [u8],
}

fn run<R: Read, W: Write>(input: &mut R, out: &mut W, buffers: Buffers<'_>) -> io::Result<()> {
    let Buffers {
        text,
        workspace,
        pool,
        records,
        lines,
    } = buffers;
    let count = fill(input, text)?;
    match pkg_config::read(&text[..count], workspace, pool, records) {
        Ok(written) => print_listing(out, written, records, lines),
        Err(refusal) => print_line(out, refusal.answer()),
    }
}

// "The program prepares 16,384 workspace entries at zero, so 1,360 bytes pass and 1,361 give 2."
fn main(rt: HostRuntime) -> io::Result<()> {
    let mut text = [0u8; 1361];
    let mut workspace = [0u32; 16384];
    let mut pool = [0u8; 1361];
    let mut records = [0u8; 65536];
    let mut lines = [0u8; 65536];
    let buffers = Buffers {
        text: &mut text,
        workspace: &mut workspace,
        pool: &mut pool,
        records: &mut records,
        lines: &mut lines,
    };
    run(&mut rt.reader(), &mut io::writer(&rt), buffers)
}
