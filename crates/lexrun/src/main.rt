// Lexes the cases of document 01, section "Both sides of each edge", and others that are easy to get wrong, and prints a line for each:
// 0, the pool in < >, and the tokens as KIND.PLACE.TEXT.SOURCE, where PLACE is that in the pool; or the number of the refusal, its code point and the place of its `$`.
// A line end LF is shown as `|`, CR as `%`, a space as `_`, a tab as `~`.
#![tactic(auto)]

use lexer::{Filled, LexError, LexRefusal};
use scan::column::part;
use std::io;
use std::io::Write;
use tokens::TokenKind;
use tokens::table::Table;

fn shown(b: u8) -> u8 {
    match b {
        b'\n' => b'|',
        b'\r' => b'%',
        b' ' => b'_',
        b'\t' => b'~',
        _ => b,
    }
}

fn print_byte<W: Write>(out: &mut W, b: u8) -> io::Result<()> {
    out.write_all(&[shown(b)])
}

fn print_bytes<W: Write>(out: &mut W, bytes: &[u8]) -> io::Result<()> {
    for b in bytes {
        print_byte(out, *b)?;
    }
    Ok(())
}

fn print_token<W: Write>(out: &mut W, tokens: &Table, j: usize) -> io::Result<()> {
    let kind = tokens.kind(j);
    write!(out, " {kind}.{}.", tokens.place(j))?;
    if kind <= TokenKind::Variable as u32 {
        print_bytes(out, tokens.text(j))?;
    } else {
        print_byte(out, tokens.byte(j))?;
    }
    write!(out, ".{}", tokens.source(j))
}

fn print_tokens<W: Write>(out: &mut W, tokens: &Table, pool: &[u8]) -> io::Result<()> {
    out.write_all(b"0 <")?;
    print_bytes(out, pool)?;
    out.write_all(b">")?;
    for j in 0..tokens.len() {
        print_token(out, tokens, j)?;
    }
    Ok(())
}

fn print_refusal<W: Write>(out: &mut W, e: LexError, at: usize) -> io::Result<()> {
    match e {
        LexError::MissingCloseVariable => write!(out, "5 0 @{at}"),
        LexError::InvalidVariableChar(c) => write!(out, "6 {c} @{at}"),
    }
}

fn run<W: Write>(out: &mut W, text: &[u8], ws: &mut [u32], pool: &mut [u8]) -> io::Result<()> {
    let n = text.len();
    if 64 < n {
        return Ok(());
    }
    if ws.len() < 4 * n {
        return Ok(());
    }
    if pool.len() < n {
        return Ok(());
    }
    match lexer::lex(text, ws, pool) {
        Err(LexRefusal { error, at }) => print_refusal(out, error, at)?,
        Ok(Filled { count, used }) => {
            print_tokens(out, &Table::new(ws, pool, count), part(pool, 0, used))?
        }
    }
    out.write_all(b"\n")
}

fn show<W: Write>(out: &mut W, text: &[u8]) -> io::Result<()> {
    let mut ws = [7u32; 256];
    let mut pool = [7u8; 64];
    run(out, text, &mut ws, &mut pool)
}

// Document 01, "Both sides of each edge".
fn both_sides<W: Write>(out: &mut W) -> io::Result<()> {
    show(out, b"")?;
    show(out, b"Name: a ")?;
    show(out, b"Name: a \n")?;
    show(out, b"Name: a  \n")?;
    show(out, b"Libs: ''")?;
    show(out, b"e=\nLibs: ${e}")?;
    show(out, b"a=${b}\nb=1\nName: ${a}")?;
    show(out, b"a=${a}")?;
    show(out, b"b=${c}\nc=${b}\na=${b}")?;
    show(out, b"Name: ${}")?;
    show(out, b"Name: $\nx")?;
    show(out, b"Name")?;
    show(out, b"Name\n")?;
    show(out, b"Foo: ${x")?;
    show(out, b"Libs: b\nLibs: 'a")?;
    show(out, b"Cflags: \"a\\\\\"")?;
    Ok(())
}

// Texts that a literal reader of document 01 gets wrong.
fn literal<W: Write>(out: &mut W) -> io::Result<()> {
    show(out, b"Libs: \\${e}\ne=")?;
    show(out, b"Libs: \\")?;
    show(out, b"Libs: a\\\\\n\n")?;
    show(out, b"Libs: a$ b")?;
    show(out, b"Name: a$ \n")?;
    show(out, b"Name: a #c\n")?;
    show(out, b"Name: a #c")?;
    show(out, b"Name:$\n\r\nURL: x")?;
    show(out, b"${a\n}")?;
    show(out, b"a$=b")?;
    show(out, b"\\\\#")?;
    show(out, b"a=${none}\nw=${v}x")?;
    show(out, b"Libs: ${v} ${v}")?;
    Ok(())
}

// Refusals with their code points, pairs of line ends, joined lines, comments, `$`.
fn others<W: Write>(out: &mut W) -> io::Result<()> {
    show(out, b"${\xc3\xa9}")?;
    show(out, b"a${\xe2\x82\xac}")?;
    show(out, b"ab${\xf0\x9f\x98\x80}")?;
    show(out, b"x ${")?;
    show(out, b"${a b}")?;
    show(out, b"${a}${b")?;
    show(out, b"#${\na")?;
    show(out, b"\r\n\n\r\r\r\n\n")?;
    show(out, b"a\\\nb")?;
    show(out, b"\\\na")?;
    show(out, b"a\\\r\nb")?;
    show(out, b"a#b\\\nc")?;
    show(out, b"a#b\rc")?;
    show(out, b"$$")?;
    show(out, b"$$$")?;
    show(out, b"a$")?;
    show(out, b"a\tb")?;
    show(out, b"\\#\\a")?;
    show(out, b"${a}b${c.d_1}")?;
    show(out, b"{a}")?;
    Ok(())
}

fn main(rt: HostRuntime) -> io::Result<()> {
    let mut out = io::writer(&rt);
    both_sides(&mut out)?;
    literal(&mut out)?;
    others(&mut out)
}
