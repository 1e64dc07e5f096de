// The reader (document 01, "Buffers" and "Numbers returned"; upstream's types.rs and lib.rs): one call on lent buffers.
#![tactic(auto)]

mod file;

ghost use Rattle.std.specs.Prelude.{◌≡◌, ◌+◌, ◌*◌, ◌≤◌, length};
ghost use Rattle.tokens.specs.Entries.{decode};
ghost use Rattle.parser.specs.Parse.{Parsable};
ghost use Rattle.pkg_config.specs.Call.{Reads, Ends, Lent, ReadsText, lines_read};

use answers::Refusal;
use fields::Limit;
use file::resolve_file;
use lexer::lex;
use parser::parse;
use scan::store::zero;
use utf8::is_well_formed;
use workspace::layout::Layout;

// The lines of the tokens, then what they say.
// Kept: a `Layout` has the number of variables, which `parse` tells only here.
fn read_tokens(
    ws: &mut [u32],
    pool: &[u8],
    output: &mut [u8],
    n: usize,
    count: usize,
) -> Result<u64, Refusal>
    requires { Parsable n count ws.old }
    ensures { Ends n (lines_read (decode count ws.old pool.now)) ws.old output.old ws.new output.new result }
{
    let v = parse(ws, pool, n, count)?;
    resolve_file(ws, pool, output, Layout { n, count, v })
}

// "Then the whole text is lexed, then lines in order, then variables, then fields, then 17."
fn read_text(
    text: &[u8],
    ws: &mut [u32],
    pool: &mut [u8],
    output: &mut [u8],
) -> Result<u64, Refusal>
    requires { Lent text.now ws.old pool.old }
    ensures { ReadsText text.now ws.old pool.old output.old ws.new pool.new output.new result }
{
    let n = text.len();
    let lexed = lex(text, ws, pool)?;
    read_tokens(ws, pool, output, n, lexed.count)
}

// Reads a text: how many bytes its records take, or why it has none. A text of n bytes asks for 12n + 64 entries of workspace and n bytes of pool; the output is written only where all records fit.
pub fn read(
    text: &[u8],
    workspace: &mut [u32],
    pool: &mut [u8],
    output: &mut [u8],
) -> Result<u64, Refusal>
    ensures { Reads text.now workspace.old pool.old output.old workspace.new pool.new output.new result }
{
    let n = text.len();
    if Limit::TEXT < n {
        return Err(Refusal::TooLong);
    }
    let room = 12 * n + 64;
    if workspace.len() < room {
        return Err(Refusal::WorkspaceShort);
    }
    if pool.len() < n {
        return Err(Refusal::PoolShort);
    }
    if !is_well_formed(text) {
        return Err(Refusal::NotUtf8);
    }
    let result = read_text(text, workspace, pool, output);
    zero(workspace, room);
    result
}
