// From the file that the workspace holds to its records (document 01, "Variables, then fields"; upstream's resolve).
ghost use Rattle.std.specs.Prelude.{◌≡◌};
ghost use Rattle.rules.specs.Tokens.{Token};
ghost use Rattle.rules.specs.Variables.{key_at};
ghost use Rattle.rules.specs.Reading.{records_of_file};
ghost use Rattle.rules.proofs.RefusalLaws.{after_variables};
ghost use Rattle.answers.specs.Tells.{Names};
ghost use Rattle.answers.specs.Refusals.{Refuses};
ghost use Rattle.tokens.specs.Entries.{decode};
ghost use Rattle.workspace.specs.Map.{Room, keys_of, file_in};
ghost use Rattle.names.specs.Named.{named};
ghost use Rattle.writer.specs.Tables.{tables_in};
ghost use Rattle.pkg_config.specs.Call.{Ends};
ghost use Rattle.pkg_config.specs.Stages.{Filed, Solved, Measures, unresolved, stopped};

use answers::{Name, Refusal};
use names::look_up;
use passes::resolve_variables;
use passes::visits::Unresolved;
use records::measure::{Stop, measure};
use records::write::write_fields;
use scan::column::column;
use tokens::table::Table;
use workspace::layout::Layout;

// What is shown of the key of the variable of rank i.
// Kept: no heap, so a variable is known by its rank, and a token by its place, in lent columns.
fn key_name(tokens: &Table, keys: &[u32], i: usize) -> Name
    ensures { Names result (key_at (named tokens.now keys.now) i) }
{
    if keys.len() <= i {
        return Name::NONE;
    }
    tokens.name(keys[i] as usize)
}

// 15 or 16 of a variable.
fn variable_refusal(tokens: &Table, keys: &[u32], why: Unresolved) -> Refusal
    ensures { Refuses result (unresolved tokens.now (named tokens.now keys.now) why) }
{
    match why {
        Unresolved::TooLarge(i) => Refusal::ContentTooLarge(0, key_name(tokens, keys, i)),
        Unresolved::Lacks(i, j) => {
            Refusal::UndefinedVariable(0, tokens.name(j), key_name(tokens, keys, i))
        }
    }
}

// The same by the workspace.
fn refusal_in(ws: &[u32], pool: &[u8], layout: Layout, why: Unresolved) -> Refusal
    requires { Room layout.n layout.count layout.v ws.now }
    ensures { Refuses result (unresolved (decode layout.count ws.now pool.now) (named (decode layout.count ws.now pool.now) (keys_of layout.n layout.v ws.now)) why) }
{
    let Layout { n, count, v } = layout;
    variable_refusal(&Table::new(ws, pool, count), column(ws, 4 * n, v), why)
}

// 15 or 16 of a field.
fn field_refusal(tokens: &Table, why: Stop) -> Refusal
    ensures { (key : Token) → Refuses result (stopped tokens.now key why) }
{
    match why {
        Stop::Undefined(f, j) => Refusal::UndefinedVariable(f, tokens.name(j), Name::NONE),
        Stop::TooLarge(f) => Refusal::ContentTooLarge(f, Name::NONE),
    }
}

// The records, where the output has room for all of them.
// Kept: no plainer: three lent buffers, all different, which go on to `write_fields` one by one.
fn write_records(
    ws: &mut [u32],
    pool: &[u8],
    output: &mut [u8],
    layout: Layout,
    need: u64,
) -> Result<u64, Refusal>
    requires { Measures layout.n layout.count layout.v need ws.old pool.now }
    ensures { Ends layout.n (after_variables (file_in layout.n layout.count layout.v ws.old pool.now) (tables_in layout.n layout.count layout.v ws.old pool.now).values)
        ws.old output.old ws.new output.new result }
{
    let room = output.len() as u64;
    if room < need {
        return Err(Refusal::OutputShort(need));
    }
    write_fields(ws, pool, output, layout);
    Ok(need)
}

// The fields by number, or the first of them that is refused.
fn resolve_fields(
    ws: &mut [u32],
    pool: &[u8],
    output: &mut [u8],
    layout: Layout,
) -> Result<u64, Refusal>
    requires { Solved layout.n layout.count layout.v ws.old pool.now }
    ensures { Ends layout.n (after_variables (file_in layout.n layout.count layout.v ws.old pool.now) (tables_in layout.n layout.count layout.v ws.old pool.now).values)
        ws.old output.old ws.new output.new result }
{
    match measure(ws, pool, layout) {
        Ok(bytes) => write_records(ws, pool, output, layout, bytes),
        Err(why) => Err(field_refusal(&Table::new(ws, pool, layout.count), why)),
    }
}

// The variables, then the fields, then their records.
pub fn resolve_file(
    ws: &mut [u32],
    pool: &[u8],
    output: &mut [u8],
    layout: Layout,
) -> Result<u64, Refusal>
    requires { Filed layout.n layout.count layout.v ws.old pool.now }
    ensures { Ends layout.n (records_of_file (file_in layout.n layout.count layout.v ws.old pool.now)) ws.old output.old ws.new output.new result }
{
    let Layout { n, count, v } = layout;
    look_up(ws, pool, n, count, v);
    match resolve_variables(ws, pool, layout).settled {
        Ok(()) => resolve_fields(ws, pool, output, layout),
        Err(why) => Err(refusal_in(ws, pool, layout, why)),
    }
}
