// From tokens to variables, fields and arguments (document 01, "Lines"; upstream's parser), with the refusals 7 to 14 in the document's order.
#![tactic(auto)]

ghost use Rattle.std.specs.Prelude.{◌≡◌, ◌+◌, ◌*◌, ◌≤◌, ◌<◌, length};
ghost use Rattle.std.specs.List.{list_all};
ghost use Rattle.rules.specs.Tokens.{shown_name};
ghost use Rattle.rules.specs.Lexing.{is_identifier};
ghost use Rattle.answers.specs.Tells.{Names};
ghost use Rattle.fields.specs.Numbers.{number_of};
ghost use Rattle.tokens.specs.Entries.{decode, token_at};
ghost use Rattle.parser.specs.Parse.{Ready, AtLine, assignment_in, field_in_line, IsField, TakesLine, KeepsField, Beyond, Steps, NoFields, Parsable, Parses};

pub mod places;

use crate::places::{Layout, Line};
use answers::{Name, Refusal};
use fields::{Field, Seen};
use lines::line::{LineStart, line_end, line_start, value_end};
use lines::list::list_value;
use lines::value::ListPlace;
use names::{Assigned, insert, settle};
use scan::class::is_valid_identifier;
use scan::store::zero_from;
use tokens::TokenKind;
use tokens::table::Table;

// How far the lines are read.
#[derive(Clone, Copy)]
pub struct Progress {
    // variables stored, and where their keys begin
    pub variables: usize,
    pub first: usize,
    // the fields already seen
    pub seen: Seen,
    // the next line's first token
    pub next: usize,
}

// Every character is one that references may have too.
fn is_variable_name(name: &[u8]) -> bool
    ensures { result ≡ list_all (λ b. is_identifier b) name.now }
{
    name.iter().all(|b| is_valid_identifier(*b))
}

// The name that token j shows in a detail: "kinds 1 and 2 only", at the token's own place.
fn name_at(tokens: &Table, j: usize) -> Name
    ensures { Names result (shown_name (token_at tokens.now j)) }
{
    if tokens.kind(j) <= TokenKind::Variable as u32 {
        tokens.name(j)
    } else {
        Name::NONE
    }
}

// Keeps the line's field, whose value's entries are where it starts and `to`, unless it was given before. "then 13"
// Kept: the workspace as one slice, since a line's value goes to three of its columns at once.
fn keep_field(
    ws: &mut [u32],
    pool: &[u8],
    layout: Layout,
    line: Line,
    field: Field,
    to: usize,
    progress: Progress,
) -> Result<Progress, Refusal>
    requires room { 12 * layout.n + 64 ≤ length ws.old }
    requires key { line.key < layout.count }
    requires from { line.from ≤ layout.n }
    requires to { to ≤ layout.n }
    ensures keeps { KeepsField layout.n layout.count line.end line.key line.from to (number_of field) ws.old ws.new pool.now progress result }
    ensures beyond { Beyond layout.n ws.old ws.new }
{
    let n = layout.n;
    if progress.seen.has(field) {
        let tokens = Table::new(ws, pool, layout.count);
        return Err(Refusal::DuplicateField(name_at(&tokens, line.key)));
    }
    ws[5 * n + line.key] = line.from as u32;
    ws[6 * n + line.key] = to as u32;
    ws[12 * n + field as usize] = (line.key + 1) as u32;
    Ok(Progress {
        seen: progress.seen.with(field),
        next: layout.past_line(line.end),
        ..progress
    })
}

// A line with `=`: "the value is read, then 10, then 11".
// Kept: five values, each of a type of its own; so in the functions below.
fn assign(
    ws: &mut [u32],
    pool: &[u8],
    layout: Layout,
    line: Line,
    progress: Progress,
) -> Result<Progress, Refusal>
    requires { AtLine layout line ws.old pool.now progress }
    ensures takes { TakesLine layout line ws.old ws.new pool.now progress (assignment_in layout line ws.old pool.now) result }
    ensures beyond { Beyond layout.n ws.old ws.new }
{
    let count = layout.count;
    let tokens = Table::new(ws, pool, count);
    let to = value_end(&tokens, line.end, line.from);
    if !is_variable_name(tokens.text(line.key)) {
        return Err(Refusal::InvalidVariableName(name_at(&tokens, line.key)));
    }
    let value = Assigned {
        key: line.key,
        from: line.from,
        end: to,
    };
    let Some(first) = insert(
        ws,
        pool,
        layout.n,
        count,
        progress.first,
        progress.variables,
        value,
    ) else {
        let again = Table::new(ws, pool, count);
        return Err(Refusal::DuplicateVariable(name_at(&again, line.key)));
    };
    Ok(Progress {
        variables: progress.variables + 1,
        first,
        next: layout.past_line(line.end),
        ..progress
    })
}

// A line with `:` whose key is the field's: "the value is read (14 is possible for 8 to 10), then 13".
fn give_known(
    ws: &mut [u32],
    pool: &[u8],
    layout: Layout,
    line: Line,
    field: Field,
    progress: Progress,
) -> Result<Progress, Refusal>
    requires at { AtLine layout line ws.old pool.now progress }
    requires known { IsField (number_of field) (token_at (decode layout.count ws.old pool.now) line.key) }
    ensures takes { TakesLine layout line ws.old ws.new pool.now progress (field_in_line layout line ws.old pool.now) result }
    ensures beyond { Beyond layout.n ws.old ws.new }
{
    if field.is_string() {
        let to = value_end(&Table::new(ws, pool, layout.count), line.end, line.from);
        return keep_field(ws, pool, layout, line, field, to, progress);
    }
    let place = ListPlace {
        n: layout.n,
        from: line.from,
        end: line.end,
    };
    let Ok(arguments) = list_value(ws, place) else {
        return Err(Refusal::UnterminatedQuote);
    };
    keep_field(ws, pool, layout, line, field, arguments, progress)
}

// A line with `:`; "else 12 at once".
fn give(
    ws: &mut [u32],
    pool: &[u8],
    layout: Layout,
    line: Line,
    progress: Progress,
) -> Result<Progress, Refusal>
    requires { AtLine layout line ws.old pool.now progress }
    ensures takes { TakesLine layout line ws.old ws.new pool.now progress (field_in_line layout line ws.old pool.now) result }
    ensures beyond { Beyond layout.n ws.old ws.new }
{
    let tokens = Table::new(ws, pool, layout.count);
    let Some(field) = Field::of_key(tokens.text(line.key)) else {
        return Err(Refusal::UnknownField(name_at(&tokens, line.key)));
    };
    give_known(ws, pool, layout, line, field, progress)
}

// The line that starts at token progress.next.
fn read_line(
    ws: &mut [u32],
    pool: &[u8],
    layout: Layout,
    progress: Progress,
) -> Result<Progress, Refusal>
    requires ready { Ready progress.first layout.n layout.count progress.variables progress.next ws.old pool.now }
    requires left { progress.next < layout.count }
    ensures steps { Steps layout.n layout.count ws.old ws.new pool.now progress result }
    ensures beyond { Beyond layout.n ws.old ws.new }
{
    let count = layout.count;
    let tokens = Table::new(ws, pool, count);
    let end = line_end(&tokens, progress.next);
    match line_start(&tokens, end, progress.next) {
        LineStart::Empty => Ok(Progress {
            next: layout.past_line(end),
            ..progress
        }),
        LineStart::WrongStart(k) => Err(Refusal::UnexpectedAtStart(
            tokens.kind(k),
            name_at(&tokens, k),
        )),
        LineStart::WrongAfter(k) => Err(Refusal::UnexpectedAfterKey(
            tokens.kind(k),
            name_at(&tokens, k),
        )),
        LineStart::Ended => Err(Refusal::EndedAfterKey),
        LineStart::Assigns { key, from } => {
            assign(ws, pool, layout, Line { key, from, end }, progress)
        }
        LineStart::Gives { key, from } => give(ws, pool, layout, Line { key, from, end }, progress),
    }
}

// Line after line, where no field is in the workspace yet. The keys of variables begin in the middle of their column: they can grow at both ends.
fn read_lines(ws: &mut [u32], pool: &[u8], layout: Layout) -> Result<usize, Refusal>
    requires parsable { Parsable layout.n layout.count ws.old }
    requires none { NoFields layout.n ws.old }
    ensures parses { Parses layout.n layout.count ws.old ws.new pool.now result }
    ensures beyond { Beyond layout.n ws.old ws.new }
{
    let n = layout.n;
    let mut progress = Progress {
        variables: 0,
        first: 4 * n + n / 2,
        seen: Seen::NONE,
        next: 0,
    };
    // Kept: a `for` does not go on from where a line's step says that the next begins.
    while progress.next < layout.count {
        progress = read_line(ws, pool, layout, progress)?;
    }
    settle(ws, n, progress.first, progress.variables);
    Ok(progress.variables)
}

// Reads the lines of the `count` tokens: how many variables there are, with the file in the workspace, or the first refusal.
// Kept: its clause, `Parses`, speaks of the two numbers; their `Layout` is made here.
pub fn parse(ws: &mut [u32], pool: &[u8], n: usize, count: usize) -> Result<usize, Refusal>
    requires { Parsable n count ws.old }
    ensures { Parses n count ws.old ws.new pool.now result × Beyond n ws.old ws.new }
{
    zero_from(ws, 12 * n, 11);
    read_lines(ws, pool, Layout { n, count })
}
