// What the records of all fields need, by lengths alone, or the first refusal: fields by number, arguments in order. Nothing is written.
ghost use Rattle.std.specs.Prelude.{◌≡◌, ◌<◌, Ok};
ghost use Rattle.passes.specs.Sums.{size_in};
ghost use Rattle.workspace.specs.Map.{Room};
ghost use Rattle.records.specs.Measuring.{on_sum, sum_of_row, measure_rows, measure_entry, measure_in};

use crate::RecordKind;
use passes::sums;
use passes::sums::View;
use scan::column::{column, entry};
use tokens::table::Table;
use workspace::layout::Layout;

// The first refusal.
#[derive(Clone, Copy)]
pub enum Stop {
    // the field and the token of a reference without a value
    Undefined(usize, usize),
    // the field of a value that is too large
    TooLarge(usize),
}

// What measuring reads: what sums read; by key token, and by row of an argument, the value's first token, and the token past it. Of a list's key token they
// have the first row of its arguments, and how many there are.
#[derive(Clone, Copy)]
struct Values<'a> {
    view: View<'a>,
    starts: &'a [u32],
    ends: &'a [u32],
}

impl<'a> Values<'a> {
    // The length of the value of this row, which is of field f.
    fn length(self, f: usize, row: usize) -> Result<u64, Stop>
        ensures { result ≡ on_sum f (sum_of_row (size_in self.entry.view.tokens.now self.entry.view.ranks.now self.entry.view.lengths.now) self.entry.starts.now self.entry.ends.now row) (λ x. Ok x) }
    {
        match self
            .view
            .sum_on(entry(self.starts, row), entry(self.ends, row), 0)
        {
            Ok(sum) => Ok(sum as u64),
            Err(sums::Stop::Missing(j, _)) => Err(Stop::Undefined(f, j)),
            Err(sums::Stop::Over) => Err(Stop::TooLarge(f)),
        }
    }

    // `need` bytes, and the records of the arguments of field f in the rows from `row` on.
    // Kept: four numbers of one sum; a struct of them would be made for one call.
    fn rows(self, f: usize, need: u64, row: usize, rows: usize) -> Result<u64, Stop>
        requires { (row < 4294967296) × (rows < 4294967296) × (need < 4611686018427387904) }
        ensures { result ≡ measure_rows (size_in self.entry.view.tokens.now self.entry.view.ranks.now self.entry.view.lengths.now) self.entry.starts.now self.entry.ends.now f need row rows }
    {
        let mut sum = need;
        for i in row..row + rows {
            sum += 6 + self.length(f, i)?;
        }
        Ok(sum)
    }

    // `need` bytes, and the records of field f by its entry, if it is there.
    fn field(self, f: usize, need: u64, key: usize) -> Result<u64, Stop>
        requires { need < 4611686018427387000 }
        ensures { result ≡ measure_entry (size_in self.entry.view.tokens.now self.entry.view.ranks.now self.entry.view.lengths.now) self.entry.starts.now self.entry.ends.now f need key }
    {
        let Some(row) = key.checked_sub(1) else {
            return Ok(need);
        };
        if RecordKind::FIRST_LIST <= f {
            let first = entry(self.starts, row);
            let rows = entry(self.ends, row);
            return self.rows(f, need + 10, first, rows);
        }
        Ok(need + (6 + self.length(f, row)?))
    }
}

// The bytes that the records of all fields need, or the first refusal.
pub fn measure(ws: &[u32], pool: &[u8], layout: Layout) -> Result<u64, Stop>
    requires { Room layout.n layout.count layout.v ws.now }
    ensures { result ≡ measure_in layout.n layout.count layout.v ws.now pool.now }
{
    let Layout { n, count, v } = layout;
    let tokens = Table::new(ws, pool, count);
    let view = View {
        tokens: &tokens,
        ranks: column(ws, 7 * n, n),
        lengths: column(ws, 8 * n, v),
    };
    let values = Values {
        view,
        starts: column(ws, 5 * n, n),
        ends: column(ws, 6 * n, n),
    };
    let entries = column(ws, 12 * n, 11);
    let mut need: u64 = 0;
    for f in 1..=RecordKind::LAST_FIELD {
        need = values.field(f, need, entry(entries, f))?;
    }
    Ok(need)
}
