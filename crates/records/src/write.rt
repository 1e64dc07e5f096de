// The records themselves: kinds 1 to 10 are the fields present, by number; a list's record is followed by those of its arguments.
ghost use Rattle.std.specs.Prelude.{◌≡◌, ◌+◌, ◌≤◌, length, get_or};
ghost use Rattle.rules.specs.Records.{record_bytes, argument_records, records};
ghost use Rattle.scan.specs.Stores.{puts};
ghost use Rattle.fields.specs.Numbers.{number_of};
ghost use Rattle.writer.specs.Tables.{tables_in, value_between};
ghost use Rattle.records.specs.Contents.{fields_of, values_from, presents, Valued, Listed, Entered, Fielded};
ghost use Rattle.records.specs.Recording.{head, list_bytes, entry_bytes, Fieldable, Presentable, Recorded};
ghost use Rattle.records.specs.Writers.{Stands, Wrote};

use crate::RecordKind;
use fields::Field;
use scan::store::copy;
use workspace::layout::Layout;
use writer::columns::Columns;
use writer::{forget, write_value};

// The head of a record: the payload's length in four bytes, the kind in two.
// Kept: the clause says what becomes of the whole output, so it needs the place.
fn put_head(out: &mut [u8], at: usize, size: u32, kind: u16)
    requires { at + 6 ≤ length out.old }
    ensures { out.new ≡ puts out.old at (head size kind) }
{
    copy(&size.to_le_bytes(), out, at);
    copy(&kind.to_le_bytes(), out, at + 4);
}

// The number of a field, which is the kind of its record.
// Kept: `as` with its clause; a `From` would have the same body.
fn number(field: Field) -> u16
    ensures { result ≡ number_of field }
{
    field as u16
}

// Writes records one after another: what they are made of; the places of values that are written already; the stack; and the output, with the place of the
// next record.
#[derive(Drop)]
pub struct Writer<'t, 'a> {
    columns: &'t Columns<'t>,
    places: &'a mut [u32],
    stack: &'a mut [u32],
    out: &'a mut [u8],
    at: usize,
}

impl<'t, 'a> Writer<'t, 'a> {
    // The value of the tokens from `from` up to `to` as a record: the value, and then its head, once its length is known.
    fn write_record(&mut self, kind: u16, from: usize, to: usize)
        requires { Stands self.old (record_bytes kind (value_between self.old.columns.now from to)) × Valued (length self.old.columns.now.tokens) self.old.columns.now from to }
        ensures { Wrote self.old self.new (record_bytes kind (value_between self.old.columns.now from to)) }
    {
        let at = self.at;
        let start = at + 6;
        let end = write_value(
            self.columns,
            self.places,
            self.stack,
            self.out,
            start,
            from,
            to,
        );
        put_head(self.out, at, (end - start) as u32, kind);
        self.at = end;
    }

    // The records of the arguments in the rows from `row` on.
    fn write_arguments(&mut self, row: usize, rows: usize)
        requires { Stands self.old (argument_records (values_from self.old.columns.now row rows)) × Listed (length self.old.columns.now.tokens) self.old.columns.now row rows }
        ensures { Wrote self.old self.new (argument_records (values_from self.old.columns.now row rows)) }
    {
        for i in row..row + rows {
            let from = self.columns.start(i);
            let to = self.columns.end(i);
            self.write_record(RecordKind::ARGUMENT as u16, from, to);
        }
    }

    // A list: its record, which is the count of its arguments, and theirs.
    fn write_list(&mut self, kind: u16, row: usize, rows: usize)
        requires { Stands self.old (list_bytes self.old.columns.now kind row rows) × Listed (length self.old.columns.now.tokens) self.old.columns.now row rows }
        ensures { Wrote self.old self.new (list_bytes self.old.columns.now kind row rows) }
    {
        let at = self.at;
        put_head(self.out, at, 4, kind);
        copy(&(rows as u32).to_le_bytes(), self.out, at + 6);
        self.at = at + 10;
        self.write_arguments(row, rows);
    }

    // The records of a field, where its entry is one more than its key token; 0 where it is absent.
    fn write_field(&mut self, field: Field, entry: usize)
        requires { Stands self.old (entry_bytes self.old.columns.now (number_of field) entry) × Entered (length self.old.columns.now.tokens) self.old.columns.now (number_of field) entry }
        ensures { Wrote self.old self.new (entry_bytes self.old.columns.now (number_of field) entry) }
    {
        let Some(key) = entry.checked_sub(1) else {
            return;
        };
        let from = self.columns.start(key);
        let to = self.columns.end(key);
        let kind = number(field);
        if (kind as usize) < RecordKind::FIRST_LIST {
            self.write_record(kind, from, to);
        } else {
            self.write_list(kind, from, to);
        }
    }

    // The records of the fields present, by number.
    fn write_each(&mut self, fields: &[u32])
        requires { Stands self.old (records (presents self.old.columns.now fields.now 1 10)) × Fielded (length self.old.columns.now.tokens) self.old.columns.now fields.now 1 10 × (11 ≤ length fields.now) }
        ensures { Wrote self.old self.new (records (presents self.old.columns.now fields.now 1 10)) }
    {
        for field in Field::ALL {
            let f = number(field) as usize;
            self.write_field(field, fields[f] as usize);
        }
    }
}

// The records of the fields present to the output's front. Returns how many bytes they are. `front` is the workspace up to the scratch, whose parts are the
// places and the stack; `fields` are the entries of all fields.
// Kept: made where the workspace is split, the proof did not close: its final value is not known there.
fn write_present(
    front: &[u32],
    pool: &[u8],
    layout: Layout,
    fields: &[u32],
    places: &mut [u32],
    stack: &mut [u32],
    out: &mut [u8],
) -> usize
    requires { Presentable layout.n layout.v (tables_in layout.n layout.count layout.v front.now pool.now) front.now fields.now places.old stack.old out.old }
    ensures is_end { result ≡ length (records (presents (tables_in layout.n layout.count layout.v front.now pool.now) fields.now 1 10)) }
    ensures bytes { out.new ≡ puts out.old 0 (records (presents (tables_in layout.n layout.count layout.v front.now pool.now) fields.now 1 10)) }
{
    forget(places);
    let columns = Columns::new(front, pool, layout);
    let mut writer = Writer {
        columns: &columns,
        places,
        stack,
        out,
        at: 0,
    };
    writer.write_each(fields);
    writer.at
}

// The records of the fields present, by number, to the output's front. Returns how many bytes they are.
pub fn write_fields(ws: &mut [u32], pool: &[u8], out: &mut [u8], layout: Layout) -> usize
    requires { Fieldable layout.n layout.count layout.v (tables_in layout.n layout.count layout.v ws.old pool.now) (fields_of layout.n ws.old) ws.old out.old }
    ensures { Recorded layout.n ws.old out.old
        (records (presents (tables_in layout.n layout.count layout.v ws.old pool.now) (fields_of layout.n ws.old) 1 10)) ws.new out.new result }
{
    let (front, rest) = ws.split_at_mut(9 * layout.n);
    let (scratch, fields) = rest.split_at_mut(3 * layout.n);
    let (places, stack) = scratch.split_at_mut(2 * layout.v);
    write_present(front, pool, layout, &fields[..11], places, stack, out)
}
