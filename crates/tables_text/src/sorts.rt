// The lines of sorts one after the other, with the fields of the records among them in a list of their own.
ghost use Rattle.std.specs.Prelude.{◌≡◌, ◌+◌, ◌-◌, ◌*◌, ◌≤◌, length, take, drop};
ghost use Rattle.tables.specs.Layout.{stride};
ghost use Rattle.tables.specs.Rules.{row_limit};
ghost use Rattle.tables_text.specs.Parse.{line_row, walk, sort_in, record_in};
ghost use Rattle.tables_text.specs.Told.{FineSort, FineRecord, SortLined, SortsWalked};

use crate::line::end_at;
use crate::sort::{RecordLine, SortLine, form_of, record_in};
use crate::walk::{ROW_LIMIT, put_row};

// Where the next line begins and how many fields there are now, or no line that is a sort's row.
#[derive(Clone, Copy)]
pub struct SortNext {
    pub at: usize,
    pub fields: usize,
}

#[derive(Clone, Copy)]
pub struct SortWalk {
    pub at: usize,
    pub rows: usize,
    pub fields: usize,
}

// A record's line, from its place to the line feed.
fn record_line(
    text: &[u8],
    at: usize,
    end: usize,
    table: &mut [u64],
    row: usize,
    fields: &mut [u64],
    before: usize,
) -> Option<SortNext>
    requires { FineRecord text.now at end table.old row fields.old before }
    ensures { SortLined at row before (record_in (drop 12 (take (end - at) (drop at text.now)))) table.old table.new fields.old fields.new result }
{
    let RecordLine { name, count } = record_in(&text[at..end], fields, before)?;
    put_row(
        table,
        row,
        (at + 12) as u64,
        name as u64,
        10,
        before as u64,
        count as u64,
    );
    Some(SortNext {
        at: end + 1,
        fields: before + count,
    })
}

fn sort_line(
    text: &[u8],
    at: usize,
    table: &mut [u64],
    row: usize,
    fields: &mut [u64],
    before: usize,
) -> Option<SortNext>
    requires { FineSort text.now at table.old row fields.old before }
    ensures { SortLined at row before (line_row sort_in (drop at text.now)) table.old table.new fields.old fields.new result }
{
    let end = end_at(text, at, b'\n');
    if text.len() <= end {
        return None;
    }
    match form_of(&text[at..end]) {
        SortLine::Plain { kind, number } => {
            put_row(table, row, 0, 0, kind, number, 0);
            Some(SortNext {
                at: end + 1,
                fields: before,
            })
        }
        SortLine::Entity => {
            put_row(
                table,
                row,
                (at + 12) as u64,
                (end - at - 12) as u64,
                9,
                0,
                0,
            );
            Some(SortNext {
                at: end + 1,
                fields: before,
            })
        }
        SortLine::Record => record_line(text, at, end, table, row, fields, before),
        SortLine::Other => None,
    }
}

pub fn sort_rows(text: &[u8], table: &mut [u64], fields: &mut [u64]) -> SortWalk
    requires { (row_limit * stride ≤ length table.old) × (length text.now ≤ length fields.old * 2) }
    ensures { SortsWalked (walk sort_in row_limit text.now) table.new fields.new result }
{
    let mut at = 0;
    let mut count = 0;
    for row in 0..ROW_LIMIT {
        let Some(next) = sort_line(text, at, table, row, fields, count) else {
            return SortWalk {
                at,
                rows: row,
                fields: count,
            };
        };
        at = next.at;
        count = next.fields;
    }
    SortWalk {
        at,
        rows: ROW_LIMIT,
        fields: count,
    }
}
