// Lines of the listing: a label with its sign, a text or a number, and the end of the line.
ghost use Rattle.lent.specs.Put.{Offers};
ghost use Rattle.decimals.specs.Decimal.{decimal};
ghost use Rattle.tables.specs.Layout.{name_at};
ghost use Rattle.listing.specs.Line.{line_of};

use lent::put;
use tables::{clamp, word};
use value_text::write_number;

pub fn write_line(label: &[u8], piece: &[u8], out: &mut [u8], at: usize) -> usize
    ensures { Offers out.old out.new at (line_of label.now piece.now) result }
{
    let one = put(label, out, at);
    let two = put(piece, out, one);
    put(b"\n", out, two)
}

pub fn write_number_line(label: &[u8], number: u64, out: &mut [u8], at: usize) -> usize
    ensures { Offers out.old out.new at (line_of label.now (decimal number)) result }
{
    let one = put(label, out, at);
    let two = write_number(number, out, one);
    put(b"\n", out, two)
}

// The line of a row's name.
pub fn write_name(
    label: &[u8],
    rows: &[u64],
    names: &[u8],
    row: usize,
    out: &mut [u8],
    at: usize,
) -> usize
    ensures { Offers out.old out.new at (line_of label.now (name_at names.now rows.now row)) result }
{
    let range = clamp(word(rows, row, 0), word(rows, row, 1), names.len());
    let start = range.start;
    let end = range.end;
    write_line(label, &names[start..end], out, at)
}
