//! Columns of ticks.

ghost use Rattle.std.specs.Prelude.{◌≡◌, ◌≤◌, ◌<◌, ◌-◌};
ghost use Rattle.run_chart.specs.Spans.{columns_of, first_tick, first_width, widths};
ghost use Rattle.run_chart.specs.Columns.{AreFew, end_of};

use crate::Columns;

/// The widths that columns can have, but for the widest.
const WIDTHS: [u64; 21] = [
    1, 2, 5, 10, 20, 50, 100, 200, 500, 1000, 2000, 5000, 10000, 20000, 50000, 100000, 200000,
    500000, 1000000, 2000000, 5000000,
];

/// The widest column.
const WIDEST: u64 = 10000000;

/// The first of the widths of which 100 columns hold so many ticks, else the widest.
fn first_width(widths: &[u64], ticks: u64) -> u64
    ensures { result ≡ first_width widths.now ticks }
{
    for width in widths {
        if ticks <= width.saturating_mul(100) {
            return *width;
        }
    }
    WIDEST
}

/// As many columns of a width as hold so many ticks from the first one on.
fn with_width(first: u64, end: u64, width: u64) -> Columns
    requires width { width ≡ first_width widths (end - first) }
    requires end { end ≤ 1000000000 }
    ensures are { result ≡ columns_of first end }
    ensures few { AreFew result }
{
    Columns {
        first,
        end,
        width,
        count: end.saturating_sub(first).div_ceil(width) as usize,
    }
}

/// The columns of the ticks from the first one up to before the end, which is at most 1,000,000,000.
pub fn columns_of(first: u64, end: u64) -> Columns
    requires end { end ≤ 1000000000 }
    ensures are { result ≡ columns_of first end }
    ensures few { AreFew result }
{
    let width = first_width(&WIDTHS, end.saturating_sub(first));
    with_width(first, end, width)
}

/// The first tick of a column, counted from 0.
pub fn first_tick(columns: &Columns, column: usize) -> u64
    requires few { AreFew columns.now }
    requires column { column < columns.now.count }
    ensures { result ≡ first_tick columns.now column }
{
    columns.first + column as u64 * columns.width
}

/// The tick that follows the last of a column.
pub fn end_of(columns: &Columns, column: usize) -> u64
    requires few { AreFew columns.now }
    requires column { column < columns.now.count }
    ensures { result ≡ end_of columns.now column }
{
    let first = first_tick(columns, column);
    first + columns.width.min(columns.end.saturating_sub(first))
}
