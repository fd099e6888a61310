// Elimination of the dense rows in the work buffer, from the last column to the first. A row is only added
// to rows that are no pivot rows yet; the pivot row of a check column is marked, and its last 1 stands in that
// column. For each column the area of numbers keeps its pivot row, and the number of rows for a message column.
//
// A row that has no mark is 0 behind the column that is eliminated, so that the bytes up to that column are all
// that is added.
#![tactic(auto)]

ghost use Rattle.std.specs.Prelude.{◌≤◌, ◌<◌, ◌≡◌, length};
ghost use Rattle.lent.specs.Work.{Laid};
ghost use Rattle.elimination.specs.Reduced.{is_unmarked, is_free, IsFirstRow, MarkedBefore, EndsAt, ColumnCleared, Eliminated};

use lent::Areas;

// Whether row i has no mark.
fn is_unmarked(work: &[u8], a: Areas, i: usize) -> bool
    requires { Laid a (length work.now) × (i < a.checks) }
    ensures { result ≡ is_unmarked a work.now i }
{
    work[a.marks + i] == 0
}

// Whether row i has no mark and a 1 in column j.
fn is_free(work: &[u8], a: Areas, j: usize, i: usize) -> bool
    requires { Laid a (length work.now) × (i < a.checks) × (j < a.gross) }
    ensures { result ≡ is_free a work.now j i }
{
    is_unmarked(work, a, i) && dense::bit(work, a.stride, i, j)
}

// The first row without a mark. The rows before `from` have marks.
fn first_unmarked(work: &[u8], a: Areas, from: usize) -> Option<usize>
    requires { Laid a (length work.now) × (from ≤ a.checks) × MarkedBefore a work.now from }
    ensures { IsFirstRow a (is_unmarked a work.now) result }
{
    (from..a.checks).find(|&i| is_unmarked(work, a, i))
}

// The first row without a mark that has a 1 in column j. The rows before `from` have marks.
fn find_row(work: &[u8], a: Areas, from: usize, j: usize) -> Option<usize>
    requires { Laid a (length work.now) × (from ≤ a.checks) × MarkedBefore a work.now from × (j < a.gross) }
    ensures { IsFirstRow a (is_free a work.now j) result }
{
    (from..a.checks).find(|&i| is_free(work, a, j, i))
}

// Adds the row `pivot`, whose last 1 stands in column j, to every later row without a mark that has a 1 there.
// Inlined, it would have the search for a pivot row work out the places of the rows in each turn.
#[inline(never)]
fn clear_column(work: &mut [u8], a: Areas, pivot: usize, j: usize)
    requires { Laid a (length work.old) × (pivot < a.checks) × (j < a.gross) × EndsAt a work.old pivot j }
    ensures { ColumnCleared a pivot j work.old work.new }
{
    let n = j / 8 + 1;
    for i in pivot + 1..a.checks {
        if is_free(work, a, j, i) {
            dense::add_row(work, a.stride, i, pivot, n);
        }
    }
}

// Eliminates all columns.
pub fn eliminate(work: &mut [u8], a: Areas)
    requires { Laid a (length work.old) }
    ensures { Eliminated a work.old work.new }
{
    lent::clear(work, a.marks, a.marks + a.checks);
    let mut first = 0;
    for j in (0..a.gross).rev() {
        let found = find_row(work, a, first, j);
        // The column's two bytes hold the number of rows for none, since lent memory holds numbers alone.
        lent::put_number(work, a.numbers + 2 * j, found.unwrap_or(a.checks));
        if let Some(pivot) = found {
            clear_column(work, a, pivot, j);
            work[a.marks + pivot] = 1;
            first = first_unmarked(work, a, first).unwrap_or(a.checks);
        }
    }
}
