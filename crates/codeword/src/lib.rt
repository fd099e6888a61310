// Codewords in the work buffer, where its rows are eliminated: the net bits stored in the message columns
// and the check columns solved, and the message columns of a word read back.
#![tactic(auto)]

ghost use Rattle.std.specs.Prelude.{◌<◌, length};
ghost use Rattle.symbology.specs.Bits.{AllBits};
ghost use Rattle.lent.specs.Work.{Laid, net_in};
ghost use Rattle.dense.specs.Dense.{Packed};
ghost use Rattle.elimination.specs.Reduced.{HoldsElimination};
ghost use Rattle.codeword.specs.Columns.{IsPivotRow, RowsEnd, ChecksZero, Placed, Solved, WordFilled, MessageRead};

use lent::Areas;

// The pivot row of a check column. A message column has none, and the number of rows stands there.
fn pivot_row(work: &[u8], a: Areas, c: usize) -> Option<usize>
    requires { Laid a (length work.now) × (c < a.gross) }
    ensures { IsPivotRow a work.now c result }
{
    let row = lent::number_at(work, a.numbers + 2 * c);
    (row < a.checks).then_some(row)
}

// Stores the net bits in the message columns, ascending, and 0 in the spare ones and the check columns.
fn place_message(work: &mut [u8], a: Areas)
    requires { Laid a (length work.old) }
    ensures { Placed a work.old work.new }
{
    let mut m = 0;
    for j in 0..a.gross {
        let mut v = 0;
        if pivot_row(work, a, j).is_none() {
            if m < a.net {
                v = work[a.message + m];
            }
            m += 1;
        }
        work[a.word + j] = v;
    }
}

// Stores in each check column, ascending, the parity of its row over the columns before it. The row's last 1
// stands in the column, whose own bit is 0 so far: so this is the parity of its row and the word, which is kept
// as the row behind the rows too.
fn solve_checks(work: &mut [u8], a: Areas)
    requires { Laid a (length work.old) × RowsEnd a work.old × ChecksZero a work.old × Packed a.stride a.checks a.word a.gross work.old }
    ensures { Solved a work.old work.new }
{
    for c in 0..a.gross {
        if let Some(row) = pivot_row(work, a, c) {
            if dense::parity(work, a.stride, row, a.checks) == 1 {
                work[a.word + c] = 1;
                dense::turn(work, a.stride, a.checks, c);
            }
        }
    }
}

// Stores the codeword of the net bits as the word.
pub fn fill_word(work: &mut [u8], a: Areas)
    requires { Laid a (length work.old) × HoldsElimination a work.old × AllBits (net_in a work.old) }
    ensures { WordFilled a work.old work.new }
{
    place_message(work, a);
    dense::pack(work, a.stride, a.checks, a.word, a.gross);
    solve_checks(work, a);
}

// Stores the bits of the word in the first message columns as the net bits, and answers whether one in the
// spare message columns is 1. The net bits are stored in both cases, so that the answer is a flag and no Result.
pub fn read_message(work: &mut [u8], a: Areas) -> bool
    requires { Laid a (length work.old) × HoldsElimination a work.old }
    ensures { MessageRead a work.old work.new result }
{
    let mut spare = false;
    let mut m = 0;
    for j in 0..a.gross {
        if pivot_row(work, a, j).is_none() {
            let v = work[a.word + j];
            if m < a.net {
                work[a.message + m] = v;
            } else if v % 2 == 1 {
                spare = true;
            }
            m += 1;
        }
    }
    spare
}
