// The check matrix A of 002, 4.4.3, built as dense rows in the work buffer: wc blocks of t rows. Each
// block shuffles the column order of the block before, which the area of numbers keeps.
#![tactic(auto)]

ghost use Rattle.std.specs.Prelude.{◌*◌, ◌<◌, ◌≡◌, length};
ghost use Rattle.lent.specs.Work.{Laid};
ghost use Rattle.check_matrix.specs.Build.{BlockFits, BlockTurned, Built};

use lent::Areas;

// Turns the ones of the block that begins with row `first`: for each column j the bit in row `first` + r,
// where r is the row in which A0 has the 1 of the column that now stands at j.
fn turn_block(work: &mut [u8], a: Areas, wr: usize, first: usize)
    requires { Laid a (length work.old) × BlockFits a wr first work.old }
    ensures { BlockTurned a wr first work.old work.new }
{
    for j in 0..a.gross {
        let c = lent::number_at(work, a.numbers + 2 * j);
        dense::turn(work, a.stride, first + c / wr, j);
    }
}

// Builds A with wc blocks of t rows and wr ones to a row.
pub fn build(work: &mut [u8], a: Areas, t: usize, wc: usize, wr: usize)
    requires { Laid a (length work.old) × (a.gross ≡ t * wr) × (a.checks ≡ t * wc) × (0 < wr) }
    ensures { Built a t wc wr work.old work.new }
{
    lent::clear(work, 0, a.checks * a.stride);
    lent::count_up(work, a.numbers, a.gross);
    // The seed for message data.
    let mut state = 785465;
    for block in 0..wc {
        state = shuffle::shuffle_numbers(work, a.numbers, a.gross, state);
        turn_block(work, a, wr, block * t);
    }
}
