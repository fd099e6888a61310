// Runs the check matrix and the interleaving on known sizes and prints what they give, a number to a
// line: the nine columns, from 0, of the first row of each block of A at t 116, wc 3 and wr 9; then which
// of ten bytes stands at each place when they are interleaved, and when that is undone; then the same of
// the first six places of 1,047 numbers.
//
// The work buffer has 53,964 bytes, document 01's limit for programs.
#![tactic(auto)]

ghost use Rattle.std.specs.Prelude.{◌*◌, ◌≤◌, ◌<◌, ◌≡◌, length};
ghost use Rattle.lent.specs.Work.{Laid, CodeSizes};

use lent::Areas;
use std::io;
use symbology::Sizes;

// The sizes of a primary symbol of side-version 1 with 8 colours, 24 entries, wc 3 and wr 9: 1,047 bits.
fn known_sizes() -> Sizes
    ensures { CodeSizes result × (result.work ≡ 53964) × (result.gross ≡ 116 * 9) × (result.checks ≡ 116 * 3) }
{
    Sizes {
        columns: 21,
        rows: 21,
        depth: 3,
        capacity: 1047,
        wr: 9,
        block: 116,
        gross: 1044,
        checks: 348,
        net: 696,
        work: 53964,
    }
}

// Prints the columns of a row of A.
fn print_row(rt: &impl Print, work: &[u8], a: Areas, row: usize) -> io::Result<()>
    requires { Laid a (length work.now) × (row < a.checks) }
{
    for j in 0..a.gross {
        if dense::bit(work, a.stride, row, j) {
            println!(rt; "{j}")?;
        }
    }
    Ok(())
}

fn print_rows(rt: &impl Print, work: &mut [u8]) -> io::Result<()>
    requires { length work.old ≡ 53964 }
{
    let a = lent::areas_for(known_sizes());
    check_matrix::build(work, a, 116, 3, 9);
    for block in 0..3 {
        print_row(rt, work, a, 116 * block)?;
    }
    Ok(())
}

// Prints the first n numbers of two bytes.
fn print_numbers(rt: &impl Print, work: &[u8], n: usize) -> io::Result<()>
    requires { 2 * n ≤ length work.now }
{
    for i in 0..n {
        let n = lent::number_at(work, 2 * i);
        println!(rt; "{n}")?;
    }
    Ok(())
}

// Interleaves the numbers below 1,047, of which the first six are printed.
fn print_interleaving(rt: &impl Print, work: &mut [u8]) -> io::Result<()>
    requires { length work.old ≡ 53964 }
{
    lent::count_up(work, 0, 1047);
    shuffle::shuffle_numbers(work, 0, 1047, shuffle::INTERLEAVING_SEED);
    print_numbers(rt, work, 6)
}

// Prints bytes, a number to a line: the format is a literal, and other programs have other ones.
fn print_bytes(rt: &impl Print, bytes: &[u8]) -> io::Result<()> {
    for b in bytes {
        println!(rt; "{b}")?;
    }
    Ok(())
}

// Interleaves ten bytes, and undoes it.
fn print_ten(rt: &impl Print) -> io::Result<()> {
    let mut bytes: [u8; 10] = [0, 1, 2, 3, 4, 5, 6, 7, 8, 9];
    shuffle::shuffle(&mut bytes, shuffle::INTERLEAVING_SEED);
    print_bytes(rt, &bytes)?;
    shuffle::unshuffle(&mut bytes, shuffle::INTERLEAVING_SEED);
    print_bytes(rt, &bytes)
}

fn main(rt: HostRuntime) -> io::Result<()> {
    let mut space = [0u8; 53964];
    let work: &mut [u8] = &mut space;
    print_rows(&rt, work)?;
    print_ten(&rt)?;
    print_interleaving(&rt, work)
}
