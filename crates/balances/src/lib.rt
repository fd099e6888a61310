// Balances: each bit has a number in the work buffer, the number of checks plus the unmet and minus the met
// ones that it stands in, by their marks. They are made from the marks once, and kept up to date where marks
// are turned.
#![tactic(auto)]

ghost use Rattle.std.specs.Prelude.{◌<◌, length};
ghost use Rattle.lent.specs.Work.{Laid};
ghost use Rattle.syndrome.specs.Syndrome.{MarkBits};
ghost use Rattle.balances.specs.Balances.{Balanced, Levelled, Weighed, CheckTurned, MarksTurned};

use lent::Areas;

// Stores the number of checks as the balance of each bit.
fn level(work: &mut [u8], a: Areas)
    requires { Laid a (length work.old) }
    ensures { Levelled a work.old work.new }
{
    for j in 0..a.gross {
        lent::put_number(work, a.numbers + 2 * j, a.checks);
    }
}

// Makes the balances from the marks: 1 more for each unmet check that a bit stands in, 1 less for each met one.
pub fn weigh(work: &mut [u8], a: Areas)
    requires { Laid a (length work.old) × MarkBits a work.old }
    ensures { Weighed a work.old work.new }
{
    level(work, a);
    for i in 0..a.checks {
        let unmet = usize::from(work[a.marks + i]);
        checks::vote(work, a, i, unmet, 1 - unmet);
    }
}

// Turns the mark of check i, with the balances of its bits: 2 less where it was unmet, 2 more where it was met.
fn turn_check(work: &mut [u8], a: Areas, i: usize)
    requires { Laid a (length work.old) × MarkBits a work.old × Balanced a work.old × (i < a.checks) }
    ensures { CheckTurned a i work.old work.new }
{
    let mark = a.marks + i;
    let unmet = usize::from(work[mark]);
    work[mark] = 1 - work[mark];
    checks::vote(work, a, i, 2 - 2 * unmet, 2 * unmet);
}

// Turns the marks of the checks that bit j stands in, with the balances of their bits.
pub fn turn_marks(work: &mut [u8], a: Areas, j: usize)
    requires { Laid a (length work.old) × MarkBits a work.old × Balanced a work.old × (j < a.gross) }
    ensures { MarksTurned a j work.old work.new }
{
    // The search passes by the checks that the bit does not stand in, so that this is no `for`.
    let mut from = 0;
    while let Some(i) = checks::next_check(work, a, j, from) {
        turn_check(work, a, i);
        from = i + 1;
    }
}
