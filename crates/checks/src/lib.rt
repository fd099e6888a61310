// The checks in the work buffer: which bits stand in which check. Judging a word and mending it see the check
// matrix through this crate alone; behind it lie the dense rows.
#![tactic(auto)]

ghost use Rattle.std.specs.Prelude.{◌-◌, ◌≤◌, ◌<◌, ◌≡◌, length, MatchOption};
ghost use Rattle.symbology.specs.Ranges.{lowest, found};
ghost use Rattle.lent.specs.Work.{Laid};
ghost use Rattle.checks.specs.Checks.{stands_in, unmet_in, InNoCheck, NextCheck, Staged, WordStaged};
ghost use Rattle.checks.specs.Votes.{Votes, Voted};

use lent::Areas;

// The first check from `from` on that bit j stands in, where there is one. Searches and votes go through most of
// the rows: inlined in the loops over bits and repairs they find no registers left.
#[inline(never)]
pub fn next_check(work: &[u8], a: Areas, j: usize, from: usize) -> Option<usize>
    requires { Laid a (length work.now) × (j < a.gross) × (from ≤ a.checks) }
    ensures value { result ≡ found a.checks (lowest (λ i. stands_in a work.now i j) (a.checks - from) from) }
    ensures first { MatchOption result (InNoCheck a work.now j from a.checks) (NextCheck a work.now j from) }
{
    (from..a.checks).find(|&i| dense::bit(work, a.stride, i, j))
}

// Makes the word ready to be judged: stores it as the row behind the rows.
pub fn stage_word(work: &mut [u8], a: Areas)
    requires { Laid a (length work.old) }
    ensures { WordStaged a work.old work.new }
{
    dense::pack(work, a.stride, a.checks, a.word, a.gross);
}

// The mark of check i in the word, which is staged: 1 where it is unmet and 0 where it is met, as a byte of the
// work buffer keeps it.
pub fn unmet_of(work: &[u8], a: Areas, i: usize) -> u8
    requires { Laid a (length work.now) × (i < a.checks) × Staged a work.now }
    ensures { result ≡ unmet_in a work.now i }
{
    dense::parity(work, a.stride, i, a.checks)
}

// Adds `add` to the number of each bit of check i and takes `sub` off. A byte of the row that is 0 is passed
// by at once.
#[inline(never)]
pub fn vote(work: &mut [u8], a: Areas, i: usize, add: usize, sub: usize)
    requires { Laid a (length work.old) × (i < a.checks) × Votes a i add sub work.old }
    ensures { Voted a i add sub work.old work.new }
{
    let row = i * a.stride;
    for b in 0..a.gross.div_ceil(8) {
        if work[row + b] != 0 {
            for j in 8 * b..a.gross.min(8 * b + 8) {
                if dense::bit(work, a.stride, i, j) {
                    let at = a.numbers + 2 * j;
                    let number = lent::number_at(work, at);
                    lent::put_number(work, at, number + add - sub);
                }
            }
        }
    }
}
