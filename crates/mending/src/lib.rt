// Document 01's mending rule over the checks in the work buffer: while some check is unmet, the
// lowest-numbered bit that stands in more unmet than met checks is turned. Marks and balances (`syndrome`,
// `balances`) are kept up to date from step to step, and each step answers the bit that it turned: its place
// goes to the area of the places in the work buffer.
#![tactic(auto)]

ghost use Rattle.std.specs.Prelude.{◌<◌, length, MatchOption};
ghost use Rattle.symbology.specs.Steps.{LowestSuspect};
ghost use Rattle.lent.specs.Work.{Laid, word_in};
ghost use Rattle.checks.specs.Checks.{checks_in};
ghost use Rattle.syndrome.specs.Syndrome.{Marked};
ghost use Rattle.balances.specs.Balances.{Balanced};
ghost use Rattle.mending.specs.Mending.{BitsIn, InRepair, NoSuspect, BitTurned, Stepped, RuleRun, MendedBy};

use lent::Areas;

// What mending answers: the number of repairs, that of the checks unmet at the start, and whether the
// word is stuck. Both numbers are told of a stuck word too, so that this is a flag and no Result.
#[derive(Clone, Copy)]
pub struct Mended {
    pub repairs: usize,
    pub unmet: usize,
    pub stuck: bool,
}

// The lowest-numbered bit that stands in more unmet than met checks, where there is one. A bit whose balance
// is no more than the number of checks is passed by at once. Two loops, left by label: a form that the first
// user's requirements name.
fn find_suspect(work: &[u8], a: Areas) -> Option<usize>
    requires { Laid a (length work.now) × Marked a work.now × Balanced a work.now }
    ensures { let cs = checks_in a work.now in let w = word_in a work.now in MatchOption result (NoSuspect cs w) (LowestSuspect cs w) }
{
    let mut found = None;
    'bits: for j in 0..a.gross {
        if a.checks < lent::number_at(work, a.numbers + 2 * j) {
            let mut unmet = 0usize;
            let mut met = 0usize;
            let mut from = 0;
            // The search for a check passes by those that the bit does not stand in, so that this is no `for`.
            loop {
                let Some(i) = checks::next_check(work, a, j, from) else {
                    if met < unmet {
                        found = Some(j);
                        break 'bits;
                    }
                    break;
                };
                if work[a.marks + i] == 1 {
                    unmet += 1;
                } else {
                    met += 1;
                }
                from = i + 1;
            }
        }
    }
    found
}

// Turns bit j of the word, with the marks of its checks and the balances of their bits.
fn turn_bit(work: &mut [u8], a: Areas, j: usize)
    requires { InRepair a work.old × (j < a.gross) }
    ensures { BitTurned a j work.old work.new }
{
    balances::turn_marks(work, a, j);
    let at = a.word + j;
    work[at] = 1 - work[at];
}

// One step of the rule: the bit that it turned, or None where the rule has ended.
fn take_step(work: &mut [u8], a: Areas) -> Option<usize>
    requires { InRepair a work.old }
    ensures { Stepped a work.old work.new result }
{
    let j = find_suspect(work, a)?;
    turn_bit(work, a, j);
    Some(j)
}

// Runs the rule to its end, storing the place of each repair behind those before. Answers how many there are.
fn run_rule(work: &mut [u8], a: Areas) -> usize
    requires { InRepair a work.old }
    ensures { RuleRun a work.old work.new result }
{
    let mut repairs = 0usize;
    // How many steps there are is known at the end alone, so they are counted.
    while let Some(j) = take_step(work, a) {
        lent::put_number(work, a.repaired + 2 * repairs, j + 1);
        repairs += 1;
    }
    repairs
}

// Mends the word by the rule, run to its end. The places of the repairs are left in the buffer.
pub fn mend(work: &mut [u8], a: Areas) -> Mended
    requires { Laid a (length work.old) × BitsIn a work.old }
    ensures { MendedBy a work.old work.new result.repairs result.unmet result.stuck }
{
    let first = syndrome::judge(work, a);
    if first == 0 {
        return Mended {
            repairs: 0,
            unmet: 0,
            stuck: false,
        };
    }
    balances::weigh(work, a);
    let repairs = run_rule(work, a);
    let left = syndrome::count_unmet(work, a);
    Mended {
        repairs,
        unmet: first,
        stuck: 0 < left,
    }
}
