// A word judged: which of its checks are unmet, and how many. Each check has a mark in the work buffer, 1
// where it is unmet and 0 where it is met. The marks are the syndrome of the word.
#![tactic(auto)]

ghost use Rattle.std.specs.Prelude.{◌≡◌, length};
ghost use Rattle.symbology.specs.Rule.{unmet_count};
ghost use Rattle.lent.specs.Work.{Laid, word_in};
ghost use Rattle.checks.specs.Checks.{checks_in, Staged};
ghost use Rattle.syndrome.specs.Syndrome.{Marked, MarksSet, Judged};

use lent::Areas;

// Marks each check of the word, which is staged.
fn set_marks(work: &mut [u8], a: Areas)
    requires { Laid a (length work.old) × Staged a work.old }
    ensures { MarksSet a work.old work.new }
{
    for i in 0..a.checks {
        work[a.marks + i] = checks::unmet_of(work, a, i);
    }
}

// How many checks are unmet, by their marks.
pub fn count_unmet(work: &[u8], a: Areas) -> usize
    requires { Laid a (length work.now) × Marked a work.now }
    ensures { result ≡ unmet_count (checks_in a work.now) (word_in a work.now) }
{
    work[a.marks..a.marks + a.checks]
        .iter()
        .filter(|&&mark| mark == 1)
        .count()
}

// Marks each check of the word, and answers how many are unmet.
pub fn judge(work: &mut [u8], a: Areas) -> usize
    requires { Laid a (length work.old) }
    ensures { Judged a work.old work.new result }
{
    checks::stage_word(work, a);
    set_marks(work, a);
    count_unmet(work, a)
}
