// The tests 1 to 5 of document 01, which every call makes first, and `sizes`. They answer every input. Only
// test 2, which the crate `reserved` makes, costs more for a longer list. Where the tests are passed, they
// hand on the sizes of the symbol, so that a write or a read works these out once.
#![tactic(auto)]

ghost use Rattle.std.specs.Prelude.{◌≡◌};
ghost use Rattle.symbology.specs.Capacity.{sizes_for};
ghost use Rattle.calls.specs.Refusals.{told};
ghost use Rattle.calls.specs.Tests.{size_rows, front_rows};
ghost use Rattle.calls.specs.Sizes.{sizes_answer};
ghost use Rattle.legality.specs.Verdict.{verdict_of};

use calls::{Refusal, SizesAnswer};
use symbology::{Params, Sizes};

// 1 to 3, which need no buffer: the sizes of the symbol, or a refusal.
pub fn size_tests(p: Params, list: &[u16]) -> Result<Sizes, Refusal>
    ensures { told result ≡ verdict_of (size_rows p list.now) (sizes_for p list.now) }
{
    if !capacity::in_range(p) {
        return Err(Refusal::OutOfRange);
    }
    if let Err(place) = reserved::judge_list(p, list) {
        return Err(Refusal::BadList(place));
    }
    let s = capacity::sizes_of(p, list.len() / 3);
    if s.capacity < s.wr || 4096 < s.capacity {
        return Err(Refusal::BadCapacity);
    }
    Ok(s)
}

// 1 to 5, for a matrix and a work buffer of these lengths.
pub fn front_tests(p: Params, list: &[u16], modules: usize, work: usize) -> Result<Sizes, Refusal>
    ensures { told result ≡ verdict_of (front_rows p list.now modules work) (sizes_for p list.now) }
{
    let s = size_tests(p, list)?;
    if modules != s.columns * s.rows {
        return Err(Refusal::OtherMatrix);
    }
    if work < s.work {
        return Err(Refusal::ShortWork);
    }
    Ok(s)
}

// What a caller needs to know before a write or a read, or the refusal 1, 2 or 3 with zeros.
pub fn sizes(p: Params, list: &[u16]) -> SizesAnswer
    ensures { result ≡ sizes_answer p list.now }
{
    SizesAnswer::from(size_tests(p, list))
}
