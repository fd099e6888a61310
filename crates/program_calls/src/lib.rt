// What programs that make the calls share: document 01's limit for programs, and a read with how many places
// it stored.
#![tactic(auto)]

ghost use Rattle.std.specs.Prelude.{◌≡◌, ◌≢◌, ◌≤◌, ◌↔◌, length, IsSome, IfSome};
ghost use Rattle.calls.specs.Promises.{Reads};

use calls::ReadAnswer;
use symbology::Params;

// Parameters to which programs keep.
#[derive(Clone, Copy)]
pub struct Limited {
    pub p: Params,
    ghost code: { (p.wc ≡ 3) × (p.wr ≡ 9) },
}

// Document 01's limit for programs, as far as it speaks of parameters.
pub fn within_limit(p: Params) -> Option<Limited>
    ensures within { IsSome result ↔ (p.wc ≡ 3) × (p.wr ≡ 9) }
    ensures params { IfSome result (λ l. l.p ≡ p) }
{
    if p.wc == 3 && p.wr == 9 {
        Some(Limited { p })
    } else {
        None
    }
}

// What a read answered, and how many places it stored.
#[derive(Clone, Copy)]
pub struct Reading {
    pub answer: ReadAnswer,
    pub stored: usize,
}

// A read within the limit. The message fits in its buffer. A place is stored for each repair on 0, and none
// on a refusal: those fit in theirs.
pub fn read(
    limited: Limited,
    list: &[u16],
    matrix: &[u8],
    work: &mut [u8],
    message: &mut [u8],
    places: &mut [u16],
) -> Reading
    ensures reads { Reads limited.p list.now matrix.now work.old message.old places.old result.answer work.new message.new places.new }
    ensures message_fits { result.answer.length ≤ length message.old }
    ensures places_fit { result.stored ≤ length places.old }
    ensures done { result.answer.number ≡ 0 → result.stored ≡ result.answer.repairs }
    ensures refused { result.answer.number ≢ 0 → result.stored ≡ 0 }
{
    let answer = jabcode::read(limited.p, list, matrix, work, message, places);
    Reading {
        answer,
        stored: if answer.number == 0 {
            answer.repairs
        } else {
            0
        },
    }
}
