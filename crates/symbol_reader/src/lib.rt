// The message of a sampled matrix: what a read does once the tests 1 to 5 are passed. The C bits are
// received into the work buffer, the word is mended there, and the net bits are read from it.
//
// `jabcode::read` is the way in, and makes the tests before. The stages follow the tests of documents 01 and
// 02: 7, then 9 and 16, then 10, then 11 to 14, which are `stream_reader::read_net`. The counts are handed on
// as one value, in which each stage sets its own; `room` is the length that a message may have, whatever the
// buffer that it is stored to. The places of the repairs stay in the work buffer until the answer is known,
// and are stored on 0 alone. Parameters, list and sizes are no struct, as in `symbol_writer`.
#![tactic(auto)]

ghost use Rattle.std.specs.Prelude.{◌≤◌, ◌≡◌, true, [], ◌∷◌, length};
ghost use Rattle.symbology.specs.Bits.{AllBits, differing};
ghost use Rattle.symbology.specs.Rule.{repairs_of, places_of, last_word};
ghost use Rattle.symbology.specs.Net.{stuffing};
ghost use Rattle.symbology.specs.Capacity.{sizes_for};
ghost use Rattle.symbology.specs.Symbol.{received_bits};
ghost use Rattle.symbology.specs.Code.{matrix_for, checks_for};
ghost use Rattle.calls.specs.Tests.{is_legal};
ghost use Rattle.calls.specs.Read.{answer_from_accepted, answer_from_received, read_answer, message_in_accepted, message_in, places_in};
ghost use Rattle.calls.specs.Promises.{Reads};
ghost use Rattle.calls.specs.Refusals.{read_told};
ghost use Rattle.calls.specs.declared.Counts.{Counts};
ghost use Rattle.layout.specs.Walk.{SizedSymbol};
ghost use Rattle.lent.specs.Changes.{Changed};
ghost use Rattle.lent.specs.Buffer.{numbers_at};
ghost use Rattle.lent.specs.Work.{rows_span, marks_span, numbers_span, net_span, RoomFor, word_in};
ghost use Rattle.checks.specs.Checks.{HoldsChecks};
ghost use Rattle.symbol_reader.specs.Stages.{Answered, AnsweredWithPlaces};

use calls::{Counts, ReadAnswer, Refusal};
use lent::Areas;
use mending::Mended;
use symbology::{Params, Sizes};

// From the accepted word: 10, a spare message column is 1, and what follows. The checks of A are in the
// buffer.
fn from_accepted(
    s: Sizes,
    a: Areas,
    work: &mut [u8],
    room: usize,
    message: &mut [u8],
) -> Result<usize, Refusal>
    requires { RoomFor s a (length work.old) × HoldsChecks a (matrix_for s) work.old }
    ensures told { (c : Counts) → Answered (answer_from_accepted s (word_in a work.old) c room) (message_in_accepted s (word_in a work.old)) message.old (read_told c result) message.new }
    ensures kept { Changed (rows_span a ∷ marks_span a ∷ numbers_span a ∷ net_span a ∷ []) work.old work.new }
{
    if coding::take_message(work, a) {
        return Err(Refusal::SpareOne);
    }
    let at = a.message;
    let end = at + s.net;
    stream_reader::read_net(&work[at..end], room, message)
}

// From the accepted word, with the places of the repairs in their area: 10 and what follows. On 0 the places
// are stored.
fn from_mended(
    s: Sizes,
    a: Areas,
    work: &mut [u8],
    mended: Mended,
    room: usize,
    message: &mut [u8],
    places: &mut [u16],
) -> Result<usize, Refusal>
    requires { RoomFor s a (length work.old) × HoldsChecks a (matrix_for s) work.old × (mended.repairs ≤ a.checks) × (mended.repairs ≤ length places.old) }
    ensures { (c : Counts) → AnsweredWithPlaces (answer_from_accepted s (word_in a work.old) c room) (message_in_accepted s (word_in a work.old)) (numbers_at work.old a.repaired mended.repairs) message.old places.old (read_told c result) message.new places.new }
{
    let length = from_accepted(s, a, work, room, message)?;
    lent::copy_numbers(work, a.repaired, mended.repairs, places);
    Ok(length)
}

// From the received word: 9, stuck; 16, more repairs than there is room for places; else the read goes on from
// the word the rule ends with.
fn from_received(
    s: Sizes,
    a: Areas,
    work: &mut [u8],
    got: Counts,
    room: usize,
    message: &mut [u8],
    places: &mut [u16],
) -> ReadAnswer
    requires { RoomFor s a (length work.old) × AllBits (word_in a work.old) }
    ensures { AnsweredWithPlaces (answer_from_received s (word_in a work.old) got room (length places.old)) (message_in_accepted s (last_word (checks_for s) (word_in a work.old))) (places_of (repairs_of (checks_for s) (word_in a work.old))) message.old places.old result message.new places.new }
{
    let mended = ldpc::mend(work, s, a);
    let c = Counts {
        repairs: mended.repairs,
        unmet: mended.unmet,
        stuffing: got.stuffing,
    };
    if mended.stuck {
        return ReadAnswer::new(c, Err(Refusal::StuckWord));
    }
    if places.len() < mended.repairs {
        return ReadAnswer::new(c, Err(Refusal::ShortPlaces));
    }
    ReadAnswer::new(c, from_mended(s, a, work, mended, room, message, places))
}

// Stores the C bits of a matrix, the mask and then the interleaving undone.
fn receive(p: Params, list: &[u16], matrix: &[u8], out: &mut [u8])
    requires { SizedSymbol p list.now (length out.old) (length matrix.now) × (length out.old ≤ 4096) }
    ensures { out.new ≡ received_bits p list.now matrix.now }
{
    layout::sample(p, list, matrix, out);
    shuffle::unshuffle(out, shuffle::INTERLEAVING_SEED);
}

// How many stuffing bits are wrong.
fn wrong_stuffing(bits: &[u8]) -> usize
    ensures { result ≡ differing (stuffing (length bits.now)) bits.now }
{
    let mut wrong = 0;
    for (i, bit) in bits.iter().enumerate() {
        if usize::from(*bit) != i % 2 {
            wrong += 1;
        }
    }
    wrong
}

// From a sampled matrix: 7, and what follows. The work buffer is left as it was used.
fn read_uncleared(
    p: Params,
    list: &[u16],
    matrix: &[u8],
    work: &mut [u8],
    room: usize,
    message: &mut [u8],
    places: &mut [u16],
    s: Sizes,
) -> ReadAnswer
    requires { (is_legal p list.now (length matrix.now) (length work.old) ≡ true) × (s ≡ sizes_for p list.now) }
    ensures { AnsweredWithPlaces (read_answer p list.now matrix.now (length work.old) room (length places.old)) (message_in p list.now matrix.now) (places_in p list.now matrix.now) message.old places.old result message.new places.new }
{
    if let Some(bad) = layout::first_bad_module(p.colours, matrix) {
        return ReadAnswer::from(Refusal::BadModule(bad));
    }
    let a = lent::areas_for(s);
    let at = a.word;
    let seam = at + s.gross;
    let end = at + s.capacity;
    receive(p, list, matrix, &mut work[at..end]);
    let c = Counts {
        repairs: 0,
        unmet: 0,
        stuffing: wrong_stuffing(&work[seam..end]),
    };
    from_received(s, a, work, c, room, message, places)
}

// A read of legal input, with the sizes of its symbol. The work buffer is cleared behind it.
pub fn read_legal(
    p: Params,
    list: &[u16],
    matrix: &[u8],
    work: &mut [u8],
    message: &mut [u8],
    places: &mut [u16],
    s: Sizes,
) -> ReadAnswer
    requires { (is_legal p list.now (length matrix.now) (length work.old) ≡ true) × (s ≡ sizes_for p list.now) }
    ensures { Reads p list.now matrix.now work.old message.old places.old result work.new message.new places.new }
{
    let room = message.len();
    let answer = read_uncleared(p, list, matrix, work, room, message, places, s);
    lent::clear(work, 0, work.len());
    answer
}
