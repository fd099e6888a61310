// The matrix of a message: what a write does once the tests 1 to 5 are passed. The net bits, the word, the
// stuffing bits and the interleaving lie in the work buffer one after the other; the matrix is stored last.
//
// `jabcode::write` is the way in, and makes the tests before. Parameters, list and sizes are no struct: that the
// input is legal is a fact of the lengths of the lent buffers too, and would stay in each contract.
#![tactic(auto)]

ghost use Rattle.std.specs.Prelude.{◌<◌, ◌≡◌, true, length};
ghost use Rattle.symbology.specs.Bits.{AllBits};
ghost use Rattle.symbology.specs.Stream.{stream_of};
ghost use Rattle.symbology.specs.Net.{stuffing};
ghost use Rattle.symbology.specs.Capacity.{sizes_for};
ghost use Rattle.symbology.specs.Symbol.{written_matrix};
ghost use Rattle.calls.specs.Refusals.{answer_of};
ghost use Rattle.calls.specs.Tests.{is_legal};
ghost use Rattle.calls.specs.Promises.{Writes};
ghost use Rattle.lent.specs.Work.{Laid, net_in, RoomFor};
ghost use Rattle.symbol_writer.specs.Writing.{NetStored, BitsPlaced, MatrixWritten};

use calls::Refusal;
use lent::Areas;
use symbology::{Params, Sizes};

// Stores the net bits of a message.
fn store_net(message: &[u8], work: &mut [u8], a: Areas)
    requires { Laid a (length work.old) × (length (stream_of message.now) < a.net) }
    ensures { NetStored a (stream_of message.now) work.old work.new }
{
    let at = a.message;
    let end = at + a.net;
    stream_writer::write_net(message, &mut work[at..end]);
}

// Stores the stuffing bits 0, 1, 0, ..
fn stuff(out: &mut [u8])
    ensures { out.new ≡ stuffing (length out.old) }
{
    for (i, bit) in out.iter_mut().enumerate() {
        *bit = (i % 2) as u8;
    }
}

// Stores the C bits of the net bits: the codeword and the stuffing behind it, interleaved.
fn place_bits(work: &mut [u8], s: Sizes, a: Areas)
    requires { RoomFor s a (length work.old) × AllBits (net_in a work.old) }
    ensures { BitsPlaced s a work.old work.new }
{
    let at = a.word;
    let seam = at + a.gross;
    let end = at + s.capacity;
    ldpc::encode(work, s, a);
    stuff(&mut work[seam..end]);
    shuffle::shuffle(&mut work[at..end], shuffle::INTERLEAVING_SEED);
}

// Stores the matrix of a message that fits.
fn store_matrix(
    p: Params,
    list: &[u16],
    message: &[u8],
    matrix: &mut [u8],
    work: &mut [u8],
    s: Sizes,
)
    requires { (is_legal p list.now (length matrix.old) (length work.old) ≡ true) × (s ≡ sizes_for p list.now) × (length (stream_of message.now) < s.net) }
    ensures { matrix.new ≡ written_matrix p list.now (stream_of message.now) }
{
    let a = lent::areas_for(s);
    store_net(message, work, a);
    place_bits(work, s, a);
    let at = a.word;
    let end = at + s.capacity;
    layout::fill(p, list, &work[at..end], matrix);
}

// Test 6, and the matrix of a message that fits. The work buffer is left as it was used.
fn write_uncleared(
    p: Params,
    list: &[u16],
    message: &[u8],
    matrix: &mut [u8],
    work: &mut [u8],
    s: Sizes,
) -> Result<(), Refusal>
    requires { (is_legal p list.now (length matrix.old) (length work.old) ≡ true) × (s ≡ sizes_for p list.now) }
    ensures { MatrixWritten p list.now (stream_of message.now) matrix.old (length work.old) (answer_of result) matrix.new }
{
    if stream_writer::exceeds_net(message, s.net) {
        return Err(Refusal::NoRoom);
    }
    store_matrix(p, list, message, matrix, work, s);
    Ok(())
}

// A write of legal input, with the sizes of its symbol. The work buffer is cleared behind it.
pub fn write_legal(
    p: Params,
    list: &[u16],
    message: &[u8],
    matrix: &mut [u8],
    work: &mut [u8],
    s: Sizes,
) -> Result<(), Refusal>
    requires { (is_legal p list.now (length matrix.old) (length work.old) ≡ true) × (s ≡ sizes_for p list.now) }
    ensures { Writes p list.now (stream_of message.now) matrix.old work.old (answer_of result) matrix.new work.new }
{
    let written = write_uncleared(p, list, message, matrix, work, s);
    lent::clear(work, 0, work.len());
    written
}
