// The code of a symbol: the check matrix A for its sizes, and the stages of error correction that begin with
// it, the codeword of net bits and the mending of a received word. All of it lies in the work buffer. The
// message bits of a mended word are read by `coding::take_message`. Sizes and areas are no struct: what is asked
// of the two, `RoomFor`, bounds the lent buffer too.
#![tactic(auto)]

ghost use Rattle.std.specs.Prelude.{length};
ghost use Rattle.symbology.specs.Bits.{AllBits};
ghost use Rattle.symbology.specs.Code.{matrix_for};
ghost use Rattle.lent.specs.Work.{RoomFor, word_in, net_in};
ghost use Rattle.checks.specs.Checks.{ChecksBuilt};
ghost use Rattle.coding.specs.Stages.{WordEncoded, WordMended};

use lent::Areas;
use mending::Mended;
use symbology::Sizes;

// Builds the checks of A.
fn build(work: &mut [u8], s: Sizes, a: Areas)
    requires { RoomFor s a (length work.old) }
    ensures { ChecksBuilt a (matrix_for s) work.old work.new }
{
    let t = s.block;
    check_matrix::build(work, a, t, s.checks / t, s.wr);
}

// Stores the codeword of the net bits as the word.
pub fn encode(work: &mut [u8], s: Sizes, a: Areas)
    requires { RoomFor s a (length work.old) × AllBits (net_in a work.old) }
    ensures { WordEncoded a (matrix_for s) work.old work.new }
{
    build(work, s, a);
    coding::encode(work, a);
}

// Mends the word. The checks of A are left in the buffer.
pub fn mend(work: &mut [u8], s: Sizes, a: Areas) -> Mended
    requires { RoomFor s a (length work.old) × AllBits (word_in a work.old) }
    ensures { WordMended a (matrix_for s) work.old work.new result.repairs result.unmet result.stuck }
{
    build(work, s, a);
    mending::mend(work, a)
}
