// Laws for teaching (document 02, W-207), said of the functions that the library is made of. Each function
// here calls the one that its law is about, and its contract is the law. Its proof knows of the functions
// called what every caller knows, which is their contracts.
#![tactic(auto)]

ghost use Rattle.std.specs.Prelude.{◌*◌, ◌≤◌, ◌≡◌, true, length, Ok};
ghost use Rattle.symbology.specs.Bits.{AllBits, bitwise_sum};
ghost use Rattle.symbology.specs.Parameters.{in_range};
ghost use Rattle.symbology.specs.Sides.{columns, rows};
ghost use Rattle.symbology.specs.Reserved.{list_verdict};
ghost use Rattle.symbology.specs.Shuffle.{shuffled};
ghost use Rattle.symbology.specs.Placement.{unmasked, masked};
ghost use Rattle.symbology.specs.Capacity.{sizes_for};
ghost use Rattle.symbology.specs.Code.{codeword_for};
ghost use Rattle.calls.specs.Sizes.{sizes_answer};
ghost use Rattle.lent.specs.Work.{areas_of, word_in, net_in};

use symbology::Params;

// The codeword of a sum is the sum of the codewords: `ldpc::encode` stores in three work buffers the codeword
// of their net bits, and where the net bits of one are the sum of those of the others, so is its word. None
// of the tests 1 to 3 applies to parameters and list, each work buffer is long enough for test 5, and the net
// bits of all three are bits.
pub fn encode_sum(p: Params, list: &[u16], x: &mut [u8], y: &mut [u8], sum: &mut [u8])
    requires sized { (sizes_answer p list.now).number ≡ 0 }
    requires room { let s = sizes_for p list.now in (s.work ≤ length x.old) × (s.work ≤ length y.old) × (s.work ≤ length sum.old) }
    requires bits { let a = areas_of (sizes_for p list.now) in AllBits (net_in a x.old) × AllBits (net_in a y.old) × AllBits (net_in a sum.old) }
    ensures words { let s = sizes_for p list.now in let a = areas_of s in (word_in a x.new ≡ codeword_for s (net_in a x.old)) × (word_in a y.new ≡ codeword_for s (net_in a y.old)) × (word_in a sum.new ≡ codeword_for s (net_in a sum.old)) }
    ensures adds { let a = areas_of (sizes_for p list.now) in net_in a sum.old ≡ bitwise_sum (net_in a x.old) (net_in a y.old) → word_in a sum.new ≡ bitwise_sum (word_in a x.new) (word_in a y.new) }
{
    let s = capacity::sizes_of(p, list.len() / 3);
    let a = lent::areas_for(s);
    ldpc::encode(x, s, a);
    ldpc::encode(y, s, a);
    ldpc::encode(sum, s, a);
}

// The interleaving of a sum is the sum of the interleavings: `shuffle::shuffle` permutes three words from one
// state, and where one is the sum of the others, it still is. They have at most 4,096 bytes each.
pub fn shuffle_sum(x: &mut [u8], y: &mut [u8], sum: &mut [u8], state: u64)
    requires { (length x.old ≡ length sum.old) × (length y.old ≡ length sum.old) × (length sum.old ≤ 4096) }
    ensures words { (x.new ≡ shuffled 0 state x.old) × (y.new ≡ shuffled 0 state y.old) × (sum.new ≡ shuffled 0 state sum.old) }
    ensures adds { sum.old ≡ bitwise_sum x.old y.old → sum.new ≡ bitwise_sum x.new y.new }
{
    shuffle::shuffle(x, state);
    shuffle::shuffle(y, state);
    shuffle::shuffle(sum, state);
}

// What is filled with a mask, masked once more with it, is the filling of the same bits without a mask. The
// tests 1 and 2 are passed, there are C bits, and the matrix has the symbol's length.
pub fn fill_masked(p: Params, list: &[u16], bits: &[u8], matrix: &mut [u8])
    requires { (in_range p ≡ true) × (list_verdict p list.now ≡ Ok tt) × (length bits.now ≡ (sizes_for p list.now).capacity) × (length matrix.old ≡ rows p * columns p) }
    ensures { masked p list.now p.mask matrix.new ≡ unmasked p list.now bits.now }
{
    layout::fill(p, list, bits, matrix);
}
