// The stages of error correction over any areas and any check matrix: the codeword of net bits, and the
// message bits of a word. The checks are in the work buffer; mending, the stage between, is `mending::mend`.
#![tactic(auto)]

ghost use Rattle.std.specs.Prelude.{length};
ghost use Rattle.symbology.specs.Bits.{AllBits};
ghost use Rattle.lent.specs.Work.{Laid, net_in};
ghost use Rattle.checks.specs.Checks.{stands_in};
ghost use Rattle.coding.specs.Stages.{WordEncoded, MessageTaken};

use lent::Areas;

// Stores the codeword of the net bits as the word. The checks are lost.
pub fn encode(work: &mut [u8], a: Areas)
    requires { Laid a (length work.old) × AllBits (net_in a work.old) }
    ensures { WordEncoded a (stands_in a work.old) work.old work.new }
{
    elimination::eliminate(work, a);
    codeword::fill_word(work, a);
}

// Stores the bits of the word in the first message columns as the net bits, and answers whether one in the
// spare message columns is 1. The checks are lost. The net bits are stored in both cases, so that the answer
// is a flag and no Result.
pub fn take_message(work: &mut [u8], a: Areas) -> bool
    requires { Laid a (length work.old) }
    ensures { MessageTaken a (stands_in a work.old) work.old work.new result }
{
    elimination::eliminate(work, a);
    codeword::read_message(work, a)
}
