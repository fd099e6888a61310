// Bytes stored piece after piece in a lent buffer, as far as it reaches: a buffer that is too short
// holds the front of what is stored. specs/ has the contract of functions of other crates that store a piece
// and answer the place behind it.
#![tactic(auto)]

ghost use Rattle.std.specs.Prelude.{◌+◌, ◌^◌, ◌<◌, ◌≡◌, length, set};
ghost use Rattle.pieces.specs.Pieces.{StoredAt};

// Stores one byte at a place, where the buffer has it. A test and not `get_mut`, after which the library says
// nothing of the slice's elements, so that the clause is not proved.
pub fn put(out: &mut [u8], at: usize, byte: u8)
    ensures { out.new ≡ set out.old at byte }
{
    if at < out.len() {
        out[at] = byte;
    }
}

// Stores bytes from a place on, as far as the buffer reaches, and answers the place behind them.
pub fn put_all(out: &mut [u8], at: usize, bytes: &[u8]) -> usize
    requires { at + length bytes.now < 2 ^ 64 }
    ensures { StoredAt bytes.now at out.old out.new result }
{
    for (i, byte) in bytes.iter().enumerate() {
        put(out, at + i, *byte);
    }
    at + bytes.len()
}
