// Streams read in all modes of 002, 4.3, and the tests 11 to 14. Bits lie one to a byte.
//
// `read_net` serves the read of a symbol. One loop, that of `read_stream`, counts the bytes of a stream
// where it is lent an empty buffer, and stores them where it is lent the caller's.
#![tactic(auto)]

ghost use Rattle.std.specs.Prelude.{◌+◌, ◌<◌, ◌^◌, ◌≡◌, length};
ghost use Rattle.symbology.specs.Stream.{decode};
ghost use Rattle.pieces.specs.Pieces.{StoredAt};
ghost use Rattle.calls.specs.Refusals.{stream_told};
ghost use Rattle.stream_reader.specs.Reading.{StreamRead, NetRead, MarkedAt};

use calls::Refusal;
use symbology::{Expected, Mode, ModeAnswer};

// ---- streams

// What a stream gave: how its reading ended, and how many bytes until there.
#[derive(Clone, Copy)]
pub struct StreamCount {
    pub end: Result<(), Refusal>,
    pub count: usize,
}

// Reads a stream from uppercase mode, code by code, and stores its bytes as far as the buffer reaches.
pub fn read_stream(stream: &[u8], out: &mut [u8]) -> StreamCount
    ensures { StreamRead (decode stream.now) out.old out.new result }
{
    let mut mode = Mode::Upper;
    let mut expected = Expected::Latched;
    let mut at = 0;
    let mut count = 0;
    // No `for`: a turn goes on by the width of its code, and what a code does ends the reading by `let .. else`.
    loop {
        let width = modes::code_width(mode, expected);
        let left = stream.len() - at;
        if left < width {
            let end = modes::end_of_stream(expected, left);
            return StreamCount { end, count };
        }
        let v = bitfield::bits_value(stream, at, width);
        let bytes = characters::bytes_of(mode, expected, v);
        count = pieces::put_all(out, count, bytes.as_slice());
        at += width;
        let answer = modes::switch_of(mode, expected, v);
        let ModeAnswer::Next(next, owed) = answer else {
            let end = modes::end_by_code(answer);
            return StreamCount { end, count };
        };
        mode = next;
        expected = owed;
    }
}

// ---- net bits

// The place of the end mark, the last 1; none where all bits are 0.
pub fn end_mark(net: &[u8]) -> Option<usize>
    ensures { MarkedAt net.now result }
{
    net.iter().rposition(|bit| *bit % 2 == 1)
}

// Reads net bits: the tests 11 to 14, with room for so many bytes, and where none refuses the message over the
// front of its buffer, as far as that reaches. The stream is read to its end before the first byte is stored, so
// that a refusal leaves the buffer as it came; with an empty buffer the length is learnt and nothing stored.
pub fn read_net(net: &[u8], room: usize, message: &mut [u8]) -> Result<usize, Refusal>
    ensures { NetRead net.now room message.old message.new (stream_told result) }
{
    let mark = end_mark(net).ok_or(Refusal::NoEndMark)?;
    let stream = &net[..mark];
    let first = read_stream(stream, &mut message[..0]);
    first.end?;
    if room < first.count {
        return Err(Refusal::Overfull);
    }
    let second = read_stream(stream, message);
    Ok(second.count)
}
