// The byte-mode stream of a message (002, 4.3.7); the stream that a message is written as, which is that
// one, with its end mark; and test 6. Bits lie one to a byte.
//
// `write_net` and `exceeds_net` serve the write of a symbol. The length of a stream is worked out from
// that of the message, so that room is denied before anything is stored.
#![tactic(auto)]

ghost use Rattle.std.specs.Prelude.{◌+◌, ◌*◌, ◌≤◌, ◌<◌, ◌^◌, ◌≡◌, length};
ghost use Rattle.symbology.specs.Stream.{longest_run, byte_bits, run_count, byte_run, byte_stream, stream_of};
ghost use Rattle.symbology.specs.Net.{with_end_mark, exceeds};
ghost use Rattle.pieces.specs.Pieces.{StoredAt};

// The greatest length of a run, 15 + 8,191 bytes.
const LONGEST_RUN: usize = 8206;

// ---- lengths

// The bits of a message's byte-mode stream. A run has 7 bits of switches, a count of 4 bits or, from 16 bytes
// on, of 4 and 13, and 8 bits for each byte.
fn byte_length(message: &[u8]) -> usize
    requires { length message.now < 2 ^ 32 }
    ensures { result ≡ length (byte_stream message.now) }
{
    let n = message.len();
    let whole = n / LONGEST_RUN * (24 + 8 * LONGEST_RUN);
    let last = match n % LONGEST_RUN {
        0 => 0,
        rest @ 1..=15 => 11 + 8 * rest,
        rest => 24 + 8 * rest,
    };
    whole + last
}

// ---- runs. Each function stores from `at` on and answers the place behind what it stored: a cursor that keeps the
// lent buffer would need the buffer's name in each clause, and is no plainer.

// The eight bits of each byte.
fn write_bytes(out: &mut [u8], at: usize, bytes: &[u8]) -> usize
    requires { at + 8 * length bytes.now ≤ length out.old }
    ensures { StoredAt (byte_bits bytes.now) at out.old out.new result }
{
    let mut next = at;
    for byte in bytes {
        bitfield::put_bits(out, next, 8, usize::from(*byte));
        next += 8;
    }
    next
}

// The count of a run of n bytes: short from 1 to 15 and long above.
#[tactic(auto, using(laws::proofs::ByteMode::short_length, laws::proofs::ByteMode::long_length))]
fn write_count(out: &mut [u8], at: usize, n: usize) -> usize
    requires { (n ≤ longest_run) × (at + length (run_count n) ≤ length out.old) }
    ensures { StoredAt (run_count n) at out.old out.new result }
{
    if n < 16 {
        bitfield::put_bits(out, at, 4, n);
        return at + 4;
    }
    bitfield::put_bits(out, at, 4, 0);
    bitfield::put_bits(out, at + 4, 13, n - 15);
    at + 17
}

// A run: the switches 11111 and 00 as one number, the count, the bytes.
#[tactic(auto, using(laws::proofs::ByteMode::run_length))]
fn write_run(out: &mut [u8], at: usize, bytes: &[u8]) -> usize
    requires { (length bytes.now ≤ longest_run) × (at + length (byte_run bytes.now) ≤ length out.old) }
    ensures { StoredAt (byte_run bytes.now) at out.old out.new result }
{
    bitfield::put_bits(out, at, 7, 124);
    let next = write_count(out, at + 7, bytes.len());
    write_bytes(out, next, bytes)
}

// ---- the stream in byte mode

// Stores the runs of a message in front of the buffer and answers their length.
fn write_runs(message: &[u8], out: &mut [u8]) -> usize
    requires { length (byte_stream message.now) ≤ length out.old }
    ensures { StoredAt (byte_stream message.now) 0 out.old out.new result }
{
    let mut at = 0;
    for run in message.chunks(LONGEST_RUN) {
        at = write_run(out, at, run);
    }
    at
}

// ---- the stream that is chosen, and its end mark. Byte mode is chosen in the first two functions, and nowhere else.

// The bits of the stream that a message is written as.
#[tactic(auto, unfolding(symbology::specs::Stream::stream_of))]
pub fn stream_length(message: &[u8]) -> usize
    requires { length message.now < 2 ^ 32 }
    ensures { result ≡ length (stream_of message.now) }
{
    byte_length(message)
}

// Stores that stream in front of the buffer and answers its length.
#[tactic(auto, unfolding(symbology::specs::Stream::stream_of))]
pub fn write_stream(message: &[u8], out: &mut [u8]) -> usize
    requires { length (stream_of message.now) ≤ length out.old }
    ensures { StoredAt (stream_of message.now) 0 out.old out.new result }
{
    write_runs(message, out)
}

// Test 6: the stream of a message and its end mark exceed the net bits. A message of more bytes than
// there are net bits is refused first, so that the length of any other can be worked out.
#[tactic(auto, using(crate::proofs::Lengths::chosen_bounds))]
pub fn exceeds_net(message: &[u8], net: usize) -> bool
    requires { net < 2 ^ 32 }
    ensures { result ≡ exceeds (length (stream_of message.now)) net }
{
    net < message.len() || net < stream_length(message) + 1
}

// Stores the net bits of a message: its stream, a 1, then zeros to the end of the buffer.
pub fn write_net(message: &[u8], net: &mut [u8])
    requires { length (stream_of message.now) < length net.old }
    ensures { net.new ≡ with_end_mark (length net.old) (stream_of message.now) }
{
    let end = write_stream(message, net);
    net[end] = 1;
    net[end + 1..].fill(0);
}
