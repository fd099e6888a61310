// What a program reads its input with. std does not say which reads fail, and of an argument it says only that its
// length fits the buffer: the two functions leave the rest open. So no program of this repository rests on them; each
// has what it needs of them itself, with the definitions of specs/ and the laws of proofs/.
#![tactic(auto)]

ghost use Rattle.std.specs.Prelude.{◌≤◌, ◌<◌, length, take, IfOk, IfSome, OnErr};
ghost use Rattle.std.specs.Io.KnownBytes.{Consumes, IsAtEnd};
ghost use Rattle.program_input.specs.Reading.{CutShort, FilledFrom};

use std::env::Env;
use std::io;
use std::io::Read;

#[cfg(test)]
mod tests;

// Reads until the buffer is full or the input ends, and answers how many bytes came. A read gives as many as
// it likes, so that a `for` could only count the reads.
pub fn read_full<R: Read>(input: &mut R, buffer: &mut [u8]) -> io::Result<usize>
    ensures inside { IfOk result (λ n. n ≤ length buffer.new) }
    ensures bytes { IfOk result (λ n. Consumes (R.remaining input.old) (R.remaining input.new) (take n buffer.new)) }
    ensures end { IfOk result (λ n. n < length buffer.new → IsAtEnd (R.remaining input.new)) }
    ensures known { IfOk result (λ n. IfSome (R.remaining input.old)
        (λ xs. FilledFrom xs (R.remaining input.new) buffer.new n)) }
    ensures failed { OnErr result (CutShort (R.remaining input.old) (R.remaining input.new) buffer.new) }
{
    let mut done = 0;
    while done < buffer.len() {
        let n = input.read(&mut buffer[done..])?;
        if n == 0 {
            break;
        }
        done += n;
    }
    Ok(done)
}

// Stores argument i and answers its length, where it is not missing, not empty and not longer than the
// buffer. The length and no slice: a part lent out of it would need a clause on what it lends.
pub fn argument(rt: &impl Env, i: usize, buffer: &mut [u8]) -> Option<usize>
    ensures { IfSome result (λ n. (0 < n) × (n ≤ length buffer.new)) }
{
    rt.arg(i, buffer).ok().filter(|n| 0 < *n)
}
