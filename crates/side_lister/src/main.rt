// Reads a decimal number from standard input and prints the side of that side-version, or refuses.
#![tactic(auto)]

use lister::Numeral;
use std::io;
use std::io::{Read, Write};

// The number that the input is, where it is one, read piece by piece to its end. Above 32 it is some
// number above 32. `label_codec` reads piece by piece too, with a step of its own.
fn input_number(input: &mut impl Read) -> io::Result<Option<usize>> {
    let mut space = [0u8; 4096];
    let mut state = Numeral::Start;
    for _ in 0..u64::MAX {
        let n = input.read(&mut space)?;
        if n == 0 {
            break;
        }
        state = lister::scan(state, &space[..n]);
    }
    Ok(lister::number_of(state))
}

fn main(rt: HostRuntime) -> io::Result<()> {
    let mut out = [0u8; 48];
    let n = lister::number_text(input_number(&mut rt.stdin())?, &mut out);
    rt.stdout().write_all(&out[..n])
}
