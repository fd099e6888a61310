// The modes of 002, 4.3, and Tables 13 to 16: how wide a code is, what it does to the mode, and how a reading
// ends. These functions serve the stream reader.
#![tactic(auto)]

ghost use Rattle.std.specs.Prelude.{ℕ, ◌≡◌};
ghost use Rattle.symbology.specs.Modes.{mode_width, code_width, switch_of, mode_number, end_number};
ghost use Rattle.symbology.specs.declared.Mode.TheVariants.{Upper, Lower, Numeric, Alphanumeric};
ghost use Rattle.symbology.specs.declared.Expected.TheVariants.{Latched, Capital, MoreSwitches, ShortCount, Byte};
ghost use Rattle.calls.specs.Answers.{answer};
ghost use Rattle.calls.specs.Refusals.{answer_of};

use calls::Refusal;
use symbology::{Expected, Mode, ModeAnswer};

// ---- widths

fn mode_width(m: Mode) -> usize
    ensures { result ≡ mode_width m }
{
    match m {
        Mode::Upper | Mode::Lower => 5,
        Mode::Numeric => 4,
        Mode::Alphanumeric => 6,
    }
}

// The bits of the next code. The mode and the expected code are two parameters here and below, as they are two
// fields of `ModeAnswer::Next`, which a reading takes apart: a pair of them would be no plainer.
pub fn code_width(m: Mode, e: Expected) -> usize
    ensures { result ≡ code_width m e }
{
    match e {
        Expected::Latched => mode_width(m),
        Expected::Punctuation => 4,
        Expected::Mixed => 5,
        Expected::Capital => 5,
        Expected::MoreSwitches => 2,
        Expected::ShortCount => 4,
        Expected::LongCount => 13,
        Expected::Byte(_) => 8,
    }
}

// ---- switches

// Tables 13 to 16, "Direct", and the value MS: what a code of a latched mode does.

// Table 13.
#[tactic(auto, unfolding(crate::proofs::Modes::switch_of, crate::proofs::Modes::character_count, crate::proofs::Modes::direct_switches))]
fn upper_switch(v: u32) -> ModeAnswer
    ensures { result ≡ switch_of Upper Latched v }
{
    match v {
        0..=26 => ModeAnswer::Next(Mode::Upper, Expected::Latched),
        27 => ModeAnswer::Next(Mode::Upper, Expected::Punctuation),
        28 => ModeAnswer::Next(Mode::Lower, Expected::Latched),
        29 => ModeAnswer::Next(Mode::Numeric, Expected::Latched),
        30 => ModeAnswer::Next(Mode::Alphanumeric, Expected::Latched),
        31 => ModeAnswer::Next(Mode::Upper, Expected::MoreSwitches),
        _ => ModeAnswer::Undefined,
    }
}

// Table 14.
#[tactic(auto, unfolding(crate::proofs::Modes::switch_of, crate::proofs::Modes::character_count, crate::proofs::Modes::direct_switches))]
fn lower_switch(v: u32) -> ModeAnswer
    ensures { result ≡ switch_of Lower Latched v }
{
    match v {
        0..=26 => ModeAnswer::Next(Mode::Lower, Expected::Latched),
        27 => ModeAnswer::Next(Mode::Lower, Expected::Punctuation),
        28 => ModeAnswer::Next(Mode::Lower, Expected::Capital),
        29 => ModeAnswer::Next(Mode::Numeric, Expected::Latched),
        30 => ModeAnswer::Next(Mode::Alphanumeric, Expected::Latched),
        31 => ModeAnswer::Next(Mode::Lower, Expected::MoreSwitches),
        _ => ModeAnswer::Undefined,
    }
}

// Table 15.
#[tactic(auto, unfolding(crate::proofs::Modes::switch_of, crate::proofs::Modes::character_count, crate::proofs::Modes::direct_switches))]
fn numeric_switch(v: u32) -> ModeAnswer
    ensures { result ≡ switch_of Numeric Latched v }
{
    match v {
        0..=12 => ModeAnswer::Next(Mode::Numeric, Expected::Latched),
        13 => ModeAnswer::Next(Mode::Numeric, Expected::Punctuation),
        14 => ModeAnswer::Next(Mode::Upper, Expected::Latched),
        15 => ModeAnswer::Next(Mode::Numeric, Expected::MoreSwitches),
        _ => ModeAnswer::Undefined,
    }
}

// Table 16, with the value of the text of 4.3.6.
#[tactic(auto, unfolding(crate::proofs::Modes::switch_of, crate::proofs::Modes::character_count, crate::proofs::Modes::direct_switches))]
fn alphanumeric_switch(v: u32) -> ModeAnswer
    ensures { result ≡ switch_of Alphanumeric Latched v }
{
    match v {
        0..=62 => ModeAnswer::Next(Mode::Alphanumeric, Expected::Latched),
        63 => ModeAnswer::Next(Mode::Alphanumeric, Expected::MoreSwitches),
        _ => ModeAnswer::Undefined,
    }
}

fn direct_switch(m: Mode, v: u32) -> ModeAnswer
    ensures { result ≡ switch_of m Latched v }
{
    match m {
        Mode::Upper => upper_switch(v),
        Mode::Lower => lower_switch(v),
        Mode::Numeric => numeric_switch(v),
        Mode::Alphanumeric => alphanumeric_switch(v),
    }
}

// The same tables, "Extended": the first two switches are the same in each, to byte and to mixed mode.
#[tactic(auto, unfolding(crate::proofs::Modes::switch_of, crate::proofs::Modes::more_switches))]
fn extended_switch(m: Mode, v: u32) -> ModeAnswer
    ensures { result ≡ switch_of m MoreSwitches v }
{
    match v {
        0 => ModeAnswer::Next(m, Expected::ShortCount),
        1 => ModeAnswer::Next(m, Expected::Mixed),
        2 => third_switch(m),
        3 => fourth_switch(m),
        _ => ModeAnswer::Undefined,
    }
}

// Appended bits 10.
#[tactic(auto, unfolding(crate::proofs::Modes::switch_of, crate::proofs::Modes::more_switches))]
fn third_switch(m: Mode) -> ModeAnswer
    ensures { result ≡ switch_of m MoreSwitches 2 }
{
    match m {
        Mode::Upper => ModeAnswer::Eci,
        Mode::Lower => ModeAnswer::Next(Mode::Upper, Expected::Latched),
        Mode::Numeric => ModeAnswer::Next(Mode::Numeric, Expected::Capital),
        Mode::Alphanumeric => ModeAnswer::Next(Mode::Alphanumeric, Expected::Punctuation),
    }
}

// Appended bits 11.
#[tactic(auto, unfolding(crate::proofs::Modes::switch_of, crate::proofs::Modes::more_switches))]
fn fourth_switch(m: Mode) -> ModeAnswer
    ensures { result ≡ switch_of m MoreSwitches 3 }
{
    match m {
        Mode::Upper => ModeAnswer::Fnc1,
        Mode::Lower => ModeAnswer::EndOfMessage,
        Mode::Numeric => ModeAnswer::Next(Mode::Lower, Expected::Latched),
        Mode::Alphanumeric => ModeAnswer::Next(Mode::Upper, Expected::Latched),
    }
}

// After a shift to uppercase mode, for one character.
#[tactic(auto, unfolding(crate::proofs::Modes::switch_of, crate::proofs::Modes::character_count))]
fn capital_switch(m: Mode, v: u32) -> ModeAnswer
    ensures { result ≡ switch_of m Capital v }
{
    match v {
        0..=26 => ModeAnswer::Next(m, Expected::Latched),
        _ => ModeAnswer::Undefined,
    }
}

// 4.3.7: the short count of a byte run; 0 says that the long one follows.
#[tactic(auto, unfolding(crate::proofs::Modes::switch_of))]
fn short_count(m: Mode, v: u32) -> ModeAnswer
    ensures { result ≡ switch_of m ShortCount v }
{
    match v {
        0 => ModeAnswer::Next(m, Expected::LongCount),
        _ => ModeAnswer::Next(m, Expected::Byte(v as usize - 1)),
    }
}

// A byte of a run with k more behind it, whatever its value.
#[tactic(auto, unfolding(crate::proofs::Modes::switch_of))]
fn after_byte(m: Mode, k: usize) -> ModeAnswer
    ensures { (v : ℕ) → result ≡ switch_of m (Byte k) v }
{
    match k {
        0 => ModeAnswer::Next(m, Expected::Latched),
        _ => ModeAnswer::Next(m, Expected::Byte(k - 1)),
    }
}

// What the code of value v does to the mode.
#[tactic(auto, unfolding(crate::proofs::Modes::switch_of))]
pub fn switch_of(m: Mode, e: Expected, v: u32) -> ModeAnswer
    ensures { result ≡ switch_of m e v }
{
    match e {
        Expected::Latched => direct_switch(m, v),
        Expected::Punctuation | Expected::Mixed => ModeAnswer::Next(m, Expected::Latched),
        Expected::Capital => capital_switch(m, v),
        Expected::MoreSwitches => extended_switch(m, v),
        Expected::ShortCount => short_count(m, v),
        Expected::LongCount => ModeAnswer::Next(m, Expected::Byte(v as usize + 14)),
        Expected::Byte(k) => after_byte(m, k),
    }
}

// ---- how a reading ends

// The end of the stream, where a code was expected and so many bits are left, too few for it.
pub fn end_of_stream(e: Expected, left: usize) -> Result<(), Refusal>
    ensures { answer_of result ≡ answer (end_number e left) 0 }
{
    match e {
        Expected::Latched if left == 0 => Ok(()),
        _ => Err(Refusal::BadCode),
    }
}

// The end by a mode answer: no refusal where the reading goes on.
pub fn end_by_code(a: ModeAnswer) -> Result<(), Refusal>
    ensures { answer_of result ≡ answer (mode_number a) 0 }
{
    match a {
        ModeAnswer::Next(_, _) | ModeAnswer::EndOfMessage => Ok(()),
        ModeAnswer::Undefined => Err(Refusal::BadCode),
        ModeAnswer::Eci | ModeAnswer::Fnc1 => Err(Refusal::EciOrFnc1),
    }
}
