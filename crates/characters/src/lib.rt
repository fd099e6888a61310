// The characters of 002, Table 12: which bytes a code gives. The stream reader calls `bytes_of`.
#![tactic(auto)]

ghost use Rattle.std.specs.Prelude.{◌≡◌, [], ◌∷◌, take, drop};
ghost use Rattle.symbology.specs.Characters.{punctuation_characters, mixed_characters, character_bytes};
ghost use Rattle.symbology.specs.Modes.{characters_of, bytes_of};
ghost use Rattle.characters.specs.Bytes.{bytes_in, is_byte, is_run};

use std::slice;
use symbology::{Expected, Mode};

// The bytes that a code gives: those of a character of Table 12, or a byte of a run.
#[derive(Clone, Copy)]
pub enum CodeBytes {
    Character(&'static [u8]),
    Byte(u8),
}

impl CodeBytes {
    pub fn as_slice(&self) -> &[u8]
        ensures { result.now ≡ bytes_in self.now }
    {
        match self {
            CodeBytes::Character(bytes) => bytes,
            CodeBytes::Byte(byte) => slice::from_ref(byte),
        }
    }
}

// Value v of a column of Table 12 whose characters are one byte each; past them no bytes.
fn character(column: &[u8], v: u32) -> &[u8]
    ensures { result.now ≡ take 1 (drop v column.now) }
{
    let i = v as usize;
    column.get(i..i + 1).unwrap_or(b"")
}

// Table 12: the columns of the modes that are latched.
fn latched_bytes(m: Mode, v: u32) -> &'static [u8]
    ensures { result.now ≡ character_bytes (characters_of m) v }
{
    match m {
        Mode::Upper => character(b" ABCDEFGHIJKLMNOPQRSTUVWXYZ", v),
        Mode::Lower => character(b" abcdefghijklmnopqrstuvwxyz", v),
        Mode::Numeric => character(b" 0123456789,.", v),
        Mode::Alphanumeric => {
            character(
                b" 0123456789ABCDEFGHIJKLMNOPQRSTUVWXYZabcdefghijklmnopqrstuvwxyz",
                v,
            )
        }
    }
}

fn punctuation_bytes(v: u32) -> &'static [u8]
    ensures { result.now ≡ character_bytes punctuation_characters v }
{
    character(b"!\"$%&'(),-./:;?@", v)
}

// From value 19 on the characters have several bytes each: CR LF as the table's ISO column says it, and those
// beyond the 7-bit set in UTF-8.
#[tactic(auto, using(crate::proofs::Columns::mixed_several))]
fn mixed_bytes(v: u32) -> &'static [u8]
    ensures { result.now ≡ character_bytes mixed_characters v }
{
    match v {
        0..=18 => character(b"#*+<=>[\\]^_`{|}~\t\n\r", v),
        19 => b"\n\r",
        20 => b", ",
        21 => b". ",
        22 => b": ",
        23 => "€".as_bytes(),
        24 => "§".as_bytes(),
        25 => "Ä".as_bytes(),
        26 => "Ö".as_bytes(),
        27 => "Ü".as_bytes(),
        28 => "ß".as_bytes(),
        29 => "ä".as_bytes(),
        30 => "ö".as_bytes(),
        31 => "ü".as_bytes(),
        _ => b"",
    }
}

// The bytes that the code of value v gives: a byte of a run as a byte, and all others as characters.
#[tactic(auto, unfolding(symbology::specs::Modes::bytes_of, symbology::specs::Modes::characters_of))]
pub fn bytes_of(m: Mode, e: Expected, v: u32) -> CodeBytes
    ensures bytes { bytes_in result ≡ bytes_of m e v }
    ensures form { is_byte result ≡ is_run e }
{
    match e {
        Expected::Latched => CodeBytes::Character(latched_bytes(m, v)),
        Expected::Punctuation => CodeBytes::Character(punctuation_bytes(v)),
        Expected::Mixed => CodeBytes::Character(mixed_bytes(v)),
        Expected::Capital => CodeBytes::Character(latched_bytes(Mode::Upper, v)),
        Expected::MoreSwitches | Expected::ShortCount | Expected::LongCount => CodeBytes::Character(
            b"",
        ),
        Expected::Byte(_) => CodeBytes::Byte((v % 256) as u8),
    }
}
