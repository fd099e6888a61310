// The types of a symbol, and in specs/ every definition that a symbol is held to: layout, code, streams.
// The definitions of the calls stand in `calls`, and what lower functions keep or ask for in the specs/ of
// their crates. This crate has no functions but those of the derives: it is what a reader must believe.
#![tactic(auto)]

// What a caller chooses for one symbol, in document 01's order. Any number may stand in any field:
// the calls refuse what is outside document 01's ranges.
#[derive(Clone, Copy, PartialEq, Eq)]
pub struct Params {
    pub kind: u32,
    pub horizontal: u32,
    pub vertical: u32,
    pub colours: u32,
    pub black: u32,
    pub cyan: u32,
    pub yellow: u32,
    pub wc: u32,
    pub wr: u32,
    pub mask: u32,
    pub turn: u32,
}

// A count of modules and a count of bits. They are never added: the one way from the first to the
// second is the bits per module.
#[derive(Clone, Copy, PartialEq, Eq)]
pub struct Modules(pub u32);

#[derive(Clone, Copy, PartialEq, Eq)]
pub struct Bits(pub u32);

// What follows from the parameters and the number of list entries. `depth` is the bits per module,
// `block` the rows of A in one block (document 01's t), `gross`, `checks` and `net` are Pg, K and
// Pn, and `work` is the number of bytes that test 5 asks for.
#[derive(Clone, Copy, PartialEq, Eq)]
pub struct Sizes {
    pub columns: usize,
    pub rows: usize,
    pub depth: usize,
    pub capacity: usize,
    pub wr: usize,
    pub block: usize,
    pub gross: usize,
    pub checks: usize,
    pub net: usize,
    pub work: usize,
}

// A core coordinate at most two modules from a coordinate of its side: its core number, from 0, and the
// offset from two modules before it, which is 2 on the core and 0 to 4 at all.
#[derive(Clone, Copy, PartialEq, Eq)]
pub struct Near {
    pub core: usize,
    pub offset: usize,
}

// The colour that a pattern gives a module.
#[derive(Clone, Copy, PartialEq, Eq)]
pub enum PatternColour {
    Black,
    Cyan,
    Yellow,
}

// A finder or alignment pattern: how far it reaches from its core, whether its squares lie upper
// left and lower right of the core, its core's colour, which a finder pattern has again at distance
// 2, and that of the ring at distance 1.
#[derive(Clone, Copy, PartialEq, Eq)]
pub struct Pattern {
    pub reach: usize,
    pub falling: bool,
    pub core: PatternColour,
    pub ring: PatternColour,
}

// The modes of 002, 4.3, that a reader stays in until the next latch.
#[derive(Clone, Copy, PartialEq, Eq)]
pub enum Mode {
    Upper,
    Lower,
    Numeric,
    Alphanumeric,
}

// What the next code of a stream is: one of the latched mode, the one character after a shift to
// punctuation, mixed or uppercase mode, the two bits that extend a mode switch, the short or the
// long count of a byte run, or a byte with so many more behind it.
#[derive(Clone, Copy, PartialEq, Eq)]
pub enum Expected {
    Latched,
    Punctuation,
    Mixed,
    Capital,
    MoreSwitches,
    ShortCount,
    LongCount,
    Byte(usize),
}

// What a code does to the mode: the next mode and code, or the end of the stream's reading.
#[derive(Clone, Copy, PartialEq, Eq)]
pub enum ModeAnswer {
    Next(Mode, Expected),
    EndOfMessage,
    Undefined,
    Eci,
    Fnc1,
}
