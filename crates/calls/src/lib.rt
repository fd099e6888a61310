// The answers of the calls and, in specs/, the definitions that the calls are held to: the tables of tests,
// the whole write, the whole read, and what a call promises. Every answer is made by a function here.
#![tactic(auto)]

ghost use Rattle.std.specs.Prelude.{◌≡◌};
ghost use Rattle.calls.specs.Refusals.{refusal_number, refusal_place, answer_of, sizes_told, read_told};
ghost use Rattle.calls.specs.Answers.{refused};

use symbology::Sizes;

// ---- refusals

// Why a call is refused: a variant for each number of documents 01 and 02 but the 0 of a call that is done and
// the 8 that is retired. Two have a place.
#[derive(Clone, Copy, PartialEq, Eq, Debug)]
pub enum Refusal {
    OutOfRange,
    BadList(usize),
    BadCapacity,
    OtherMatrix,
    ShortWork,
    NoRoom,
    BadModule(usize),
    StuckWord,
    ShortPlaces,
    SpareOne,
    NoEndMark,
    BadCode,
    EciOrFnc1,
    Overfull,
}

impl Refusal {
    // Document 01's number.
    pub fn number(self) -> u32
        ensures { result ≡ refusal_number self }
    {
        match self {
            Refusal::OutOfRange => 1,
            Refusal::BadList(_) => 2,
            Refusal::BadCapacity => 3,
            Refusal::OtherMatrix => 4,
            Refusal::ShortWork => 5,
            Refusal::NoRoom => 6,
            Refusal::BadModule(_) => 7,
            Refusal::StuckWord => 9,
            Refusal::ShortPlaces => 16,
            Refusal::SpareOne => 10,
            Refusal::NoEndMark => 11,
            Refusal::BadCode => 12,
            Refusal::EciOrFnc1 => 13,
            Refusal::Overfull => 14,
        }
    }

    // Document 01's place.
    pub fn place(self) -> usize
        ensures { result ≡ refusal_place self }
    {
        match self {
            Refusal::BadList(entry) => entry,
            Refusal::BadModule(module) => module,
            _ => 0,
        }
    }
}

// ---- the types. They hold document 01's number and place and no `Refusal`: the C interface gives these, and the
// clauses of the calls name them.

// The answer of a write, and of the tests 1 to 5: document 01's number and place.
#[derive(Clone, Copy)]
pub struct Answer {
    pub number: u32,
    pub place: usize,
}

// The answer of `sizes`: document 01's number and place, and what a caller needs to know of a symbol
// before it is written or read: columns, rows, C, Pn, the bytes of the work buffer, Pg and K.
#[derive(Clone, Copy)]
pub struct SizesAnswer {
    pub number: u32,
    pub place: usize,
    pub columns: usize,
    pub rows: usize,
    pub capacity: usize,
    pub net: usize,
    pub work: usize,
    pub gross: usize,
    pub checks: usize,
}

// The counts that a read hands from stage to stage: the repairs, the number of checks unmet in the
// received word, and the number of wrong stuffing bits.
#[derive(Clone, Copy)]
pub struct Counts {
    pub repairs: usize,
    pub unmet: usize,
    pub stuffing: usize,
}

// The answer of a read: the number and place of documents 01 and 02, the message's length, and the counts.
#[derive(Clone, Copy)]
pub struct ReadAnswer {
    pub number: u32,
    pub place: usize,
    pub length: usize,
    pub repairs: usize,
    pub unmet: usize,
    pub stuffing: usize,
}

// ---- the answers

impl From<Result<(), Refusal>> for Answer {
    ghost from_gives = { λ outcome a. a ≡ answer_of outcome };

    fn from(outcome: Result<(), Refusal>) -> Answer {
        let (number, place) = match outcome {
            Ok(_) => (0, 0),
            Err(refusal) => (refusal.number(), refusal.place()),
        };
        Answer { number, place }
    }
}

// A refusal has zeros for the sizes.
impl From<Result<Sizes, Refusal>> for SizesAnswer {
    ghost from_gives = { λ outcome a. a ≡ sizes_told outcome };

    fn from(outcome: Result<Sizes, Refusal>) -> SizesAnswer {
        match outcome {
            Ok(s) => SizesAnswer {
                number: 0,
                place: 0,
                columns: s.columns,
                rows: s.rows,
                capacity: s.capacity,
                net: s.net,
                work: s.work,
                gross: s.gross,
                checks: s.checks,
            },
            Err(refusal) => SizesAnswer {
                number: refusal.number(),
                place: refusal.place(),
                columns: 0,
                rows: 0,
                capacity: 0,
                net: 0,
                work: 0,
                gross: 0,
                checks: 0,
            },
        }
    }
}

impl ReadAnswer {
    // What a read gives, the length of a message or a refusal, with its counts: these are handed on, refused
    // or not. A refusal has length 0.
    pub fn new(c: Counts, outcome: Result<usize, Refusal>) -> ReadAnswer
        ensures { result ≡ read_told c outcome }
    {
        let (number, place, length) = match outcome {
            Ok(length) => (0, 0, length),
            Err(refusal) => (refusal.number(), refusal.place(), 0),
        };
        ReadAnswer {
            number,
            place,
            length,
            repairs: c.repairs,
            unmet: c.unmet,
            stuffing: c.stuffing,
        }
    }
}

// A refusal before the checks, by its number and place: length and counts are 0.
impl From<Answer> for ReadAnswer {
    ghost from_gives = { λ given a. a ≡ refused given.number given.place };

    fn from(given: Answer) -> ReadAnswer {
        ReadAnswer {
            number: given.number,
            place: given.place,
            length: 0,
            repairs: 0,
            unmet: 0,
            stuffing: 0,
        }
    }
}

impl From<Refusal> for ReadAnswer {
    ghost from_gives = { λ refusal a. a ≡ refused (refusal_number refusal) (refusal_place refusal) };

    fn from(refusal: Refusal) -> ReadAnswer {
        ReadAnswer::from(Answer::from(Err(refusal)))
    }
}
