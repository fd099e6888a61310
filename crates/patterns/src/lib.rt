// The finder and alignment patterns: which colour they give a module. `Patterns::colour_at` is the way
// in; the others follow its definition, one function for each. For a module at most 18 core coordinates
// are looked at, nine a side.
#![tactic(auto)]

ghost use Rattle.std.specs.Prelude.{◌+◌, ◌%◌, ◌≤◌, ◌<◌, ◌≡◌, cond, not, ◌&&◌, ◌||◌, leb, eqb, length};
ghost use Rattle.symbology.specs.Sides.{cores_of};
ghost use Rattle.symbology.specs.Patterns.{near_core, finder, corner_alignment, inner_alignment, pattern_of, in_squares, colour_in, pattern_colour};
ghost use Rattle.tables.specs.Rows.{core_row};

use symbology::{Near, Params, Pattern, PatternColour};
use tables::CoreRow;

// The patterns of a symbol, by its parameters: they are kept with the rows of Table 2 for its two sides,
// which a caller that asks for many modules then reads once.
#[derive(Clone, Copy)]
pub struct Patterns {
    pub params: Params,
    across: CoreRow,
    down: CoreRow,
    ghost across_kept: { across ≡ core_row (cores_of params.horizontal) },
    ghost down_kept: { down ≡ core_row (cores_of params.vertical) },
}

impl Patterns {
    pub fn of(params: Params) -> Patterns
        ensures { result.params ≡ params }
    {
        Patterns {
            params,
            across: tables::core_row(params.horizontal as usize),
            down: tables::core_row(params.vertical as usize),
        }
    }

    // The pattern at core number i across and j down.
    #[tactic(auto, using(crate::proofs::Nearness::kept_length), unfolding(symbology::specs::Patterns::pattern_of))]
    fn pattern_at(&self, i: usize, j: usize) -> Pattern
        requires { (i < 256) × (j < 256) }
        ensures { result ≡ pattern_of self.now.params.kind self.now.params.turn (length (cores_of self.now.params.horizontal)) (length (cores_of self.now.params.vertical)) i j }
    {
        if is_outer(i, self.across.len) && is_outer(j, self.down.len) {
            if self.params.kind == 0 {
                return finder_at(i == 0, j == 0);
            }
            return corner_alignment(j == 0);
        }
        inner_alignment(self.params.turn, i, j)
    }

    // The colour that a pattern gives the module at column x, row y, counted from 1.
    pub fn colour_at(&self, x: usize, y: usize) -> Option<PatternColour>
        requires { (x < 65536) × (y < 65536) }
        ensures { result ≡ pattern_colour self.now.params x y }
    {
        let across = near_core(self.across.cores(), x)?;
        let down = near_core(self.down.cores(), y)?;
        let pattern = self.pattern_at(across.core, down.core);
        colour_in(pattern, across.offset, down.offset)
    }
}

// ---- cores

// A coordinate at most two modules from a core.
fn is_near(core: usize, x: usize) -> bool
    requires { (core < 256) × (x < 65536) }
    ensures { result ≡ (leb core (x + 2) && leb x (core + 2)) }
{
    core <= x + 2 && x <= core + 2
}

// The core of its side that a coordinate is near: its number and the offset x + 2 - core, which is 2 on
// the core.
fn near_core(cores: &[u8], x: usize) -> Option<Near>
    requires { x < 65536 }
    ensures { result ≡ near_core 0 cores.now x }
{
    for (i, at) in cores.iter().enumerate() {
        let core = usize::from(*at);
        if is_near(core, x) {
            return Some(Near {
                core: i,
                offset: x + 2 - core,
            });
        }
    }
    None
}

// The first or the last of the n cores of a side.
fn is_outer(i: usize, n: u8) -> bool
    requires { i < 256 }
    ensures { result ≡ (eqb i 0 || eqb (i + 1) n) }
{
    i == 0 || i + 1 == usize::from(n)
}

// ---- the patterns

// The finder pattern of a corner, by its place.
#[tactic(auto, unfolding(symbology::specs::Patterns::finder))]
fn finder_at(left: bool, upper: bool) -> Pattern
    ensures { result ≡ finder left upper }
{
    let (falling, core, ring) = match (left, upper) {
        (true, true) => (true, PatternColour::Black, PatternColour::Cyan),
        (false, true) => (true, PatternColour::Black, PatternColour::Yellow),
        (false, false) => (false, PatternColour::Yellow, PatternColour::Black),
        (true, false) => (false, PatternColour::Cyan, PatternColour::Black),
    };
    Pattern {
        reach: 2,
        falling,
        core,
        ring,
    }
}

// U in the upper corners of a secondary symbol, L in the lower ones.
#[tactic(auto, unfolding(symbology::specs::Patterns::corner_alignment))]
fn corner_alignment(upper: bool) -> Pattern
    ensures { result ≡ corner_alignment upper }
{
    Pattern {
        reach: 1,
        falling: upper,
        core: PatternColour::Cyan,
        ring: PatternColour::Yellow,
    }
}

// The inner pattern at core numbers i and j lies as UL: X1 at turn 0, X0 at turn 1.
fn lies_as_ul(turn: u32, i: usize, j: usize) -> bool
    requires { (i < 256) × (j < 256) }
    ensures { result ≡ cond (eqb ((i + j) % 2) 1) (eqb turn 0) (not (eqb turn 0)) }
{
    if (i + j) % 2 == 1 {
        turn == 0
    } else {
        turn != 0
    }
}

#[tactic(auto, unfolding(symbology::specs::Patterns::inner_alignment))]
fn inner_alignment(turn: u32, i: usize, j: usize) -> Pattern
    requires { (i < 256) × (j < 256) }
    ensures { result ≡ inner_alignment turn i j }
{
    Pattern {
        reach: 1,
        falling: lies_as_ul(turn, i, j),
        core: PatternColour::Yellow,
        ring: PatternColour::Cyan,
    }
}

// ---- the modules of a pattern

// On the sides of the core where the two squares lie: upper left and lower right of it where they fall.
#[tactic(auto, unfolding(symbology::specs::Patterns::in_squares))]
fn in_squares(falling: bool, o: usize, u: usize) -> bool
    ensures { result ≡ in_squares falling o u }
{
    if falling {
        o <= 2 && u <= 2 || 2 <= o && 2 <= u
    } else {
        o <= 2 && 2 <= u || 2 <= o && u <= 2
    }
}

// The colour of a pattern at an offset across and one down: by the larger distance from the core.
#[tactic(auto, unfolding(symbology::specs::Patterns::colour_in))]
fn colour_in(s: Pattern, o: usize, u: usize) -> Option<PatternColour>
    ensures { result ≡ colour_in s o u }
{
    let d = o.abs_diff(2).max(u.abs_diff(2));
    if s.reach < d || !in_squares(s.falling, o, u) {
        return None;
    }
    if d == 1 {
        return Some(s.ring);
    }
    Some(s.core)
}
