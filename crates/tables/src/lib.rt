// Tables 1 and 2 of document 000 as constants, one accessor each: every function that names a table
// is checked against all its entries, so others call the accessor. A table lies on the stack while
// its accessor runs, so a loop keeps a row and does not ask for it again.
//
// `core_row` and `side_size` answer for every number; the others serve the crates above this one and
// ask for what those have tested.
#![tactic(auto)]

ghost use Rattle.std.specs.Prelude.{◌≤◌, ◌<◌, ◌≡◌, take};
ghost use Rattle.symbology.specs.Sides.{side_size, cores_of, inner_patterns};
ghost use Rattle.tables.specs.Rows.{core_row, published_counts, formula_counts};

use symbology::{Bits, Modules};

// A row of Table 2: the core coordinates of one side-version, `len` of them, then zeros. The first user asked for one
// constant table of short rows with their lengths, so a row keeps its length beside an array.
#[derive(Clone, Copy)]
pub struct CoreRow {
    pub len: u8,
    pub at: [u8; 9],
}

impl CoreRow {
    // The coordinates alone; a row has no more than nine.
    pub fn cores(&self) -> &[u8]
        ensures { result.now ≡ take self.now.len self.now.at }
    {
        &self.at[..usize::from(self.len).min(9)]
    }
}

const TABLE_2: [CoreRow; 32] = [
    CoreRow {
        len: 2,
        at: [4, 18, 0, 0, 0, 0, 0, 0, 0],
    },
    CoreRow {
        len: 2,
        at: [4, 22, 0, 0, 0, 0, 0, 0, 0],
    },
    CoreRow {
        len: 2,
        at: [4, 26, 0, 0, 0, 0, 0, 0, 0],
    },
    CoreRow {
        len: 2,
        at: [4, 30, 0, 0, 0, 0, 0, 0, 0],
    },
    CoreRow {
        len: 2,
        at: [4, 34, 0, 0, 0, 0, 0, 0, 0],
    },
    CoreRow {
        len: 3,
        at: [4, 17, 38, 0, 0, 0, 0, 0, 0],
    },
    CoreRow {
        len: 3,
        at: [4, 20, 42, 0, 0, 0, 0, 0, 0],
    },
    CoreRow {
        len: 3,
        at: [4, 23, 46, 0, 0, 0, 0, 0, 0],
    },
    CoreRow {
        len: 3,
        at: [4, 26, 50, 0, 0, 0, 0, 0, 0],
    },
    CoreRow {
        len: 4,
        at: [4, 14, 32, 54, 0, 0, 0, 0, 0],
    },
    CoreRow {
        len: 4,
        at: [4, 17, 39, 58, 0, 0, 0, 0, 0],
    },
    CoreRow {
        len: 4,
        at: [4, 20, 46, 62, 0, 0, 0, 0, 0],
    },
    CoreRow {
        len: 4,
        at: [4, 23, 44, 66, 0, 0, 0, 0, 0],
    },
    CoreRow {
        len: 5,
        at: [4, 26, 37, 51, 70, 0, 0, 0, 0],
    },
    CoreRow {
        len: 5,
        at: [4, 14, 36, 58, 74, 0, 0, 0, 0],
    },
    CoreRow {
        len: 5,
        at: [4, 17, 39, 56, 78, 0, 0, 0, 0],
    },
    CoreRow {
        len: 5,
        at: [4, 20, 42, 63, 82, 0, 0, 0, 0],
    },
    CoreRow {
        len: 6,
        at: [4, 23, 38, 54, 70, 86, 0, 0, 0],
    },
    CoreRow {
        len: 6,
        at: [4, 26, 38, 56, 77, 90, 0, 0, 0],
    },
    CoreRow {
        len: 6,
        at: [4, 14, 33, 53, 72, 94, 0, 0, 0],
    },
    CoreRow {
        len: 6,
        at: [4, 17, 38, 59, 79, 98, 0, 0, 0],
    },
    CoreRow {
        len: 7,
        at: [4, 20, 36, 53, 70, 86, 102, 0, 0],
    },
    CoreRow {
        len: 7,
        at: [4, 23, 36, 55, 74, 93, 106, 0, 0],
    },
    CoreRow {
        len: 7,
        at: [4, 26, 36, 58, 79, 100, 110, 0, 0],
    },
    CoreRow {
        len: 7,
        at: [4, 14, 36, 58, 80, 92, 114, 0, 0],
    },
    CoreRow {
        len: 8,
        at: [4, 17, 34, 52, 70, 88, 99, 118, 0],
    },
    CoreRow {
        len: 8,
        at: [4, 20, 37, 54, 72, 89, 106, 122, 0],
    },
    CoreRow {
        len: 8,
        at: [4, 23, 38, 56, 74, 92, 113, 126, 0],
    },
    CoreRow {
        len: 8,
        at: [4, 26, 36, 58, 78, 98, 120, 130, 0],
    },
    CoreRow {
        len: 9,
        at: [4, 14, 32, 49, 67, 84, 102, 112, 134],
    },
    CoreRow {
        len: 9,
        at: [4, 17, 35, 53, 71, 89, 107, 119, 138],
    },
    CoreRow {
        len: 9,
        at: [4, 20, 38, 55, 73, 91, 108, 126, 142],
    },
];

// The core coordinates of a side-version: those of 1 for 0, as in the definition, and none past 32.
pub fn core_row(version: usize) -> CoreRow
    ensures { result ≡ core_row (cores_of version) }
{
    let row = version.saturating_sub(1);
    if row < TABLE_2.len() {
        return TABLE_2[row];
    }
    CoreRow { len: 0, at: [0; 9] }
}

// The modules along a side of a side-version.
pub fn side_size(version: u32) -> usize
    ensures { result ≡ side_size version }
{
    17 + 4 * version as usize
}

// The inner patterns of a symbol, those besides the four corner ones: at most 77.
pub fn inner_patterns(horizontal: usize, vertical: usize) -> usize
    requires { (1 ≤ horizontal) × (horizontal ≤ 32) × (1 ≤ vertical) × (vertical ≤ 32) }
    ensures { (result ≡ inner_patterns horizontal vertical) × (result ≤ 77) }
{
    let across = core_row(horizontal);
    let down = core_row(vertical);
    across.cores().len() * down.cores().len() - 4
}

// Table 1 as published. Each row has the data modules of the square symbols of one side-version,
// primary with 4 and 8 colours, then secondary with 4 and 8, and their bits in the same order.
const TABLE_1: [[u32; 8]; 32] = [
    [338, 349, 405, 389, 676, 1047, 810, 1167],
    [522, 533, 589, 573, 1044, 1599, 1178, 1719],
    [738, 749, 805, 789, 1476, 2247, 1610, 2367],
    [986, 997, 1053, 1037, 1972, 2991, 2106, 3111],
    [1266, 1277, 1333, 1317, 2532, 3831, 2666, 3951],
    [1543, 1554, 1610, 1594, 3086, 4662, 3220, 4782],
    [1887, 1898, 1954, 1938, 3774, 5694, 3908, 5814],
    [2263, 2274, 2330, 2314, 4526, 6822, 4660, 6942],
    [2671, 2682, 2738, 2722, 5342, 8046, 5476, 8166],
    [3062, 3073, 3129, 3113, 6124, 9219, 6258, 9339],
    [3534, 3545, 3601, 3585, 7068, 10635, 7202, 10755],
    [4038, 4049, 4105, 4089, 8076, 12147, 8210, 12267],
    [4574, 4585, 4641, 4625, 9148, 13755, 9282, 13875],
    [5079, 5090, 5146, 5130, 10158, 15270, 10292, 15390],
    [5679, 5690, 5746, 5730, 11358, 17070, 11492, 17190],
    [6311, 6322, 6378, 6362, 12622, 18966, 12756, 19086],
    [6975, 6986, 7042, 7026, 13950, 20958, 14084, 21078],
    [7594, 7605, 7661, 7645, 15188, 22815, 15322, 22935],
    [8322, 8333, 8389, 8373, 16644, 24999, 16778, 25119],
    [9082, 9093, 9149, 9133, 18164, 27279, 18298, 27399],
    [9874, 9885, 9941, 9925, 19748, 29655, 19882, 29775],
    [10607, 10618, 10674, 10658, 21214, 31854, 21348, 31974],
    [11463, 11474, 11530, 11514, 22926, 34422, 23060, 34542],
    [12351, 12362, 12418, 12402, 24702, 37086, 24836, 37206],
    [13271, 13282, 13338, 13322, 26542, 39846, 26676, 39966],
    [14118, 14129, 14185, 14169, 28236, 42387, 28370, 42507],
    [15102, 15113, 15169, 15153, 30204, 45339, 30338, 45459],
    [16118, 16129, 16185, 16169, 32236, 48387, 32370, 48507],
    [17166, 17177, 17233, 17217, 34332, 51531, 34466, 51651],
    [18127, 18138, 18194, 18178, 36254, 54414, 36388, 54534],
    [19239, 19250, 19306, 19290, 38478, 57750, 38612, 57870],
    [20383, 20394, 20450, 20434, 40766, 61182, 40900, 61302],
];

// Data modules and capacity of one symbol.
#[derive(Clone, Copy)]
pub struct SquareCounts {
    pub modules: Modules,
    pub bits: Bits,
}

// The published counts of the square symbol of a side-version, by column of Table 1. They are those
// that the formulas give.
pub fn square_counts(version: usize, column: usize) -> SquareCounts
    requires { (1 ≤ version) × (version ≤ 32) × (column < 4) }
    ensures { (result ≡ published_counts version column) × (result ≡ formula_counts version column) }
{
    let row = TABLE_1[version - 1];
    SquareCounts {
        modules: Modules(row[column]),
        bits: Bits(row[column + 4]),
    }
}
