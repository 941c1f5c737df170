// The constant tables, and the energies that are read off them.
ghost use Rattle.std.specs.Prelude.{◌≡◌, ◌^◌, ◌<◌, ◌≤◌, get_or};
ghost use Rattle.utils.specs.Paper.{no_loop, loop_figure};
ghost use Rattle.utils.specs.Figures.{stack_dg, stack_ds, penalty, mismatch_dg, loop_rows, entry_up_to, loop_entry, admitted_length, between_units, loop_energy};
ghost use Rattle.utils.specs.inner.Tables.{by_two, by_three, StackAt, hundredths, kind_index};
ghost use Rattle.utils.specs.inner.Code.{KindAt};

use crate::DgDs;
use crate::bases::{DnaNucleotideBase, Window, good_match};
use logarithm::{ln_whole, mul_units};
use reply::Refusal;
use units::KcalPerMol;

// Stacks of two pairs, 5' to 3': a row for the first base, in the order A, T, G, C.
#[derive(Clone, Copy)]
pub(crate) struct Stacks {
    energies: [[f64; 4]; 4],
    entropies: [[f64; 4]; 4],
    ghost figures: { (energies ≡ by_two stack_dg) × (entropies ≡ by_two stack_ds) },
}

// A loop takes a copy first: the const would be written out again at each window.
pub(crate) const STACKS: Stacks = Stacks {
    energies: [
        [-1.0, -0.88, -1.28, -1.44],
        [-0.58, -1.0, -1.45, -1.30],
        [-1.30, -1.44, -1.84, -2.24],
        [-1.45, -1.28, -2.17, -1.84],
    ],
    entropies: [
        [-0.0213, -0.0204, -0.0210, -0.0224],
        [-0.0213, -0.0213, -0.0227, -0.0222],
        [-0.0222, -0.0224, -0.0199, -0.0244],
        [-0.0227, -0.0210, -0.0272, -0.0199],
    ],
};

impl Stacks {
    // The stack of two neighbours, 5' to 3', by their numbers.
    pub(crate) fn at(&self, i: usize, j: usize) -> DgDs
        requires { (i < 4) × (j < 4) }
        ensures { StackAt i j result.dg.0 result.ds.0 }
    {
        DgDs::new(self.energies[i][j], self.entropies[i][j])
    }
}

// Mismatches 5'-PX-3' over 3'-P*Y-5', at [P][X][Y], in hundredths of kcal/mol; 0 where X and Y pair.
// Lent as it is, and not in a struct as the stacks: of three levels of arrays in a struct the proof does not close.
pub(crate) const PENALTY_TABLE: [[[i16; 4]; 4]; 4] = [
    [
        [61, 0, 14, 88],
        [0, 69, 7, 73],
        [2, 71, -13, 0],
        [77, 64, 0, 133],
    ],
    [
        [69, 0, 42, 92],
        [0, 68, 34, 75],
        [74, 43, 44, 0],
        [133, 97, 0, 105],
    ],
    [
        [17, 0, -25, 81],
        [0, 45, -59, 98],
        [-52, 8, -111, 0],
        [47, 62, 0, 79],
    ],
    [
        [43, 0, 3, 75],
        [0, -12, -32, 40],
        [11, -47, -11, 0],
        [79, 62, 0, 70],
    ],
];

// Loops in tenths of kcal/mol: a row for each kind, a column for each of LENGTHS.
const LOOP_TABLE: [[i16; 15]; 3] = [
    [32, 36, 40, 44, 46, 48, 49, 49, 52, 54, 56, 58, 59, 63, 66],
    [31, 32, 33, 35, 37, 39, 41, 43, 45, 48, 50, 52, 53, 56, 59],
    [35, 35, 33, 40, 42, 43, 45, 46, 50, 51, 53, 55, 57, 61, 63],
];

// The lengths that LOOP_TABLE has.
const LENGTHS: [usize; 15] = [3, 4, 5, 6, 7, 8, 9, 10, 12, 14, 16, 18, 20, 25, 30];

// The shortest loop, and the longest.
const SHORTEST_LOOP: usize = 3;

const LONGEST_LOOP: usize = 254;

// R × 310.15 × 2.44 with R in kcal/mol/K, in units of 2^-53.
const GAIN: u64 = 13545464151244108;

// The kinds of loop, in the order of LOOP_TABLE's rows.
#[derive(Clone, Copy, PartialEq, Eq)]
pub(crate) enum LoopKind {
    Internal,
    Bulge,
    HairPin,
}

impl LoopKind {
    // The row of the kind in LOOP_TABLE.
    pub(crate) fn index(self) -> usize
        ensures { (result ≡ kind_index self) × (result < 3) }
    {
        self as usize
    }
}

// A kind by its number.
impl TryFrom<u32> for LoopKind {
    type Error = Refusal;

    ghost try_from_gives = { λ number kind. KindAt number kind };

    #[tactic(auto, unfolding(crate::specs::Loops::kind_of))]
    fn try_from(number: u32) -> Result<LoopKind, Refusal> {
        match number {
            0 => Ok(LoopKind::Internal),
            1 => Ok(LoopKind::Bulge),
            2 => Ok(LoopKind::HairPin),
            _ => Err(Refusal::NoSuchLoop),
        }
    }
}

// Whether a loop of this length has an energy.
pub(crate) fn loop_admitted(length: usize) -> bool
    ensures { result ≡ admitted_length length }
{
    SHORTEST_LOOP <= length && length <= LONGEST_LOOP
}

// The energy of a mismatch: x over y, next to the pair of `prior`. One division gives the double nearest to the decimal.
pub(crate) fn calc_penalty(
    penalties: &[[[i16; 4]; 4]; 4],
    prior: DnaNucleotideBase,
    x: DnaNucleotideBase,
    y: DnaNucleotideBase,
) -> KcalPerMol
    requires { penalties.now ≡ by_three hundredths }
    ensures { result.0 ≡ penalty prior x y }
{
    let p = prior.index();
    let i = x.index();
    let j = y.index();
    KcalPerMol(penalties[p][i][j] as f64 / 100.0)
}

// The energy of a bad window: of the mismatch, read from whichever strand has the pair first.
pub(crate) fn calculate_single_mismatch_penalty(
    penalties: &[[[i16; 4]; 4]; 4],
    window: Window,
) -> KcalPerMol
    requires { penalties.now ≡ by_three hundredths }
    ensures { result.0 ≡ mismatch_dg window.a1 window.a2 window.b1 window.b2 }
{
    if good_match(window.a1, window.b1) {
        return calc_penalty(penalties, window.a1, window.a2, window.b2);
    }
    if good_match(window.a2, window.b2) {
        return calc_penalty(penalties, window.b2, window.b1, window.a1);
    }
    KcalPerMol(0.0)
}

// The place among LENGTHS of the longest that is no longer than this one: as many of those after the first as are no longer.
fn entry_up_to(length: usize) -> usize
    requires { 3 ≤ length }
    ensures { (result < 15) × (get_or loop_rows result no_loop ≡ entry_up_to length) }
{
    LENGTHS[1..]
        .iter()
        .take_while(|entry| **entry <= length)
        .count()
}

// The energy of an entry, by its kind and the place of its length. One division gives the double nearest to the decimal.
fn loop_entry(kind: LoopKind, at: usize) -> KcalPerMol
    requires { at < 15 }
    ensures { result.0 ≡ loop_entry kind at }
{
    let row = kind.index();
    KcalPerMol(LOOP_TABLE[row][at] as f64 / 10.0)
}

// An entry in tenths of kcal/mol, none of which is below zero.
fn loop_tenths(kind: LoopKind, at: usize) -> u64
    requires { at < 15 }
    ensures { (result ≡ (loop_figure kind (get_or loop_rows at no_loop)).digits) × (result ≤ 100) }
{
    let row = kind.index();
    LOOP_TABLE[row][at] as u64
}

// The energy of a loop between two of LENGTHS, in units of 2^-46: the entry's, and GAIN times the logarithm of the ratio.
fn loop_units(tenths: u64, base: u64, length: u64) -> u64
    requires { (tenths ≤ 100) × (10 ≤ base) × (base ≤ length) × (length ≤ 254) }
    ensures { (result ≡ between_units tenths base length) × (result < 2 ^ 53) }
{
    tenths * 70368744177664 / 10 + 2 * mul_units(GAIN, ln_whole(length, base))
}

// The energy of a loop of 3 to 254: at an entry of LENGTHS the entry's, and elsewhere that of the longest below with what the ratio adds.
pub(crate) fn loop_energy(kind: LoopKind, length: usize) -> KcalPerMol
    requires { (3 ≤ length) × (length ≤ 254) }
    ensures { result.0 ≡ loop_energy kind length }
{
    let at = entry_up_to(length);
    let base = LENGTHS[at];
    if base == length {
        return loop_entry(kind, at);
    }
    let tenths = loop_tenths(kind, at);
    KcalPerMol(loop_units(tenths, base as u64, length as u64) as f64 / 70368744177664.0)
}
