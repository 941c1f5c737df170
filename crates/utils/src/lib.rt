// Energies of sequences, as utils.rs works them out: of one strand on its perfect partner, and of two strands side by side.
#![tactic(auto)]

mod bases;
mod dna;
mod tables;

ghost use Rattle.std.specs.Prelude.{◌≡◌, ◌<◌, ◌≤◌, length};
ghost use Rattle.std.specs.Float.Ieee as Ieee;
ghost use Rattle.std.specs.Float.{binary64};
ghost use Rattle.utils.specs.Bases.{bases};
ghost use Rattle.utils.specs.Figures.{stack_dg, stack_ds, end_dg, end_ds, symmetric_dg, symmetric_ds, admitted_length, loop_energy};
ghost use Rattle.utils.specs.Answers.{dg_figures, dg_ds_figures};
ghost use Rattle.utils.specs.Loops.{loop_penalty};
ghost use Rattle.doubles.specs.Sum.{sum_from};
ghost use Rattle.utils.specs.Single.{stack_sum, string_dna_dg_ds};
ghost use Rattle.utils.specs.Terms.{self_complementary, end_term, symmetry_term, published_dg, published_ds, published_dna_dg_ds};
ghost use Rattle.utils.specs.Pair.{after_bad, sequence_pair_dg_ds};
ghost use Rattle.utils.specs.inner.Tables.{by_three, hundredths};
ghost use Rattle.utils.specs.inner.Code.{window_of, sums_of, AdmittedAs, BothAdmittedAs, AfterGood, PairSummed};
ghost use Rattle.utils.specs.declared.tables.LoopKind.TheVariants.{Internal};
ghost use Rattle.utils.specs.Strength.{strength_at, excess_in_range, sequence_strength, pair_strength};

use bases::{DnaNucleotideBase, Window, base, base_index, good_match};
use dna::{Dna, Strands};
use reply::limits::EXCESS;
use reply::{Refusal, refused_if};
use std::ops::Add;
use tables::{
    LoopKind, PENALTY_TABLE, STACKS, Stacks, calculate_single_mismatch_penalty, loop_admitted,
    loop_energy,
};
use units::{KcalPerMol, KcalPerMolKelvin, Kelvin};

// The energy and the entropy of a duplex, or of a part of one.
#[derive(Clone, Copy, PartialEq, Default, Debug)]
pub struct DgDs {
    pub dg: KcalPerMol,
    pub ds: KcalPerMolKelvin,
}

impl DgDs {
    // Out of its two numbers, in kcal/mol and in kcal/mol/K.
    pub fn new(dg: f64, ds: f64) -> DgDs
        ensures dg { result.dg.0 ≡ dg }
        ensures ds { result.ds.0 ≡ ds }
    {
        DgDs {
            dg: KcalPerMol(dg),
            ds: KcalPerMolKelvin(ds),
        }
    }
}

// Both sums.
impl Add for DgDs {
    type Output = DgDs;

    ghost add_gives = { λ x y z. (z.dg.0 ≡ Ieee.add binary64 x.dg.0 y.dg.0) × (z.ds.0 ≡ Ieee.add binary64 x.ds.0 y.ds.0) };

    fn add(self, rhs: DgDs) -> DgDs {
        DgDs {
            dg: self.dg + rhs.dg,
            ds: self.ds + rhs.ds,
        }
    }
}

// What initiation adds to the energy.
const INITIATION_DG: KcalPerMol = KcalPerMol(1.96);

// What initiation adds to a duplex: in the entropy the Rust's sign, where the paper has the opposite.
const INITIATION: DgDs = DgDs {
    dg: INITIATION_DG,
    ds: KcalPerMolKelvin(0.0057),
};

// What initiation adds by the paper: it differs in the entropy alone.
const PUBLISHED_INITIATION: DgDs = DgDs {
    dg: INITIATION_DG,
    ds: KcalPerMolKelvin(-0.0057),
};

// What an end whose pair is A.T adds by the paper.
const TERMINAL: DgDs = DgDs {
    dg: KcalPerMol(0.05),
    ds: KcalPerMolKelvin(0.0069),
};

// What a sequence that is its own reverse complement adds by the paper.
const SYMMETRY: DgDs = DgDs {
    dg: KcalPerMol(0.43),
    ds: KcalPerMolKelvin(-0.0014),
};

// The longest sequence.
pub const LONGEST: usize = 256;

// dG and dS so far, and the bad windows in a row up to here.
#[derive(Clone, Copy)]
struct Sums {
    so_far: DgDs,
    bad: usize,
}

// The energy of a loop of 3 to 254. Kinds are 0 (internal), 1 (bulge) and 2 (hairpin): a number, as C lends it, and an enum once it is one of these.
pub fn loop_penalty(length: usize, kind: u32) -> Result<KcalPerMol, Refusal>
    ensures { dg_figures result ≡ loop_penalty length kind }
{
    let kind = LoopKind::try_from(kind)?;
    refused_if(Refusal::NoSuchLoop, !loop_admitted(length))?;
    Ok(loop_energy(kind, length))
}

// A single sequence, if it is admitted.
fn admitted(letters: &[u8]) -> Result<Dna, Refusal>
    ensures { AdmittedAs letters.now result }
{
    refused_if(Refusal::WrongSize, LONGEST < letters.len())?;
    let dna = Dna::of(letters)?;
    refused_if(Refusal::TooShort, letters.len() < 2)?;
    Ok(dna)
}

// dG and dS of a sequence on its perfect partner, the initiation included.
pub fn string_dna_dg_ds(dna: &[u8]) -> Result<DgDs, Refusal>
    ensures { dg_ds_figures result ≡ string_dna_dg_ds dna.now }
{
    let dna = admitted(dna)?;
    Ok(dna.single_sequence_dg_ds() + INITIATION)
}

// The sums after an end: its terms, if its pair is A.T. A and T have the lowest two numbers.
fn after_end(sums: DgDs, end: DnaNucleotideBase) -> DgDs
    ensures { (result.dg.0 ≡ sum_from sums.dg.0 (end_term end_dg end)) × (result.ds.0 ≡ sum_from sums.ds.0 (end_term end_ds end)) }
{
    if end.index() < 2 {
        return sums + TERMINAL;
    }
    sums
}

impl Dna<'_> {
    // The stacks of a sequence with its perfect partner, without the initiation.
    fn single_sequence_dg_ds(&self) -> DgDs
        ensures { (result.dg.0 ≡ stack_sum stack_dg (bases self.now.letters.now)) × (result.ds.0 ≡ stack_sum stack_ds (bases self.now.letters.now)) }
    {
        let stacks = STACKS;
        let mut sums = DgDs::default();
        for pair in self.letters.windows(2) {
            let first = base_index(pair[0]);
            let second = base_index(pair[1]);
            sums = sums + stacks.at(first, second);
        }
        sums
    }

    // Whether a sequence is its own reverse complement: each base pairs with the one as far from the other end.
    fn self_complementary(&self) -> bool
        ensures { result ≡ self_complementary (bases self.now.letters.now) }
    {
        self.letters
            .iter()
            .rev()
            .zip(self.letters)
            .all(|(last, first)| good_match(base(*last), base(*first)))
    }

    // The sums after the symmetry: its terms, if the sequence has it.
    fn after_symmetry(&self, sums: DgDs) -> DgDs
        ensures { (result.dg.0 ≡ sum_from sums.dg.0 (symmetry_term symmetric_dg (bases self.now.letters.now))) × (result.ds.0 ≡ sum_from sums.ds.0 (symmetry_term symmetric_ds (bases self.now.letters.now))) }
    {
        if self.self_complementary() {
            return sums + SYMMETRY;
        }
        sums
    }

    // The sums of a sequence by the paper: its stacks, then initiation, first end, last end and symmetry.
    fn published_sums(&self) -> DgDs
        requires { 2 ≤ length self.now.letters.now }
        ensures { (result.dg.0 ≡ published_dg (bases self.now.letters.now)) × (result.ds.0 ≡ published_ds (bases self.now.letters.now)) }
    {
        let stacks = self.single_sequence_dg_ds();
        let begun = stacks + PUBLISHED_INITIATION;
        let first = after_end(begun, self.base(0));
        let last = after_end(first, self.base(self.letters.len() - 1));
        self.after_symmetry(last)
    }
}

// dG and dS of a sequence on its perfect partner as the paper has them, with what it prints for initiation, ends and symmetry.
pub fn published_dna_dg_ds(dna: &[u8]) -> Result<DgDs, Refusal>
    ensures { dg_ds_figures result ≡ published_dna_dg_ds dna.now }
{
    let dna = admitted(dna)?;
    Ok(dna.published_sums())
}

impl Sums {
    // The sums after a good window: the stack's energy, then that of the internal loop that it ends, if it ends one.
    fn after_good(self, stacks: &Stacks, window: Window) -> Result<Sums, Refusal>
        ensures { AfterGood self (window_of window) result }
    {
        let mut so_far = self.so_far + stacks.at(window.a1.index(), window.a2.index());
        if 2 < self.bad {
            let length = self.bad - 1;
            refused_if(Refusal::NoSuchLoop, !loop_admitted(length))?;
            so_far.dg = so_far.dg + loop_energy(LoopKind::Internal, length);
        }
        Ok(Sums { so_far, bad: 0 })
    }

    // The sums after a bad window: the mismatch's energy, and no entropy.
    fn after_bad(self, penalties: &[[[i16; 4]; 4]; 4], window: Window) -> Sums
        requires { (self.bad < 4096) × (penalties.now ≡ by_three hundredths) }
        ensures { sums_of result ≡ after_bad (loop_energy Internal) admitted_length (sums_of self) (window_of window) }
    {
        Sums {
            so_far: DgDs {
                dg: self.so_far.dg + calculate_single_mismatch_penalty(penalties, window),
                ds: self.so_far.ds,
            },
            bad: self.bad + 1,
        }
    }
}

impl Strands<'_> {
    // The sums over the windows of both strands.
    fn sums(&self) -> Result<DgDs, Refusal>
        ensures { PairSummed self.now.upper.letters.now self.now.lower.letters.now result }
    {
        let stacks = STACKS;
        let penalties = PENALTY_TABLE;
        let mut sums = Sums {
            so_far: DgDs::default(),
            bad: 0,
        };
        for (upper, lower) in self
            .upper
            .letters
            .windows(2)
            .zip(self.lower.letters.windows(2))
        {
            let window = Window::at(Dna { letters: upper }, Dna { letters: lower });
            sums = if window.good() {
                sums.after_good(&stacks, window)?
            } else {
                sums.after_bad(&penalties, window)
            };
        }
        Ok(sums.so_far)
    }
}

// Two strands, if they are admitted, their loops aside.
fn both_admitted<'a>(a: &'a [u8], b: &'a [u8]) -> Result<Strands<'a>, Refusal>
    ensures { BothAdmittedAs a.now b.now result }
{
    refused_if(Refusal::WrongSize, LONGEST < a.len() || LONGEST < b.len())?;
    let upper = Dna::of(a)?;
    let lower = Dna::of(b)?;
    refused_if(Refusal::UnequalLengths, a.len() != b.len())?;
    Ok(Strands { upper, lower })
}

// dG and dS of two strands side by side, both read by index; no initiation is added.
pub fn sequence_pair_dg_ds(a: &[u8], b: &[u8]) -> Result<DgDs, Refusal>
    ensures { dg_ds_figures result ≡ sequence_pair_dg_ds a.now b.now }
{
    let strands = both_admitted(a, b)?;
    strands.sums()
}

// The strength at an excess over 37 °C, the initiation included.
fn strength(excess: Kelvin, sums: DgDs) -> KcalPerMol
    ensures { result.0 ≡ strength_at excess.0 sums.dg.0 sums.ds.0 }
{
    let begun = sums + INITIATION;
    begun.dg - excess * begun.ds
}

// Whether an excess is finite and in its range.
fn excess_in_range(excess: Kelvin) -> bool
    ensures { result ≡ excess_in_range excess.0 }
{
    doubles::in_range(-EXCESS, EXCESS, excess.0)
}

// The strength of a sequence on its perfect partner.
#[tactic(auto, unfolding(crate::specs::Strength::sequence_strength))]
pub fn sequence_strength(dna: &[u8], excess: Kelvin) -> Result<KcalPerMol, Refusal>
    ensures { dg_figures result ≡ sequence_strength dna.now excess.0 }
{
    let sequence = admitted(dna)?;
    refused_if(Refusal::OutOfRange, !excess_in_range(excess))?;
    Ok(strength(excess, sequence.single_sequence_dg_ds()))
}

// The strength of two strands side by side.
pub fn pair_strength(a: &[u8], b: &[u8], excess: Kelvin) -> Result<KcalPerMol, Refusal>
    ensures { dg_figures result ≡ pair_strength a.now b.now excess.0 }
{
    let sums = sequence_pair_dg_ds(a, b)?;
    refused_if(Refusal::OutOfRange, !excess_in_range(excess))?;
    Ok(strength(excess, sums))
}
