// The state sum over cells of bonds, place by place. What follows an occupant's scaffold bond waits until the occupant to its right is known, so that a
// sum up to a scaffold bond serves for every state that begins so.
ghost use Rattle.std.specs.Prelude.{◌≡◌, ℕ, ◌+◌, ◌*◌, ◌<◌, ◌≤◌, length, get_or};
ghost use Rattle.std.specs.Float.{nan};
ghost use Rattle.doubles.specs.Decimal.{zero};
ghost use Rattle.model.specs.Model.{Model, State};
ghost use Rattle.model.specs.Energy.{state_energy};
ghost use Rattle.prepared.specs.Layout.{StateBonds};
ghost use Rattle.prepared.specs.inner.Sums.{cell_of, joined_in, begun_in, ended_in};

use ensemble::bonds::Bonds;
use units::KcalPerMol;

// An occupant, and the state sum up to its scaffold bond. To the left of position 0 there is nobody, and the sum is 0.0.
#[derive(Clone, Copy)]
pub struct Begun {
    pub strand: u8,
    pub sum: f64,
}

impl Begun {
    // Nobody yet.
    pub fn nobody() -> Self
        ensures { result ≡ record { strand = 0; sum = zero } }
    {
        Begun {
            strand: 0,
            sum: 0.0,
        }
    }
}

// The sum with what follows the left occupant's scaffold bond, its right neighbour known.
fn joined(left: Begun, right: u8, bonds: &Bonds) -> f64
    requires left_known { left.strand < bonds.now.strand_bonds.strands }
    requires right_known { right < bonds.now.strand_bonds.strands }
    ensures { result ≡ joined_in (cell_of bonds.now.strand_bonds.strands bonds.now.strand_bonds.cells.now) (λ x. get_or bonds.now.potentials.now x nan) left.strand right left.sum }
{
    if left.strand == 0 {
        return left.sum;
    }
    let bond = bonds.strand_bonds.between(left.strand, usize::from(right));
    left.sum + bond - bonds.potentials[usize::from(left.strand)]
}

// The sum up to an occupant's scaffold bond, after the occupant to its left.
pub fn begin(left: Begun, strand: u8, position: usize, bonds: &Bonds) -> Begun
    requires left_known { left.strand < bonds.now.strand_bonds.strands }
    requires strand_known { strand < bonds.now.strand_bonds.strands }
    requires position_bound { position < 128 }
    requires a_row { position * bonds.now.strand_bonds.strands + bonds.now.strand_bonds.strands ≤ length bonds.now.scaffold_bonds.now }
    ensures strand_value { result.strand ≡ strand }
    ensures sum_value { result.sum ≡ begun_in (cell_of bonds.now.strand_bonds.strands bonds.now.scaffold_bonds.now position) strand (joined_in (cell_of bonds.now.strand_bonds.strands bonds.now.strand_bonds.cells.now) (λ x. get_or bonds.now.potentials.now x nan) left.strand strand left.sum) }
{
    let sum = joined(left, strand, bonds);
    if strand == 0 {
        return Begun { strand, sum };
    }
    // One cell, so by its number.
    let cell = position * bonds.strand_bonds.strands + usize::from(strand);
    Begun {
        strand,
        sum: sum + bonds.scaffold_bonds[cell],
    }
}

// The sum of a state whose last occupant is begun.
pub fn ended(last: Begun, potentials: &[f64]) -> f64
    requires { last.strand < length potentials.now }
    ensures { result ≡ ended_in (λ x. get_or potentials.now x nan) last.strand last.sum }
{
    if last.strand == 0 {
        return last.sum;
    }
    last.sum - potentials[usize::from(last.strand)]
}

// The state energy of a state.
pub fn state_energy(state: &[u8], bonds: &Bonds, rt: KcalPerMol) -> KcalPerMol
    requires by_index { (i : ℕ) → i < length state.now → get_or state.now i 0 < bonds.now.strand_bonds.strands }
    requires strands_nonzero { 0 < bonds.now.strand_bonds.strands }
    requires state_len_bound { length state.now ≤ 128 }
    requires a_row_each { length state.now * bonds.now.strand_bonds.strands ≤ length bonds.now.scaffold_bonds.now }
    ensures { (m : Model) → StateBonds m bonds.now → State m state.now → rt.0 ≡ m.rt → result.0 ≡ state_energy m state.now }
{
    let mut begun = Begun::nobody();
    for (position, strand) in state.iter().enumerate() {
        begun = begin(begun, *strand, position, bonds);
    }
    ended(begun, bonds.potentials) * rt
}
