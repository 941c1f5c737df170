// The weights of a design's own energies, in tables as wide as there are strands, row first: of each position and strand, and of each two strands.
ghost use Rattle.std.specs.Prelude.{◌≡◌, ℕ, ◌*◌, ◌<◌, ◌≤◌, length};
ghost use Rattle.model.specs.Model.{Friend};
ghost use Rattle.design.specs.Design.{positions, strands, is_friend, model_of};
ghost use Rattle.partition.specs.Weights.{weight_at};
ghost use Rattle.probabilities.specs.Numbers as Numbers;
ghost use Rattle.probabilities.specs.Weighed.{NearExp};
ghost use Rattle.probabilities.specs.inner.Filled.{PlacesFilled, PairsFilled};

use design::Design;
use design::passed::AdmittedDesign;
use design::reads::number_at;
use exponential::exp_weight;
use fractions::Weight;

// Minus the rounded difference of scaffold bond and potential, of a friend: of no other strand is the potential known.
fn place_argument(admitted: &AdmittedDesign, position: usize, strand: u8) -> f64
    requires { Friend (model_of admitted.now) position strand }
    ensures { result ≡ Numbers.place_argument (model_of admitted.now) position strand }
{
    let design = admitted.design;
    let bond = design.scaffold_bond(design.scaffold_glue(position), strand);
    let potential = number_at(admitted.potentials(), usize::from(strand));
    -(bond - potential)
}

// Minus the strand bond.
fn pair_argument(admitted: &AdmittedDesign, left: u8, right: u8) -> f64
    ensures { result ≡ Numbers.pair_argument (model_of admitted.now) left right }
{
    -admitted.design.strand_bond(left, right)
}

// Whether a strand is a friend at a position.
fn is_friend_at(design: &Design, position: usize, strand: u8) -> bool
    ensures { result ≡ is_friend design.now position strand }
{
    !design.is_blocked(position) && design.is_friend(design.scaffold_glue(position), strand)
}

// The weight of a friend at its position. Of any other strand it is not worked out, since its potential may be no number, and is 0.
fn place_weight(admitted: &AdmittedDesign, position: usize, strand: u8) -> Weight
    requires position_in_bounds { position < positions admitted.now }
    requires strand_in_bounds { strand < strands admitted.now }
    ensures { Friend (model_of admitted.now) position strand → NearExp (Numbers.place_argument (model_of admitted.now) position strand) result }
{
    admitted.design.hold_doubles();
    if is_friend_at(admitted.design, position, strand) {
        exp_weight(place_argument(admitted, position, strand))
    } else {
        Weight::default()
    }
}

// The weight of two strands, left and right.
fn pair_weight(admitted: &AdmittedDesign, left: u8, right: u8) -> Weight
    requires left_in_bounds { left < strands admitted.now }
    requires right_in_bounds { right < strands admitted.now }
    ensures { NearExp (Numbers.pair_argument (model_of admitted.now) left right) result }
{
    admitted.design.hold_doubles();
    exp_weight(pair_argument(admitted, left, right))
}

// Writes the weight of each cell, digits and exponents apart.
pub(crate) fn fill<F: Fn(usize) -> Weight>(
    weight: F,
    cells: usize,
    digits: &mut [u32],
    powers: &mut [i32],
)
    requires callable { (cell : ℕ) → cell < cells → F.pre weight cell }
    requires digits_in_bounds { cells ≤ length digits.old }
    requires powers_in_bounds { cells ≤ length powers.old }
    ensures digits_len { length digits.new ≡ length digits.old }
    ensures powers_len { length powers.new ≡ length powers.old }
    ensures filled { (cell : ℕ) → cell < cells → F.post weight cell (weight_at digits.new powers.new cell) }
{
    // By number: nothing is known of what is written through a `zip` of `iter_mut`.
    for cell in 0..cells {
        let weight = weight(cell);
        digits[cell] = weight.digits;
        powers[cell] = weight.power;
    }
}

// The weights of each position and friend.
pub(crate) fn fill_place_weights(admitted: &AdmittedDesign, digits: &mut [u32], powers: &mut [i32])
    requires digits_in_bounds { positions admitted.now * strands admitted.now ≤ length digits.old }
    requires powers_in_bounds { positions admitted.now * strands admitted.now ≤ length powers.old }
    ensures digits_len { length digits.new ≡ length digits.old }
    ensures powers_len { length powers.new ≡ length powers.old }
    ensures filled { PlacesFilled admitted.now digits.new powers.new }
{
    let strands = admitted.design.strands();
    let cells = admitted.design.positions() * strands;
    fill(
        |cell| place_weight(admitted, cell / strands, (cell % strands) as u8),
        cells,
        digits,
        powers,
    );
}

// The weights of each two strands.
pub(crate) fn fill_pair_weights(admitted: &AdmittedDesign, digits: &mut [u32], powers: &mut [i32])
    requires digits_in_bounds { strands admitted.now * strands admitted.now ≤ length digits.old }
    requires powers_in_bounds { strands admitted.now * strands admitted.now ≤ length powers.old }
    ensures digits_len { length digits.new ≡ length digits.old }
    ensures powers_len { length powers.new ≡ length powers.old }
    ensures filled { PairsFilled admitted.now digits.new powers.new }
{
    let strands = admitted.design.strands();
    fill(
        |cell| pair_weight(admitted, (cell / strands) as u8, (cell % strands) as u8),
        strands * strands,
        digits,
        powers,
    );
}
