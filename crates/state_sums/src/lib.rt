// The sums over the states of a design, over weights that are lent: the free sum over all states, and the constrained sum over those that lists of
// allowed occupants leave. A weight is a whole number of 31 digits times a power of two, one for each position and strand, and one for each left
// and right strand.
#![tactic(auto)]

pub mod sizes;

ghost use Rattle.std.specs.Prelude.{◌≡◌, true, false, ◌*◌, ◌<◌, ◌≤◌, length, IfOk, IfErr};
ghost use Rattle.reply.specs.First.{nowhere};
ghost use Rattle.reply.specs.declared.Refusal.TheVariants.{WeightOut};
ghost use Rattle.model.specs.Model.{options};
ghost use Rattle.design.specs.Design.{positions, strands, model_of};
ghost use Rattle.partition.specs.Weights.{weights_out};
ghost use Rattle.partition_sums.specs.Layout.{options_of, weights_of, Celled};
ghost use Rattle.state_sums.specs.Sizes.{weights_lent, lists_lent};
ghost use Rattle.state_sums.specs.Answers.{sum_figures, free_answer, constrained_answer, FreeShown, ConstrainedShown};

use design::Design;
use design::options::options_of;
use design::passed::{AdmittedDesign, admitted};
use ensemble::options::OPTIONS;
use fractions::Weight;
use partition_sums::constraint::Constraint;
use partition_sums::forms::weights_out;
use partition_sums::lent::{Formed, Lent};
use partition_sums::weights::Weights;
use reply::limits::{POSITIONS, STRANDS};
use reply::{Refusal, Refused, refused_if};
use sizes::{wrong_cells, wrong_sizes};

// The weights that a call is lent, row first: digits and exponents of each position and strand, and of each left and right strand. The slices may
// have any lengths: a sum refuses those that do not fit its design.
#[derive(Clone, Copy)]
pub struct LentWeights<'a> {
    pub place_digits: &'a [u32],
    pub place_powers: &'a [i32],
    pub pair_digits: &'a [u32],
    pub pair_powers: &'a [i32],
}

// The lists of allowed occupants that a call is lent, one for each position, 0 for empty: all numbers in one slice, and where each list starts and
// how long it is. A sum refuses those that do not fit, too.
#[derive(Clone, Copy)]
pub struct LentLists<'a> {
    pub numbers: &'a [u8],
    pub starts: &'a [usize],
    pub lengths: &'a [usize],
}

impl<'a> LentWeights<'a> {
    // The weights of the strands of a design. Slice by slice: with these four inside of `Weights` each place and clause that reads one would name one
    // field more, which is no plainer.
    fn of_design(&self, design: &Design) -> Weights<'a>
        ensures same_strands { result.strands ≡ strands design.now }
        ensures same_weights { weights_of result ≡ weights_lent (strands design.now) self.now }
    {
        let LentWeights {
            place_digits,
            place_powers,
            pair_digits,
            pair_powers,
        } = *self;
        Weights {
            place_digits,
            place_powers,
            pair_digits,
            pair_powers,
            strands: design.strands(),
        }
    }
}

// The options of an admitted design, written into lent rows, with weights that are in form where some state uses them; or that one is not.
fn formed<'a, 'b>(
    admitted: &AdmittedDesign,
    weights: Weights<'b>,
    rows: &'a mut [u8],
    counts: &'a mut [u8],
) -> Result<Formed<'a, 'b>, Refused>
    requires same_strands { weights.strands ≡ strands admitted.now }
    requires celled { Celled (positions admitted.now) (weights_of weights) }
    requires scaffold_nonzero { 0 < positions admitted.now }
    requires scaffold_in_bounds { 64 * positions admitted.now ≤ length rows.old }
    requires counts_len { length counts.old ≡ positions admitted.now }
    ensures in_form { IfOk result (λ formed. weights_out (model_of admitted.now).friends (weights_of weights.entry) ≡ false) }
    ensures same_weights { IfOk result (λ formed. weights_of formed.lent.weights ≡ weights_of weights.entry) }
    ensures options { IfOk result (λ formed. options_of formed.lent.options ≡ options (model_of admitted.now)) }
    ensures a_count_each { IfOk result (λ formed. length formed.lent.options.counts.now ≡ positions admitted.now) }
    ensures not_in_form { IfErr result (λ refused. weights_out (model_of admitted.now).friends (weights_of weights.entry) ≡ true) }
    ensures refused { IfErr result (λ refused. refused ≡ nowhere WeightOut) }
{
    let options = options_of(&admitted.tabled(), rows, counts);
    let lent = Lent { options, weights };
    refused_if(Refusal::WeightOut, weights_out(&lent))?;
    Ok(Formed { lent })
}

// The sum over all states of a design. Replies 1, 9, 10, 15, 16, 17, 18, 19.
pub fn free_sum(design: &Design, weights: &LentWeights<'_>) -> Result<Weight, Refused>
    ensures result_value { sum_figures result ≡ free_answer design.now (weights_lent (strands design.now) weights.now) }
    ensures free_shown { FreeShown design.now (weights_lent (strands design.now) weights.now) (sum_figures result) }
{
    let positions = design.positions();
    let weights = weights.of_design(design);
    let own_size = wrong_cells(positions, &weights);
    let mut logarithms = [0.0; STRANDS];
    let admitted = admitted(own_size, design, &mut logarithms)?;
    refused_if(Refusal::BareScaffold, positions == 0)?;
    let mut rows = [0u8; OPTIONS];
    let mut counts = [0u8; POSITIONS];
    let formed = formed(&admitted, weights, &mut rows, &mut counts[..positions])?;
    Ok(partition_sums::sums::free_sum(&formed))
}

// The sum over the states that meet a constraint, lists of allowed occupants. An empty list leaves its place free. Replies as the free sum's; the lines
// that stand in both lend arrays of their own. The lists are copied slice by slice: a `Constraint` has the invariant that they fit, which lent lists
// that may be refused do not meet.
pub fn constrained_sum(
    design: &Design,
    weights: &LentWeights<'_>,
    lists: &LentLists<'_>,
) -> Result<Weight, Refused>
    ensures result_value { sum_figures result ≡ constrained_answer design.now (weights_lent (strands design.now) weights.now) (lists_lent lists.now) }
    ensures constrained_shown { ConstrainedShown design.now (weights_lent (strands design.now) weights.now) (lists_lent lists.now) (sum_figures result) }
{
    let positions = design.positions();
    let weights = weights.of_design(design);
    let own_size = wrong_sizes(positions, &weights, lists);
    let mut logarithms = [0.0; STRANDS];
    let admitted = admitted(own_size, design, &mut logarithms)?;
    refused_if(Refusal::BareScaffold, positions == 0)?;
    let constraint = Constraint {
        numbers: lists.numbers,
        starts: lists.starts,
        lengths: lists.lengths,
    };
    let mut rows = [0u8; OPTIONS];
    let mut counts = [0u8; POSITIONS];
    let formed = formed(&admitted, weights, &mut rows, &mut counts[..positions])?;
    Ok(partition_sums::sums::constrained_sum(&formed, &constraint))
}
