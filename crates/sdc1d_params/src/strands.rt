// The glues of the strands: of strand 0, the user strands, the quencher and the reporter.
ghost use Rattle.std.specs.Prelude.{◌≡◌, false, [], ◌∷◌, ◌+◌, ◌*◌, ◌≤◌, length, drop};
ghost use Rattle.sdc_common.specs.Numbers.{numbers_among};
ghost use Rattle.sdc_common.specs.Calls.{unfit_strands, too_many_bases};
ghost use Rattle.sdc1d_params.specs.inner.Set.{set_of};
ghost use Rattle.sdc1d_params.specs.Params.{unfit_copied, quencher_glues, reporter_glues, with_copies, strand_names};
ghost use Rattle.sdc1d_params.specs.Places.{crowding_strand};

use crate::set::ParameterSet;
use reply::limits::SIDES;
use sdc_common::table::BaseTable;
use sdc_common::{MOST_BASES, strand_glues};

// The quencher has west and bottom of its strand; with no strand named, no glue.
fn quencher_sides(users: usize, glues: &[u8], quencher: Option<usize>) -> [u8; SIDES]
    requires { (users ≤ 61) × (3 * users + 3 ≤ length glues.now) × (unfit_copied users quencher ≡ false) }
    ensures { result ≡ quencher_glues (drop 3 glues.now) quencher }
{
    match quencher {
        None => [0; SIDES],
        Some(k) => [glues[3 * k], glues[3 * k + 1], 0],
    }
}

// The reporter has bottom and east of its strand; with no strand named, no glue.
fn reporter_sides(users: usize, glues: &[u8], reporter: Option<usize>) -> [u8; SIDES]
    requires { (users ≤ 61) × (3 * users + 3 ≤ length glues.now) × (unfit_copied users reporter ≡ false) }
    ensures { result ≡ reporter_glues (drop 3 glues.now) reporter }
{
    match reporter {
        None => [0; SIDES],
        Some(k) => [0, glues[3 * k + 1], glues[3 * k + 2]],
    }
}

// The strand with whose glues there are more base names than the tables have numbers for.
pub(crate) fn crowding_strand(set: &ParameterSet) -> Option<usize>
    requires { unfit_strands set.now.lent.users set.now.lent.text.now (set_of set.now).strands ≡ false }
    ensures { result ≡ crowding_strand (strand_names (set_of set.now)) }
{
    let glue = BaseTable::first_beyond(MOST_BASES, set.lent.text, set.lent.strands)?;
    Some(glue / SIDES)
}

// All strands' glues, three for each.
pub(crate) fn write_strands(set: &ParameterSet, glues: &mut [u8])
    requires strands_value { (unfit_strands set.now.lent.users set.now.lent.text.now (set_of set.now).strands ≡ false) × (too_many_bases (strand_names (set_of set.now)) ≡ false) }
    requires quencher_value { (unfit_copied set.now.lent.users set.now.lent.copies.quencher ≡ false) × (unfit_copied set.now.lent.users set.now.lent.copies.reporter ≡ false) }
    requires glues_len { length glues.old ≡ 3 * (set.now.lent.users + 3) }
    ensures { glues.new ≡ with_copies (numbers_among (strand_names (set_of set.now)) (strand_names (set_of set.now))) set.now.lent.copies.quencher set.now.lent.copies.reporter }
{
    let end = 3 * set.lent.users + 3;
    glues[0..3].copy_from_slice(&[0; SIDES]);
    // The names are checked, so nothing is refused.
    let _ = strand_glues(
        set.lent.text,
        set.lent.users,
        set.lent.strands,
        &mut glues[3..end],
    );
    let quencher = quencher_sides(set.lent.users, glues, set.lent.copies.quencher);
    let reporter = reporter_sides(set.lent.users, glues, set.lent.copies.reporter);
    glues[end..end + 3].copy_from_slice(&quencher);
    glues[end + 3..end + 6].copy_from_slice(&reporter);
}
