// The build: the checks of document 01, that of the names in an ordinary build, then the glues and the tables.
ghost use Rattle.std.specs.Prelude.{◌≡◌, ◌≤◌, length};
ghost use Rattle.reply.specs.Number.{reply_number};
ghost use Rattle.sdc1d_params.specs.inner.Set.{set_of};
ghost use Rattle.sdc1d_params.specs.Params.{lent_of, outcome_of, from_params};
ghost use Rattle.sdc1d_params.specs.Places.{build_reply};

use crate::cells::NO_CELL;
use crate::checks::check;
use crate::entries::ROW;
use crate::retired::refuses_names;
use crate::scaffold::write_scaffold;
use crate::set::ParameterSet;
use crate::sizes::Lent;
use crate::strands::write_strands;
use crate::tables::fill_tables;
use crate::{Build, MOST_ENTRIES};
use reply::limits::POSITIONS;
use reply::{Refusal, Refused, refused_if};

// What is written where no check holds, and otherwise the first that does, and where.
pub(crate) fn build_all(
    build: Build,
    set: &ParameterSet,
    strand_glues: &mut [u8],
    scaffold_glues: &mut [u8],
    dg: &mut [f64],
    ds: &mut [f64],
) -> Result<(), Refused>
    requires { length scaffold_glues.old ≤ 128 }
    ensures reply { result ≡ build_reply build (set_of set.now) (lent_of strand_glues.old scaffold_glues.old dg.old ds.old) }
    ensures written { outcome_of (reply_number result) strand_glues.new scaffold_glues.new dg.new ds.new ≡ from_params build (set_of set.now) (lent_of strand_glues.old scaffold_glues.old dg.old ds.old) }
{
    // A number of each scaffold name and a cell of each entry.
    let mut numbers = [0usize; POSITIONS];
    let numbers = &mut numbers[..scaffold_glues.len()];
    let mut cells = [NO_CELL; MOST_ENTRIES];
    let cells = &mut cells[..set.lent.entries.len() / ROW];
    let lent = Lent {
        strand_glues,
        scaffold_glues,
        dg,
        ds,
    };
    check(set, &lent, numbers, cells)?;
    refused_if(Refusal::TwoStars, refuses_names(build, set))?;
    write_strands(set, strand_glues);
    write_scaffold(numbers, scaffold_glues);
    dg.fill(0.0);
    ds.fill(0.0);
    fill_tables(set, cells, dg, ds);
    Ok(())
}
