// The options of each position, into lent rows of 64: its friends in rising order, then 0 for empty. A blocked position has no friends.
ghost use Rattle.std.specs.Prelude.{◌≡◌, ◌*◌, ◌<◌, ◌≤◌, length};
ghost use Rattle.model.specs.Model.{Model};
ghost use Rattle.ensemble.specs.Layout.{Searchable, OptionRows};
ghost use Rattle.design.specs.Design.{positions, strands, befriends, friends_of, model_of};
ghost use Rattle.design.specs.Filling.{Written, Optioned};

use super::Design;
use super::passed::TabledDesign;
use super::reads::BOTTOM_GLUE_INDEX;
use ensemble::options::{Options, ROW};
use reply::limits::{GLUES, SIDES};

// A design and options of as many strands as it has, which the fillers of bonds go by. That the options are the design's own is no fact of it: bonds are
// filled too over options of other marks.
#[derive(Clone, Copy)]
pub struct OptionedDesign<'a, 'b> {
    pub design: &'a Design<'a>,
    pub options: Options<'b>,
    ghost same_strands: { options.strands ≡ strands design.now },
}

impl TabledDesign<'_> {
    // Whether the strand is a friend at an open position with this scaffold glue: as `Design` tells it, but no read asks whether its place is there. A
    // search tests up to 7,680 strands, and one that finds few takes a tenth less by it.
    fn is_friend(&self, scaffold_glue: u8, strand: u8) -> bool
        requires glue_bound { scaffold_glue < 64 }
        requires strand_in_bounds { strand < strands self.now }
        ensures { result ≡ befriends scaffold_glue self.now.glues self.now.dg self.now.ds strand }
    {
        let design = self.design;
        let bottom = design.glues[SIDES * usize::from(strand) + BOTTOM_GLUE_INDEX];
        let cell = usize::from(scaffold_glue) * GLUES + usize::from(bottom);
        (design.dg[cell] != 0.0) | (design.ds[cell] != 0.0)
    }

    // Writes the friends of a position into the first entries, and says how many there are: strand 0 is none, so one entry at least is left.
    pub fn write_friends(&self, position: usize, entries: &mut [u8]) -> usize
        requires position_in_bounds { position < positions self.now }
        requires room { 64 ≤ length entries.old }
        ensures written { Written (friends_of self.now position) entries.old result entries.new }
        ensures few { result < 64 }
    {
        if self.design.is_blocked(position) {
            return 0;
        }
        let scaffold_glue = self.design.scaffold_glue(position);
        // By number: a strand is one. The friends can't be collected into a slice, and of what is written through an adapter of `iter_mut` nothing is
        // known.
        let mut count = 0;
        for strand in 0..self.design.strands() as u8 {
            if self.is_friend(scaffold_glue, strand) {
                entries[count] = strand;
                count += 1;
            }
        }
        count
    }

    // Writes the options of one position into its row, and says how many there are.
    fn fill_row(&self, position: usize, row: &mut [u8]) -> u8
        requires position_in_bounds { position < positions self.now }
        requires row_len { length row.old ≡ 64 }
        ensures { Optioned (friends_of self.now position) row.new result }
    {
        let count = self.write_friends(position, row);
        row[count] = 0;
        (count + 1) as u8
    }

    // The options of each position into its row, and how many it has. A row is worked out for the first open position that has a glue, and copied for the
    // others: where glues come again, few of up to 8,192 tests for friends are left.
    pub fn fill_options(&self, rows: &mut [u8], counts: &mut [u8])
        requires rows_in_bounds { 64 * positions self.now ≤ length rows.old }
        requires counts_len { length counts.old ≡ positions self.now }
        ensures searchable { Searchable (strands self.now) rows.new counts.new }
        ensures option_rows { (m : Model) → m.friends ≡ (model_of self.now).friends → OptionRows m rows.new counts.new }
        ensures rows_len_unchanged { length rows.new ≡ length rows.old }
        ensures counts_len_unchanged { length counts.new ≡ length counts.old }
    {
        // For each glue the number of positions up to the first open one that has it; 0 where none was met.
        let mut met = [0u8; GLUES];
        // By number, which the design's glues and marks ask; and of what is written through a `zip` of `iter_mut`, or of rows of `chunks_exact_mut`,
        // nothing is known where the loop ends.
        for position in 0..self.design.positions() {
            let row = ROW * position;
            let glue = usize::from(self.design.scaffold_glue(position));
            let blocked = self.design.is_blocked(position);
            if blocked {
                counts[position] = self.fill_row(position, &mut rows[row..row + ROW]);
            } else if met[glue] == 0 {
                counts[position] = self.fill_row(position, &mut rows[row..row + ROW]);
                met[glue] = position as u8 + 1;
            } else {
                let first = usize::from(met[glue]) - 1;
                rows.copy_within(ROW * first..ROW * first + ROW, row);
                counts[position] = counts[first];
            }
        }
    }
}

// The options of a design whose tables pass, handed back as they are lent to a search. Rows and counts come as two slices: a struct of both has room for
// all positions that there may be, and this asks for room for a design's own.
pub fn options_of<'a>(
    tabled: &TabledDesign,
    rows: &'a mut [u8],
    counts: &'a mut [u8],
) -> Options<'a>
    requires rows_in_bounds { 64 * positions tabled.now ≤ length rows.old }
    requires counts_len { length counts.old ≡ positions tabled.now }
    ensures same_strands { result.strands ≡ strands tabled.now }
    ensures option_rows { (m : Model) → m.friends ≡ (model_of tabled.now).friends → OptionRows m result.rows.now result.counts.now }
    ensures rows_len { length result.rows.now ≡ length rows.old }
    ensures counts_len { length result.counts.now ≡ positions tabled.now }
{
    tabled.fill_options(rows, counts);
    Options {
        rows,
        counts,
        strands: tabled.design.strands(),
    }
}
