// The options of a design, and how many states they give.
ghost use Rattle.std.specs.Prelude.{◌≡◌, ◌*◌, ◌≤◌, min, length};
ghost use Rattle.lists.specs.Build.{product};
ghost use Rattle.model.specs.States.{count};
ghost use Rattle.ensemble.specs.Layout.{Searchable, OptionRows};
ghost use Rattle.design.specs.Design.{positions, strands, model_of};

use design::passed::TabledDesign;
use ensemble::options::Options;
use ensemble::states::state_count;

// Options, and how many states they give; one past the limit where these are more.
#[derive(Clone, Copy)]
pub struct Counted<'a> {
    pub options: Options<'a>,
    pub states: u64,
    ghost counted: { states ≡ min (product options.counts.now) 1048577 },
}

// Fills the options of a design whose tables pass, a row of 64 for each position, and says how many states they give; one past the limit where these are
// more. What it leaves in rows and counts is said of these themselves.
pub fn fill_and_count(tabled: &TabledDesign, rows: &mut [u8], counts: &mut [u8]) -> u64
    requires scaffold_in_bounds { 64 * positions tabled.now ≤ length rows.old }
    requires counts_len { length counts.old ≡ positions tabled.now }
    ensures value { result ≡ min (count (model_of tabled.now)) 1048577 }
    ensures product_of_counts { result ≡ min (product counts.new) 1048577 }
    ensures option_rows { OptionRows (model_of tabled.now) rows.new counts.new }
    ensures searchable { Searchable (strands tabled.now) rows.new counts.new }
    ensures rows_len_unchanged { length rows.new ≡ length rows.old }
    ensures counts_len_unchanged { length counts.new ≡ length counts.old }
{
    tabled.fill_options(rows, counts);
    state_count(counts)
}

// The options of a design whose tables pass, a row of 64 for each position, and how many states they give.
pub fn count_options<'a>(
    tabled: &TabledDesign,
    rows: &'a mut [u8],
    counts: &'a mut [u8],
) -> Counted<'a>
    requires scaffold_in_bounds { 64 * positions tabled.now ≤ length rows.old }
    requires counts_len { length counts.old ≡ positions tabled.now }
    ensures value { result.states ≡ min (count (model_of tabled.now)) 1048577 }
    ensures within { result.states ≤ 1048576 → result.states ≡ product result.options.counts.now }
    ensures option_rows { OptionRows (model_of tabled.now) result.options.rows.now result.options.counts.now }
    ensures same_strands { result.options.strands ≡ strands tabled.now }
    ensures rows_len { length result.options.rows.now ≡ length rows.old }
    ensures counts_len { length result.options.counts.now ≡ positions tabled.now }
{
    let states = fill_and_count(tabled, rows, counts);
    let strands = tabled.design.strands();
    let options = Options {
        rows,
        counts,
        strands,
    };
    Counted { options, states }
}
