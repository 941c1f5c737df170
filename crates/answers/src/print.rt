// What is written, and whom it is for.
ghost use Rattle.std.specs.Prelude.{OnOk};
ghost use Rattle.std.specs.Io.KnownBytes.{Appends};
ghost use Rattle.answers.specs.Text.{Grows, fixed_shown};

use crate::reads::first;
use std::io;
use std::io::Write;

// Whom the output is for.
#[derive(Clone, Copy)]
pub enum Style {
    People,
    Json,
    // A row of a table.
    Tsv,
}

// A writer. What is known of the bytes that it holds grows by what is printed.
#[derive(Drop)]
pub struct Printer<'a, W: Write> {
    pub out: &'a mut W,
}

impl<W: Write> Printer<'_, W> {
    // A number to six places, where it has such a text. Of std's formats none has a clause on the text of a double.
    #[tactic(auto, unfolding(crate::specs::Text::fixed_shown))]
    pub(crate) fn print_fixed(&mut self, x: f64) -> io::Result<()>
        ensures { OnOk result (Appends (W.contents self.old.out.now) (W.contents self.new.out.now) (fixed_shown x)) }
    {
        let mut text = [0u8; 32];
        let size = decimals::write_fixed(x, &mut text).unwrap_or(0);
        self.out.write_all(first(&text, size))
    }

    // So many blanks.
    pub(crate) fn print_blanks(&mut self, n: usize) -> io::Result<()>
        ensures { OnOk result (Grows (W.contents self.old.out.now) (W.contents self.new.out.now)) }
    {
        // By number: there are no values, but only how many blanks.
        for _ in 0..n {
            write!(self.out, " ")?;
        }
        Ok(())
    }
}
