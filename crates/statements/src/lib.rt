// The reader of design files: the statements of a text, as rows in a lent slice.
#![tactic(auto)]

mod amounts;
pub mod faults;
pub mod grammar;
mod rows;
pub mod statement;
pub mod words;

ghost use Rattle.std.specs.Prelude.{◌≡◌, length};
ghost use Rattle.statements.specs.Rows.{read_answer, rows_after};

use statement::{Fault, Row};

// The longest text: 1 MiB.
pub const LONGEST: usize = 1048576;

// Why a text can't be read.
#[derive(Clone, Copy, PartialEq, Eq)]
pub enum ReadFault {
    // The number of the first line that can't be read, from 1, and what is wrong with it.
    Unreadable(usize, Fault),
    // The number of the first line whose rows there is no room for.
    TooManyRows(usize),
    TooLong,
}

// Reads a text into rows, which stand first in the lent slice, and answers how many there are.
pub fn read(text: &[u8], rows: &mut [Row]) -> Result<usize, ReadFault>
    ensures value { result ≡ read_answer text.now (length rows.old) }
    ensures rows_after { rows.new ≡ rows_after text.now rows.old }
{
    if LONGEST < text.len() {
        return Err(ReadFault::TooLong);
    }
    let count = rows::check(text, rows.len())?;
    rows::lay(text, rows);
    Ok(count)
}
