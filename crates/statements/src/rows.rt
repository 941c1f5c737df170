// The rows of a text: counted and checked, then laid out.
ghost use Rattle.std.specs.Prelude.{◌≡◌, map, ◌+◌, ◌≤◌, ◌<◌, length};
ghost use Rattle.std.proofs.lemmas.List.Edits.{sets};
ghost use Rattle.statements.specs.Words.{words_in, lines_of};
ghost use Rattle.statements.specs.Statement.{statement_of};
ghost use Rattle.statements.specs.Rows.{position_row, rows_of_line, rows_of, count_of, answer_from};

use crate::ReadFault;
use crate::grammar::Kind;
use crate::statement::{Fault, Row, Statement, glue_of, statement_of};
use crate::words::{Lines, NumberedLine, Words, bytes};

// How many words stand from a place on.
#[tactic(auto, using(crate::proofs::Bytes::few_words))]
fn count_words(line: &[u8], at: usize) -> usize
    ensures { result ≡ length (words_in line.now at) }
{
    Words::of(line, at).count()
}

// How many rows a line has.
#[tactic(auto, unfolding(crate::specs::Rows::count_of, crate::specs::Rows::statement_count))]
fn count_rows(line: &NumberedLine<'_>) -> Result<usize, Fault>
    ensures { result ≡ count_of line.now.text.now line.now.start line.now.number }
{
    match statement_of(line)? {
        Statement::Nothing => Ok(0),
        Statement::OneRow(_) => Ok(1),
        Statement::Positions(_, from) => Ok(count_words(line.text, from)),
    }
}

// The number of rows, or the first line at fault or without room.
pub(crate) fn check(text: &[u8], room: usize) -> Result<usize, ReadFault>
    ensures { result ≡ answer_from text.now room 1 0 (lines_of text.now) }
{
    let mut count = 0;
    for line in Lines::of(text) {
        let more = count_rows(&line).map_err(|fault| ReadFault::Unreadable(line.number, fault))?;
        if room - count < more {
            return Err(ReadFault::TooManyRows(line.number));
        }
        count += more;
    }
    Ok(count)
}

// The positions of a line from a place on, of this kind, from row i on, and the row after them.
fn lay_positions(
    kind: Kind,
    line: &NumberedLine<'_>,
    at: usize,
    i: usize,
    rows: &mut [Row],
) -> usize
    requires { i + length (words_in line.now.text.now at) ≤ length rows.old }
    ensures { (result ≡ i + length (words_in line.now.text.now at)) × (rows.new ≡ sets rows.old i (map (position_row kind line.now.text.now line.now.number) (words_in line.now.text.now at))) }
{
    // Counted by hand: the count is the result.
    let mut next = i;
    for word in Words::of(line.text, at) {
        rows[next] = Row::blank(kind, line.number).put(0, glue_of(bytes(line.text, word), word));
        next += 1;
    }
    next
}

// The rows of a line from row i on, and the row after them.
#[tactic(auto, unfolding(crate::specs::Rows::rows_of_line))]
fn lay_line(line: &NumberedLine<'_>, i: usize, rows: &mut [Row]) -> usize
    requires { i + length (rows_of_line line.now.text.now line.now.number (statement_of line.now.text.now line.now.start line.now.number)) ≤ length rows.old }
    ensures { (result ≡ i + length (rows_of_line line.now.text.now line.now.number (statement_of line.now.text.now line.now.start line.now.number))) × (rows.new ≡ sets rows.old i (rows_of_line line.now.text.now line.now.number (statement_of line.now.text.now line.now.start line.now.number))) }
{
    match statement_of(line) {
        Ok(Statement::OneRow(row)) => {
            rows[i] = row;
            i + 1
        }
        Ok(Statement::Positions(kind, from)) => lay_positions(kind, line, from, i, rows),
        Ok(Statement::Nothing) | Err(_) => i,
    }
}

// The rows of a text that there is room for.
pub(crate) fn lay(text: &[u8], rows: &mut [Row])
    requires { length (rows_of text.now) ≤ length rows.old }
    ensures { rows.new ≡ sets rows.old 0 (rows_of text.now) }
{
    let mut next = 0;
    for line in Lines::of(text) {
        next = lay_line(&line, next, rows);
    }
}
