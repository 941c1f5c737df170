// Whether the words of a line say what was answered: `Some` where they do.
ghost use Rattle.std.specs.Prelude.{◌≡◌, ℕ, ◌<◌, true, [], ◌∷◌, ◌++◌, length, slice_index, slice_index_or, OnSome};
ghost use Rattle.replay.specs.Text.{hex_text};
ghost use Rattle.replay.specs.Says.{blank, ok, figures_text, SaysRefused, Says};

use crate::numbers::{is_decimal, is_hex};
use crate::parts::split_at_first;

// `refused NUMBER`.
pub(crate) fn refused(words: &[u8], number: u32) -> Option<()>
    ensures { OnSome result (SaysRefused words.now number) }
{
    let (first, second) = split_at_first(words, b' ');
    if first != b"refused".as_slice() {
        return None;
    }
    is_decimal(second, u64::from(number)).then_some(())
}

// A blank and 16 hex digits.
fn is_figure(text: &[u8; 17], figure: u64) -> bool
    ensures { result ≡ true → text.now ≡ blank ∷ hex_text figure }
{
    text[0] == b' ' && is_hex(&text[1..], figure, 16)
}

// As many figures as there are, one in each part.
fn are_figures(parts: &[[u8; 17]], figures: &[u64]) -> bool
    ensures { result ≡ true → (length parts.now ≡ length figures.now) × ((k : ℕ) → k < length parts.now → slice_index_or parts.now k [] ≡ blank ∷ hex_text (slice_index figures.now k)) }
{
    parts.len() == figures.len()
        && parts
            .iter()
            .zip(figures)
            .all(|(part, figure)| is_figure(part, *figure))
}

// `ok FIGURE ..`, and nothing after the last figure.
fn given(words: &[u8], figures: &[u64]) -> Option<()>
    ensures { OnSome result (words.now ≡ ok ++ figures_text figures.now) }
{
    let text = words.strip_prefix(b"ok".as_slice())?;
    let (parts, rest) = text.as_chunks::<17>();
    if !rest.is_empty() {
        return None;
    }
    are_figures(parts, figures).then_some(())
}

// The figures of a call that is answered, and its number where it is refused.
pub(crate) fn says(words: &[u8], number: u32, figures: &[u64]) -> Option<()>
    ensures { OnSome result (Says words.now number figures.now) }
{
    if number == 0 {
        return given(words, figures);
    }
    refused(words, number)
}
