// A text in parts: a list in lines, a line in words. A mark is the byte that is looked for: the newline or the blank behind a part.
ghost use Rattle.std.specs.Prelude.{◌≡◌, nat_eq, position};
ghost use Rattle.replay.specs.Text.{up_to, past};

// The place of the first mark, if there is one.
fn first_mark(text: &[u8], mark: u8) -> Option<usize>
    ensures { result ≡ position (nat_eq mark) text.now }
{
    text.iter().position(|&b| mark == b)
}

// What comes before the first mark, and what comes after it: all of a text that has none, and nothing.
pub(crate) fn split_at_first(text: &[u8], mark: u8) -> (&[u8], &[u8])
    ensures before { result.0.now ≡ up_to mark text.now }
    ensures after { result.1.now ≡ past mark text.now }
{
    match first_mark(text, mark) {
        Some(n) => (&text[..n], &text[n + 1..]),
        None => (text, &[]),
    }
}
