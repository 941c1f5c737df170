// Stored configurations as C functions. A form is a number: 0 document 01's, 1 with runs; any other is refused with 1.

ghost use Rattle.std.specs.Prelude.{◌≡◌, take};
ghost use Rattle.reply.specs.Number.{answered};
ghost use Rattle.exports.specs.Place.{place_number};
ghost use Rattle.exports.specs.Stored.{form_numbered, read_in, entries_in, write_in, words_in, move_from, moved_from, MovesFrom};

// Reads a deck into 128 lent entries, and tells how many positions it has. Replies 1, 14.
#[unsafe(no_mangle)]
pub extern "C" fn mj_deck_read(
    form: u32,
    words: &[u32],
    entries: &mut [u8],
    place: &mut u64,
    count: &mut u64,
) -> u32
    ensures value { result ≡ (read_in (form_numbered form) words.now entries.old).number }
    ensures place_after { place.new ≡ place_number (read_in (form_numbered form) words.now entries.old).place }
    ensures count_after { count.new ≡ (read_in (form_numbered form) words.now entries.old).count }
    ensures entries_after { entries.new ≡ entries_in (form_numbered form) words.now entries.old }
{
    exports::stored::mj_deck_read(form, words, entries, place, count)
}

// Writes the deck of a configuration into 129 lent words, and tells how many it has. Replies 1, 9.
#[unsafe(no_mangle)]
pub extern "C" fn mj_deck_write(
    form: u32,
    configuration: &[u8],
    words: &mut [u32],
    count: &mut u64,
) -> u32
    ensures value { result ≡ (write_in (form_numbered form) configuration.now words.old).number }
    ensures count_after { count.new ≡ (write_in (form_numbered form) configuration.now words.old).count }
    ensures words_after { words.new ≡ words_in (form_numbered form) configuration.now words.old }
{
    exports::stored::mj_deck_write(form, configuration, words, count)
}

// Moves a deck of a form into the other form, in 129 lent words, and tells how many it has. Replies 1, 14.
#[unsafe(no_mangle)]
pub extern "C" fn mj_deck_move(
    form: u32,
    words: &[u32],
    moved: &mut [u32],
    place: &mut u64,
    count: &mut u64,
) -> u32
    ensures value { result ≡ (move_from (form_numbered form) words.now moved.old).number }
    ensures place_after { place.new ≡ place_number (move_from (form_numbered form) words.now moved.old).place }
    ensures count_after { count.new ≡ (move_from (form_numbered form) words.now moved.old).count }
    ensures moved_after { moved.new ≡ moved_from (form_numbered form) words.now moved.old }
    ensures moves_from { result ≡ answered → MovesFrom (form_numbered form) words.now (take count.new moved.new) }
{
    exports::stored::mj_deck_move(form, words, moved, place, count)
}
