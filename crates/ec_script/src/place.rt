// Where the last word of a line stands.
ghost use Rattle.std.specs.Prelude.{◌≡◌, ◌-◌, length};
ghost use Rattle.ec_words.specs.Words.{words_of};
ghost use Rattle.ec_words.specs.Rows.{shown_column};
ghost use Rattle.ec_words.specs.RowsLeft.{left};
ghost use Rattle.ec_script.specs.Last.{last_len};

use ec_words::{Words, column_left};

/// The column, from 1, of the last word of a line: where an operation or a message is named that
/// there isn't. A column from 2^32 on is shown as 2^32 - 1.
pub fn last_column(line: &[u8]) -> u32
    ensures { result ≡ shown_column line.now (length (words_of line.now) - 1) }
{
    column_left(line, last_len(Words::of(line)))
}

// How many bytes the last word has.
fn last_len(words: Words<'_>) -> usize
    ensures { result ≡ last_len (left words.entry) }
{
    let mut rest = words;
    'words: loop {
        let Some((word, behind)) = rest.split() else {
            return 0;
        };
        if behind.is_empty() {
            return word.len();
        }
        rest = behind;
    }
}
