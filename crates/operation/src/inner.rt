// How an answer's four numbers are told to a C host, for the crates above alone.
ghost use Rattle.std.specs.Prelude.{◌≡◌, set};
ghost use Rattle.planner.specs.Short.{ShortLine};
ghost use Rattle.operation.specs.Rows.{row_line, Told};

use crate::row::Row;

// A word, if there is a place for it.
pub fn put_word(words: &mut [u32], i: usize, word: u32)
    ensures { words.new ≡ set words.old i word }
{
    if words.len() <= i {
        return;
    }
    words[i] = word;
}

// Puts the numbers into the lent words and returns the first.
pub fn tell(answer: &mut [u32], row: Row) -> u32
    requires { ShortLine (row_line row) }
    ensures { Told (row_line row) answer.old answer.new result }
{
    let number = row.number as u32;
    put_word(answer, 0, number);
    put_word(answer, 1, row.second as u32);
    put_word(answer, 2, row.third as u32);
    put_word(answer, 3, row.fourth as u32);
    number
}
