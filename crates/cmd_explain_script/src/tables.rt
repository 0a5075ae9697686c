//! Tables that have a value for each of some words.

ghost use Rattle.std.specs.Prelude.{◌≡◌, map, option_map};
ghost use Rattle.cmd_explain_script.specs.Tables.{near_among, value_among};

use crate::meant::is_near;

/// Returns the value that a table has for a word.
pub fn value_among<V: Copy>(word: &[u8], rows: &[(&[u8], V)]) -> Option<V>
    ensures { result ≡ value_among word.now (map (λ row. (row.0.now, row.1)) rows.now) }
{
    let mut left = rows;
    while let [row, rest @ ..] = left {
        if word == row.0 {
            return Some(row.1);
        }
        left = rest;
    }
    None
}

/// Returns the first word of a table that is near this one.
pub fn near_among<'a, V: Copy>(word: &[u8], rows: &'a [(&'static [u8], V)]) -> Option<&'static [u8]>
    ensures { option_map (λ near. near.now) result ≡ near_among word.now (map (λ row. (row.0.now, row.1)) rows.entry.now) }
{
    let mut left = rows;
    while let [row, rest @ ..] = left {
        if is_near(word, row.0) {
            return Some(row.0);
        }
        left = rest;
    }
    None
}
