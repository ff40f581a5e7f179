//! Tables of words.
ghost use Rattle.std.specs.Prelude.{◌≡◌, map};
ghost use Rattle.model.specs.Texts.Tables.{named};

/// What a table has under a word.
pub fn named<T: Copy>(table: &[(&str, T)], word: &[u8]) -> Option<T>
    ensures { result ≡ named (map (λ row. (row.0.now, row.1)) table.now) word.now }
{
    for (name, value) in table {
        if word == name.as_bytes() {
            return Some(*value);
        }
    }
    None
}
