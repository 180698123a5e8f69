//! Tables of words.

ghost use Rattle.std.specs.Prelude.{◌≡◌, map};
ghost use Rattle.pr_lines.specs.Lookups.{lookup};

/// What the table has for the word, if it has the word.
pub fn lookup<T: Copy>(mut table: &[(&[u8], T)], word: &[u8]) -> Option<T>
    ensures { result ≡ lookup (map (λ row. (row.0.now, row.1)) table.entry.now) word.now }
{
    while let [row, rest @ ..] = table {
        if word == row.0 {
            return Some(row.1);
        }
        table = rest;
    }
    None
}
