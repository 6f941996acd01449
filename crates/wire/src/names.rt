// Names in a table, compared without regard to case. A row of the table is the name's length and the name in capitals in 15 bytes.
ghost use Rattle.std.specs.Prelude.{◌≡◌, map};
ghost use Rattle.wire.specs.Bytes.{same, upper};
ghost use Rattle.wire.specs.Promises.{Table, row_named};

// The bytes of a row.
pub const ROW_SIZE: usize = 16;

// Whether a word spells a name that is written in capitals. They are compared from the last letter, since names share their first ones.
pub fn spells(word: &[u8], name: &[u8]) -> bool
    ensures { result ≡ same (map upper word.now) name.now }
{
    if word.len() != name.len() {
        return false;
    }
    word.iter()
        .rev()
        .zip(name.iter().rev())
        .all(|(x, y)| x.to_ascii_uppercase() == *y)
}

// The lowest row whose name a word spells.
pub fn find(table: &[u8], word: &[u8]) -> Option<usize>
    requires { Table table.now }
    ensures { result ≡ row_named table.now word.now }
{
    let rows = table.len() / ROW_SIZE;
    for i in 0..rows {
        let at = ROW_SIZE * i;
        let start = at + 1;
        let end = start + table[at] as usize;
        if spells(word, &table[start..end]) {
            return Some(i);
        }
    }
    None
}
