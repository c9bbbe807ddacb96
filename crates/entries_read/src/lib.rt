// The row lists' entries out of the lines of a text that was checked, into the lent lists.
#![tactic(auto)]

ghost use Rattle.std.specs.Prelude.{◌≡◌, suc, ◌*◌, ◌≤◌, ◌<◌, length, replicate};
ghost use Rattle.model.specs.Limits.{most_tiles, most_side};
ghost use Rattle.model.specs.Read.{entries_in};
ghost use Rattle.entries_read.specs.Entries.{ListLine, above, ListLines, list_from, row_from, lists_from};

use digits_read::field_at;

// A list's entries.
fn load_entries(line: &[u8], list: &mut [u8])
    requires { ListLine (length list.old) line.now }
    ensures { list.new ≡ entries_in (length list.old) line.now }
{
    for (x, entry) in list.iter_mut().enumerate() {
        *entry = field_at(line, 6 + 2 * x, 2) as u8;
    }
}

// List (i,j), where the lists of row i start at place at: above the diagonal it is 0.
fn load_list(text: &[u8], at: usize, i: usize, j: usize, list: &mut [u8])
    requires list_lines { ListLines (length list.old) (suc i) at text.now }
    requires list_len_bound { (length list.old ≤ most_side) × (i < most_tiles) }
    ensures { list.new ≡ list_from (length list.old) at text.now i j }
{
    if i < j {
        list.fill(0);
        return;
    }
    let size = 7 + 2 * list.len();
    let a = at + j * size;
    let e = a + size;
    load_entries(&text[a..e], list);
}

// The lists of row i.
fn load_row(text: &[u8], at: usize, tiles: usize, t: usize, i: usize, row: &mut [u8])
    requires list_lines { ListLines t (suc i) at text.now }
    requires row_len { length row.old ≡ tiles * t }
    requires tiles_le_most_tiles { (tiles ≤ most_tiles) × (t ≤ most_side) × (i < most_tiles) }
    ensures { row.new ≡ row_from tiles t at text.now i }
{
    for j in 0..tiles {
        let b = j * t;
        let d = b + t;
        load_list(text, at, i, j, &mut row[b..d]);
    }
}

// All lists: the lines of those with I ≥ J start at place at.
pub fn load_lists(text: &[u8], at: usize, tiles: usize, t: usize, lists: &mut [u8])
    requires list_lines { ListLines t (above tiles) at text.now }
    requires lists_len { length lists.old ≡ tiles * (tiles * t) }
    requires tiles_le_most_tiles { (tiles ≤ most_tiles) × (t ≤ most_side) }
    ensures { lists.new ≡ lists_from tiles t at text.now }
{
    let size = 7 + 2 * t;
    let width = tiles * t;
    let mut a = at;
    for i in 0..tiles {
        let b = i * width;
        let d = b + width;
        load_row(text, a, tiles, t, i, &mut lists[b..d]);
        a += (i + 1) * size;
    }
}
