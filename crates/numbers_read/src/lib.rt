// The tiles' numbers out of the lines of a text that was checked, into the lent matrix.
#![tactic(auto)]

ghost use Rattle.std.specs.Prelude.{◌≡◌, true, ◌*◌, ◌≤◌, length};
ghost use Rattle.std.specs.Float.{binary64};
ghost use Rattle.std.specs.Float.Ieee.{of_bits};
ghost use Rattle.model.specs.Limits.{most_tiles, most_side};
ghost use Rattle.model.specs.Num.{finite};
ghost use Rattle.model.specs.Read.{is_digit, digit_value, field};
ghost use Rattle.digits_read.specs.Digits.{FieldOfDigits};
ghost use Rattle.numbers_read.specs.Decoded.{digit_values, numbers_of, TileLine, TileLines, tiles_from};

// A digit's value, looked up.
fn value_of(b: u8, values: &[u8]) -> usize
    requires b_value { is_digit b ≡ true }
    requires values_value { values.now ≡ digit_values }
    ensures { result ≡ digit_value b }
{
    values[b as usize - 48] as usize
}

// What the 16 digits from place p on stand for. To look them up is faster than to compute them.
fn bits_at(line: &[u8], p: usize, values: &[u8]) -> usize
    requires field_of_digits { FieldOfDigits line.now p 16 }
    requires values_value { values.now ≡ digit_values }
    ensures { result ≡ field p 16 line.now }
{
    let mut v = 0;
    for k in 0..16 {
        v = v * 16 + value_of(line[p + k], values);
    }
    v
}

// The number whose bits the 16 digits from place p on are.
fn number_at(line: &[u8], p: usize, values: &[u8]) -> f64
    requires field_of_digits { FieldOfDigits line.now p 16 }
    requires line_value { finite (of_bits binary64 (field p 16 line.now)) ≡ true }
    requires values_value { values.now ≡ digit_values }
    ensures { result ≡ of_bits binary64 (field p 16 line.now) }
{
    f64::from_bits(bits_at(line, p, values) as u64)
}

// A tile's numbers. No byte between '9' and 'A' is looked up.
fn load_tile(line: &[u8], tile: &mut [f64])
    requires { TileLine (length tile.old) line.now }
    ensures { tile.new ≡ numbers_of (length tile.old) line.now }
{
    let values = [
        0, 1, 2, 3, 4, 5, 6, 7, 8, 9, 3, 4, 5, 6, 7, 8, 9, 10, 11, 12, 13, 14, 15,
    ];
    for (x, number) in tile.iter_mut().enumerate() {
        *number = number_at(line, 6 + 16 * x, &values);
    }
}

// All tiles: their lines start at place at, and each tile has s numbers.
pub fn load_tiles(text: &[u8], at: usize, s: usize, count: usize, matrix: &mut [f64])
    requires tile_lines { TileLines s count at text.now }
    requires matrix_len { length matrix.old ≡ count * s }
    requires s_bound { (s ≤ most_side * most_side) × (count ≤ most_tiles * most_tiles) }
    ensures { matrix.new ≡ tiles_from s count at text.now }
{
    let size = 7 + 16 * s;
    for q in 0..count {
        let a = at + q * size;
        let e = a + size;
        let b = q * s;
        let d = b + s;
        load_tile(&text[a..e], &mut matrix[b..d]);
    }
}
