// The text that the programs print, written to lent bytes: bytes as digits, refusals, numbers in columns; and whether two texts are the same.
// Where the bytes that are lent for a text are too few nothing is written, and the answer is 0.

#![tactic(auto)]

ghost use Rattle.std.specs.Prelude.{◌≡◌, ◌+◌, ◌<◌, ◌≤◌, length};
ghost use Rattle.std.proofs.lemmas.List.Edits.{sets};
ghost use Rattle.text.specs.Text.{digit_code, bytes_text, decimal_text, column_text, refused_word, refused_text, Prints};
ghost use Rattle.text.specs.InnerColumn.{place_code};
ghost use Rattle.words.specs.Bytes.{same_words};

// The character of a digit.
#[tactic(auto, unfolding(crate::specs::Text::digit_code))]
fn digit(d: u8) -> u8
    requires { d < 16 }
    ensures { result ≡ digit_code d }
{
    if d < 10 { b'0' + d } else { b'A' + (d - 10) }
}

// The text of some bytes; the answer is the number of characters. The characters are stored by index: behind a loop over `chunks_exact_mut`
// no proof knows what was stored.
pub fn shown(bytes: &[u8], out: &mut [u8]) -> usize
    ensures { Prints (bytes_text bytes.now) out.old out.new result }
{
    let n = bytes.len();
    if out.len() / 3 < n {
        return 0;
    }
    let end = (3 * n).saturating_sub(1);
    if out.len() <= end {
        return 0;
    }
    for (i, &b) in bytes.iter().enumerate() {
        out[3 * i] = digit(b / 16);
        out[3 * i + 1] = digit(b % 16);
        out[3 * i + 2] = b' ';
    }
    out[end] = b'\n';
    end + 1
}

// `refused` and a space, at the front.
fn word(out: &mut [u8])
    requires { 8 ≤ length out.old }
    ensures { out.new ≡ sets out.old 0 refused_word }
{
    out[..8].copy_from_slice(b"refused ");
}

// The character at a place of a column, by what is left of the number there: its digit, or a space where none is left. The last place has a
// digit always.
#[tactic(auto, unfolding(crate::specs::InnerColumn::place_code))]
fn place(last: bool, left: u32) -> u8
    ensures { result ≡ place_code last left }
{
    if last | (left != 0) {
        digit((left % 10) as u8)
    } else {
        b' '
    }
}

// A number right-aligned in the lent bytes, in decimal, with spaces in front. Digits for which there is no place are left out. The places are
// stored by index: behind a loop over `iter_mut().rev()` no proof knows what was stored.
pub fn column(n: u32, out: &mut [u8])
    ensures { out.new ≡ column_text (length out.old) n }
{
    let width = out.len();
    let mut left = n;
    for at in (0..width).rev() {
        out[at] = place(at + 1 == width, left);
        left /= 10;
    }
}

// The number of decimal digits.
fn size(n: u8) -> usize
    ensures { (result ≡ length (decimal_text 3 n)) × (result ≤ 3) }
{
    match n {
        0..=9 => 1,
        10..=99 => 2,
        _ => 3,
    }
}

// The text of a refusal; the answer is the number of characters.
pub fn refused(n: u8, out: &mut [u8]) -> usize
    ensures { Prints (refused_text n) out.old out.new result }
{
    let last = 8 + size(n);
    if out.len() <= last {
        return 0;
    }
    word(out);
    column(n as u32, &mut out[8..last]);
    out[last] = b'\n';
    last + 1
}

// Whether two texts are the same.
pub fn same(a: &[u8], b: &[u8]) -> bool
    ensures { result ≡ same_words a.now b.now }
{
    a == b
}
