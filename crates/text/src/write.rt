//! Writers of a text: bytes, decimal numbers, lists and lines. Each puts its bytes over those of `out` from `at` on, and gives
//! the place after its last.
ghost use Rattle.std.specs.Prelude.{◌≡◌, [], ◌∷◌, ◌+◌, ◌≤◌, ◌<◌, length};
ghost use Rattle.text.specs.Over.{Wrote};
ghost use Rattle.text.specs.Decimal.{decimal};
ghost use Rattle.text.specs.KeyLine.{commaed, joined, key_line};

pub fn put_byte(out: &mut [u8], at: usize, byte: u8) -> usize
    requires { at < length out.old }
    ensures { Wrote out.old at (byte ∷ []) out.new result }
{
    out[at] = byte;
    at + 1
}

pub fn put_bytes(out: &mut [u8], at: usize, bytes: &[u8]) -> usize
    requires { at + length bytes.now ≤ length out.old }
    ensures { Wrote out.old at bytes.now out.new result }
{
    let end = at + bytes.len();
    out[at..end].copy_from_slice(bytes);
    end
}

// A digit as a byte of text.
fn glyph(digit: u32) -> u8
    requires { digit < 10 }
    ensures { result ≡ 48 + digit }
{
    b'0' + digit as u8
}

// A number in decimal: the digits of its tenth, and then the last one.
pub fn put_decimal(out: &mut [u8], at: usize, x: u32) -> usize
    requires { at + length (decimal x) ≤ length out.old }
    ensures { Wrote out.old at (decimal x) out.new result }
{
    if x < 10 {
        return put_byte(out, at, glyph(x));
    }
    let next = put_decimal(out, at, x / 10);
    put_byte(out, next, glyph(x % 10))
}

// Each number in decimal behind a comma.
fn put_commaed(out: &mut [u8], at: usize, numbers: &[u8]) -> usize
    requires { at + length (commaed numbers.now) ≤ length out.old }
    ensures { Wrote out.old at (commaed numbers.now) out.new result }
{
    let mut next = at;
    for number in numbers {
        next = put_byte(out, next, b',');
        next = put_decimal(out, next, u32::from(*number));
    }
    next
}

// Numbers in decimal, joined by commas.
pub fn put_joined(out: &mut [u8], at: usize, numbers: &[u8]) -> usize
    requires { at + length (joined numbers.now) ≤ length out.old }
    ensures { Wrote out.old at (joined numbers.now) out.new result }
{
    let Some((first, others)) = numbers.split_first() else {
        return at;
    };
    let next = put_decimal(out, at, u32::from(*first));
    put_commaed(out, next, others)
}

// A line `key=x`; the key has its equals sign.
pub fn put_number_line(out: &mut [u8], at: usize, key: &[u8], x: u32) -> usize
    requires { at + length (key_line key.now (decimal x)) ≤ length out.old }
    ensures { Wrote out.old at (key_line key.now (decimal x)) out.new result }
{
    let value = put_bytes(out, at, key);
    let end = put_decimal(out, value, x);
    put_byte(out, end, b'\n')
}

// A line `key=a,b,..`.
pub fn put_list_line(out: &mut [u8], at: usize, key: &[u8], numbers: &[u8]) -> usize
    requires { at + length (key_line key.now (joined numbers.now)) ≤ length out.old }
    ensures { Wrote out.old at (key_line key.now (joined numbers.now)) out.new result }
{
    let value = put_bytes(out, at, key);
    let end = put_joined(out, value, numbers);
    put_byte(out, end, b'\n')
}
