//! Readers of a text: keys, decimal numbers and line numbers.
ghost use Rattle.std.specs.Prelude.{◌≡◌, ◌+◌, ◌-◌, ◌*◌, ◌≤◌, ◌<◌, min};
ghost use Rattle.text.specs.Scan.{canonical, key_at, number_at, first_number, cap, line_at};

// The index just past the key, if it stands at index `at`.
pub fn key_at(s: &[u8], at: usize, key: &[u8]) -> Option<usize>
    ensures { result ≡ key_at s.now at key.now }
{
    let rest = &s[at.min(s.len())..];
    if rest.starts_with(key) {
        Some(at + key.len())
    } else {
        None
    }
}

// Whether `count` digits, of which this is the first, write a number: there is one, and no leading zero.
#[tactic(auto, unfolding(crate::specs::Scan::canonical))]
fn canonical(first: u8, count: usize) -> bool
    ensures { result ≡ canonical first count }
{
    count != 0 && (first != b'0' || count == 1)
}

// One digit more, held at 4,000,000,000.
fn append_digit(v: u32, b: u8) -> u32
    requires { (48 ≤ b) × (b ≤ 57) }
    ensures { result ≡ min (v * 10 + (b - 48)) 4000000000 }
{
    if v < 400000000 {
        v * 10 + u32::from(b - b'0')
    } else {
        4000000000
    }
}

// The decimal number at index `at`, of any digit count, ended by the byte `end`, with the index just past that. Its value is held
// at 4,000,000,000.
pub fn number_at(s: &[u8], at: usize, end: u8) -> Option<(u32, usize)>
    ensures { result ≡ cap (number_at s.now at end) }
{
    let mut v = 0;
    for i in at..s.len() {
        let b = s[i];
        if !b.is_ascii_digit() {
            if b == end && canonical(s[at], i - at) {
                return Some((v, i + 1));
            }
            return None;
        }
        v = append_digit(v, b);
    }
    None
}

// The number behind the key that stands at index `at`.
pub fn number_behind(s: &[u8], at: usize, key: &[u8], end: u8) -> Option<(u32, usize)>
    ensures { result ≡ cap (first_number s.now (key_at s.now at key.now) end) }
{
    number_at(s, key_at(s, at, key)?, end)
}

// The line, from 1, that begins at index `at`.
pub fn line_at(s: &[u8], at: usize) -> usize
    ensures { result ≡ line_at s.now at }
{
    let before = &s[..at.min(s.len())];
    // A loop: the library's filter and count take five times as long.
    let mut line = 1;
    for b in before {
        if *b == b'\n' {
            line += 1;
        }
    }
    line
}
