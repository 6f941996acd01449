// Integer text: read and written once for all uses, and signed sums.
ghost use Rattle.std.specs.Prelude.{◌≡◌, false, ◌≤◌, length, ◌+ℤ◌, option_map};
ghost use Rattle.std.specs.Int.Signed.{le_z};
ghost use Rattle.wire.specs.Lists.{only_if};
ghost use Rattle.wire.specs.Integers.{read_natural, read_integer, lowest64, highest64, within, natural_text, integer_text};
ghost use Rattle.wire.specs.Promises.{signed_for, integer_of, Laid};

// The largest magnitude of a negative number of signed 64 bits.
const LOWEST: u64 = 9223372036854775808;

// An integer as sign and magnitude; 0 has no sign.
#[derive(Clone, Copy)]
pub struct Signed {
    pub negative: bool,
    pub magnitude: u64,
}

// A natural number as an integer.
impl From<u64> for Signed {
    ghost from_gives = { λ n z. z ≡ record { negative = false; magnitude = n } };

    fn from(natural: u64) -> Signed {
        Signed {
            negative: false,
            magnitude: natural,
        }
    }
}

// A plain integer from 0 to `most`; any other text is refused, whatever its length.
pub fn read_natural(s: &[u8], most: u64) -> Option<u64>
    ensures { result ≡ read_natural most s.now }
{
    if s.len() == 0 {
        return None;
    }
    if s[0] == 48 && 1 < s.len() {
        return None;
    }
    let mut n: u64 = 0;
    for c in s {
        if !c.is_ascii_digit() {
            return None;
        }
        let d = (*c - b'0') as u64;
        if most < d || (most - d) / 10 < n {
            return None;
        }
        n = n * 10 + d;
    }
    Some(n)
}

// A plain integer of signed 64 bits.
#[tactic(auto, using(crate::proofs::IntegerSigns::minus_zero, crate::proofs::IntegerSigns::minus_value))]
pub fn read_integer(s: &[u8]) -> Option<Signed>
    ensures { result ≡ option_map signed_for (read_integer lowest64 highest64 s.now) }
{
    if s.is_empty() {
        return None;
    }
    if s[0] != 45 {
        let magnitude = read_natural(s, LOWEST - 1)?;
        return Some(Signed {
            negative: false,
            magnitude,
        });
    }
    let n = read_natural(&s[1..], LOWEST)?;
    if n == 0 {
        return None;
    }
    Some(Signed {
        negative: true,
        magnitude: n,
    })
}

// Writes a number's text, its digits before the last one first.
fn write_digits(n: u64, out: &mut [u8]) -> usize
    requires { length (natural_text n) ≤ length out.old }
    ensures { Laid (natural_text n) out.old out.new result }
{
    if n < 10 {
        out[0] = (48 + n) as u8;
        return 1;
    }
    let at = write_digits(n / 10, out);
    out[at] = (48 + n % 10) as u8;
    at + 1
}

// Writes a number's text at the start of `out`, and answers its length. One and two digits, the lengths of most words, are written at once.
pub fn write_natural(n: u64, out: &mut [u8]) -> usize
    requires { length (natural_text n) ≤ length out.old }
    ensures { Laid (natural_text n) out.old out.new result }
{
    if n < 10 {
        out[0] = (48 + n) as u8;
        return 1;
    }
    if n < 100 {
        out[0] = (48 + n / 10) as u8;
        out[1] = (48 + n % 10) as u8;
        return 2;
    }
    write_digits(n, out)
}

// Writes an integer's text at the start of `out`, and answers its length.
pub fn write_integer(z: Signed, out: &mut [u8]) -> usize
    requires { length (integer_text (integer_of z)) ≤ length out.old }
    ensures { Laid (integer_text (integer_of z)) out.old out.new result }
{
    if z.negative && 0 < z.magnitude {
        out[0] = 45;
        return write_natural(z.magnitude, &mut out[1..]) + 1;
    }
    write_natural(z.magnitude, out)
}

// The sum of two integers, refused where it lies outside signed 64 bits.
pub fn add(a: Signed, b: Signed) -> Option<Signed>
    ensures { result ≡ option_map signed_for (only_if (within lowest64 highest64 (integer_of a +ℤ integer_of b)) (integer_of a +ℤ integer_of b)) }
{
    if a.negative == b.negative {
        if LOWEST < a.magnitude || LOWEST - a.magnitude < b.magnitude {
            return None;
        }
        return bounded(a.negative, a.magnitude + b.magnitude);
    }
    if b.magnitude <= a.magnitude {
        return bounded(a.negative, a.magnitude - b.magnitude);
    }
    bounded(b.negative, b.magnitude - a.magnitude)
}

// The integer of a sign and a magnitude, refused where it lies outside signed 64 bits.
fn bounded(negative: bool, magnitude: u64) -> Option<Signed>
    ensures { let z = integer_of (record { negative = negative; magnitude = magnitude }) in
        result ≡ option_map signed_for (only_if (within lowest64 highest64 z) z) }
{
    if magnitude == 0 {
        return Some(Signed {
            negative: false,
            magnitude: 0,
        });
    }
    if negative {
        if LOWEST < magnitude {
            return None;
        }
        return Some(Signed {
            negative: true,
            magnitude,
        });
    }
    if LOWEST - 1 < magnitude {
        return None;
    }
    Some(Signed {
        negative: false,
        magnitude,
    })
}

// Whether an integer is at most another.
pub fn at_most(a: Signed, b: Signed) -> bool
    ensures { result ≡ le_z (integer_of a) (integer_of b) }
{
    if a.negative != b.negative {
        return a.negative || (a.magnitude == 0 && b.magnitude == 0);
    }
    if a.negative {
        return b.magnitude <= a.magnitude;
    }
    a.magnitude <= b.magnitude
}
