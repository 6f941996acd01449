// One line of the listing.
ghost use Rattle.std.specs.Prelude.{◌≤◌, length};
ghost use Rattle.wire.specs.Promises.{Laid};
ghost use Rattle.compare.specs.Listing.{spaced};
ghost use Rattle.compare.specs.Promises.{marked};

use wire::integers::write_natural;

// A space and a number.
fn put_spaced(n: usize, out: &mut [u8]) -> usize
    requires { length (spaced n) ≤ length out.old }
    ensures { Laid (spaced n) out.old out.new result }
{
    out[0] = b' ';
    write_natural(n as u64, &mut out[1..]) + 1
}

// A line: its mark, two lengths and a slot number.
pub fn put_line(mark: u8, key: usize, field: usize, slot: usize, out: &mut [u8]) -> usize
    requires { length (marked mark key field slot) ≤ length out.old }
    ensures { Laid (marked mark key field slot) out.old out.new result }
{
    out[0] = mark;
    let at = put_spaced(key, &mut out[1..]) + 1;
    let next = put_spaced(field, &mut out[at..]) + at;
    let last = put_spaced(slot, &mut out[next..]) + next;
    out[last] = b'\n';
    last + 1
}
