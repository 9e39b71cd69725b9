// Words, shortest decimals and lines of tab-parted fields, written into a lent buffer.
#![tactic(auto)]

ghost use Rattle.std.specs.Prelude.{◌≡◌, ℕ, List, ◌+◌, ◌≤◌, length};
ghost use Rattle.text.specs.Decimal.{decimal, signed_decimal};
ghost use Rattle.text.specs.Limits.{digits_max};
ghost use Rattle.text.specs.Lines.{field, Wrote};

// The limit of specs/Limits.antt, under the same name.
pub const DIGITS_MAX: usize = 20;

// ---- Each caller has seen that the bytes fit behind the place, hence the `requires`. The answer is the place behind them.

// Writes a run of bytes.
pub fn write_bytes(out: &mut [u8], at: usize, run: &[u8]) -> usize
    requires { at + length run.now ≤ length out.old }
    ensures { Wrote run.now out.old at result out.new }
{
    numbers::copy(out, at, run);
    at + run.len()
}

// Writes the shortest decimal of a number, which is spelled at the end of an array first. The loop counts no index: it takes the number apart until one digit is left.
fn write_decimal(out: &mut [u8], at: usize, x: u64) -> usize
    requires { at + length (decimal x) ≤ length out.old }
    ensures { Wrote (decimal x) out.old at result out.new }
{
    let mut digits = [0u8; DIGITS_MAX];
    let mut rest = x;
    let mut start: usize = DIGITS_MAX - 1;
    while 10 <= rest {
        digits[start] = b'0' + (rest % 10) as u8;
        rest = rest / 10;
        start -= 1;
    }
    digits[start] = b'0' + rest as u8;
    write_bytes(out, at, &digits[start..])
}

// What a field can hold: bytes as they are, a number or a signed number as its shortest decimal.
pub trait Text: Copy {
    ghost text: { Self → List ℕ };

    fn write(self, out: &mut [u8], at: usize) -> usize
        requires { at + length (text self) ≤ length out.old }
        ensures { Wrote (text self) out.old at result out.new };
}

impl<'a> Text for &'a [u8] {
    ghost text = { λ run. run.now };

    fn write(self, out: &mut [u8], at: usize) -> usize {
        write_bytes(out, at, self)
    }
}

impl<'a, const N: usize> Text for &'a [u8; N] {
    ghost text = { λ run. run.now };

    fn write(self, out: &mut [u8], at: usize) -> usize {
        write_bytes(out, at, self)
    }
}

impl Text for u64 {
    ghost text = { decimal };

    fn write(self, out: &mut [u8], at: usize) -> usize {
        write_decimal(out, at, self)
    }
}

impl Text for i64 {
    ghost text = { signed_decimal };

    fn write(self, out: &mut [u8], at: usize) -> usize {
        let magnitude = numbers::magnitude(self);
        if self < 0 {
            let next = write_bytes(out, at, b"-");
            return write_decimal(out, next, magnitude);
        }
        write_decimal(out, at, magnitude)
    }
}

// Writes a field behind a tab.
pub fn write_field<T: Text>(out: &mut [u8], at: usize, x: T) -> usize
    requires { at + length (field (T.text x)) ≤ length out.old }
    ensures { Wrote (field (T.text x)) out.old at result out.new }
{
    let next = write_bytes(out, at, b"\t");
    x.write(out, next)
}
