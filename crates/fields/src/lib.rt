// The fields of a line, and what a field writes as a number.
#![tactic(auto)]

ghost use Rattle.std.specs.Prelude.{◌≡◌, ◌≤◌, eqb, leb, ◌&&◌, false, true, pos, neg_ℤ, drop, MatchOption};
ghost use Rattle.std.specs.Int.{w16, w32, w64};
ghost use Rattle.fields.specs.Limits.{fields_max};
ghost use Rattle.fields.specs.Fields.{separates, bytes_of, SplitInto, count, part_in, field_in, part_by, field_by};
ghost use Rattle.fields.specs.Numbers.{natural_of, natural, has_sign, integer_of, within, signed, unsigned, below_word};

// The limit of specs/Limits.antt, under the same name.
pub const FIELDS_MAX: usize = 7;

// A part of a line: where it starts and how many bytes it has.
#[derive(Clone, Copy)]
pub struct Part {
    pub from: usize,
    pub len: usize,
}

// The parts of a line, of which the first `count` are set; a line of more than seven has count 8. Anyone may make one: its methods take any line with any parts.
#[derive(Clone, Copy)]
pub struct Parts {
    pub parts: [Part; FIELDS_MAX],
    pub count: usize,
}

// A line and its fields, which are the line's own parts.
#[derive(Clone, Copy)]
pub struct Fields<'a> {
    line: &'a [u8],
    parts: Parts,
    ghost split: { SplitInto line.now parts.parts parts.count },
}

// ---- Parts.

// The bytes of a part of a line, or as many of them as there are.
pub fn bytes_of(line: &[u8], part: Part) -> &[u8]
    ensures { result.now ≡ bytes_of line.now part }
{
    let start = part.from.min(line.len());
    let past = start + part.len.min(line.len() - start);
    &line[start..past]
}

// ---- Fields.

// Tabs and spaces part fields.
fn separates(b: u8) -> bool
    ensures { result ≡ separates b }
{
    b == b'\t' || b == b' '
}

// The fields of a line; no command has more than seven, so the rest of a longer line is not read.
pub fn split(line: &[u8]) -> Fields<'_>
    ensures { result.line.now ≡ line.now }
{
    let mut parts = [Part { from: 0, len: 0 }; FIELDS_MAX];
    let mut count: usize = 0;
    let mut from: usize = 0;
    for (i, b) in line.iter().enumerate() {
        if separates(*b) {
            parts[count] = Part {
                from,
                len: i - from,
            };
            count += 1;
            if count == FIELDS_MAX {
                return Fields {
                    line,
                    parts: Parts {
                        parts,
                        count: FIELDS_MAX + 1,
                    },
                };
            }
            from = i + 1;
        }
    }
    parts[count] = Part {
        from,
        len: line.len() - from,
    };
    Fields {
        line,
        parts: Parts {
            parts,
            count: count + 1,
        },
    }
}

impl Parts {
    // Where field k stands; an empty part past the last field, and past the seventh.
    pub fn part(&self, k: usize) -> Part
        ensures { result ≡ part_by self.now k }
    {
        if FIELDS_MAX <= k || self.count <= k {
            return Part { from: 0, len: 0 };
        }
        self.parts[k]
    }

    // The bytes of field k, of a line with these parts; the part is kept within the line.
    pub fn field<'a>(&self, line: &'a [u8], k: usize) -> &'a [u8]
        ensures { result.now ≡ field_by line.now self.now k }
    {
        bytes_of(line, self.part(k))
    }

    // ---- The number that field k writes, if its type holds it: a function for each type, as one over a trait would be longer by the trait's four impls.

    pub fn signed_16(&self, line: &[u8], k: usize) -> Option<i16>
        ensures { result ≡ signed w16 (field_by line.now self.now k) }
    {
        let number = read_number(self.field(line, k), 0x8000, 0x7fff)?;
        Some(number as i16)
    }

    pub fn signed_32(&self, line: &[u8], k: usize) -> Option<i32>
        ensures { result ≡ signed w32 (field_by line.now self.now k) }
    {
        let number = read_number(self.field(line, k), 0x8000_0000, 0x7fff_ffff)?;
        Some(number as i32)
    }

    pub fn signed_64(&self, line: &[u8], k: usize) -> Option<i64>
        ensures { result ≡ signed w64 (field_by line.now self.now k) }
    {
        let number = read_number(
            self.field(line, k),
            0x8000_0000_0000_0000,
            0x7fff_ffff_ffff_ffff,
        )?;
        Some(number as i64)
    }

    pub fn unsigned_64(&self, line: &[u8], k: usize) -> Option<u64>
        ensures { natural result ≡ unsigned (field_by line.now self.now k) }
    {
        let number = read_number(self.field(line, k), 0, u64::MAX)?;
        Some(number as u64)
    }
}

// The same of a line's own parts.
impl<'a> Fields<'a> {
    // The parts that the line was split into.
    pub fn parts(&self) -> Parts
        ensures { SplitInto self.now.line.now result.parts result.count }
    {
        self.parts
    }

    // Whether the line has n fields, of at most seven.
    pub fn has_exactly(&self, n: usize) -> bool
        ensures { result ≡ (leb n fields_max && eqb (count self.now.line.now) n) }
    {
        n <= FIELDS_MAX && self.parts.count == n
    }

    // Where field k stands; an empty part past the last field, and past the seventh.
    pub fn part(&self, k: usize) -> Part
        ensures { result ≡ part_in self.now.line.now k }
    {
        self.parts.part(k)
    }

    // The bytes of field k.
    pub fn field(&self, k: usize) -> &'a [u8]
        ensures { result.now ≡ field_in self.now.line.now k }
    {
        self.parts.field(self.line, k)
    }

    // ---- The number that field k writes, if its type holds it.

    pub fn signed_16(&self, k: usize) -> Option<i16>
        ensures { result ≡ signed w16 (field_in self.now.line.now k) }
    {
        self.parts.signed_16(self.line, k)
    }

    pub fn signed_32(&self, k: usize) -> Option<i32>
        ensures { result ≡ signed w32 (field_in self.now.line.now k) }
    {
        self.parts.signed_32(self.line, k)
    }

    pub fn signed_64(&self, k: usize) -> Option<i64>
        ensures { result ≡ signed w64 (field_in self.now.line.now k) }
    {
        self.parts.signed_64(self.line, k)
    }

    pub fn unsigned_64(&self, k: usize) -> Option<u64>
        ensures { natural result ≡ unsigned (field_in self.now.line.now k) }
    {
        self.parts.unsigned_64(self.line, k)
    }
}

// ---- Numbers.

// What bytes write in decimal, if that is a number of 64 bits.
fn read_digits(s: &[u8]) -> Option<u64>
    ensures { result ≡ below_word (natural_of s.now) }
{
    if s.is_empty() {
        return None;
    }
    let mut value: u64 = 0;
    for b in s {
        if !b.is_ascii_digit() {
            return None;
        }
        let d = (*b - b'0') as u64;
        value = value.checked_mul(10)?.checked_add(d)?;
    }
    Some(value)
}

// What stands behind a sign, if one stands first.
fn behind_sign(s: &[u8]) -> Option<&[u8]>
    ensures { MatchOption result (has_sign s.now ≡ false) (λ digits. (has_sign s.now ≡ true) × (digits.now ≡ drop 1 s.now)) }
{
    if let [b'-', digits @ ..] = s {
        return Some(digits);
    }
    None
}

// What a run of bytes writes, if it is from −below to most.
pub fn read_number(s: &[u8], below: u64, most: u64) -> Option<i128>
    ensures { result ≡ within (neg_ℤ (pos below)) (pos most) (integer_of s.now) }
{
    if let Some(digits) = behind_sign(s) {
        let n = read_digits(digits)?;
        if below < n {
            return None;
        }
        return Some(-(n as i128));
    }
    let n = read_digits(s)?;
    if most < n {
        return None;
    }
    Some(n as i128)
}
