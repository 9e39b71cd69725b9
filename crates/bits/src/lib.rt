// Sets of positions 0 to 63, held in a u64. No type of its own: records, rows and specs/ hold such a set as a number, so a type would be unwrapped at each use.
#![tactic(auto)]

ghost use Rattle.std.specs.Prelude.{◌≡◌};
ghost use Rattle.bits.specs.Bits.{member, insert, intersection, difference, subset, lowest, count};

// Whether p is a member; a position above 63 never is.
pub fn member(x: u64, p: usize) -> bool
    ensures { result ≡ member x p }
{
    if p < 64 { (x >> p) % 2 == 1 } else { false }
}

// The set with p; a position above 63 leaves it as it is.
pub fn insert(x: u64, p: usize) -> u64
    ensures { result ≡ insert x p }
{
    if p < 64 { x | (1u64 << p) } else { x }
}

// The members of both sets.
pub fn intersection(a: u64, b: u64) -> u64
    ensures { result ≡ intersection a b }
{
    a & b
}

// The members of a that are not members of b.
pub fn difference(a: u64, b: u64) -> u64
    ensures { result ≡ difference a b }
{
    a & !b
}

// Whether every member of a is one of b.
pub fn subset(a: u64, b: u64) -> bool
    ensures { result ≡ subset a b }
{
    a & b == a
}

// The lowest member, or 64 where the set is empty.
pub fn lowest(x: u64) -> u32
    ensures { result ≡ lowest x }
{
    x.trailing_zeros()
}

// How many members there are.
pub fn count(x: u64) -> u32
    ensures { result ≡ count x }
{
    x.count_ones()
}
