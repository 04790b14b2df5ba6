// Numbers of 1, 2, 4 or 8 bytes, unsigned and signed (document 02, W-204 and W-207). A size that is none of these counts as 8,
// which is what a numeric without a size has. Of a number that does not fit its size, the signed functions take the low bytes.
#![tactic(auto)]

ghost use Rattle.std.specs.Prelude.{◌≡◌, ◌^◌, ◌≤◌, ◌<◌};
ghost use Rattle.sizes.specs.Sizes as sizes;
ghost use Rattle.sizes.specs.Biased.{biased};

// Half of the numbers of a size: those from here on have their top bit set.
#[tactic(auto, unfolding(crate::specs::Sizes::width, crate::specs::Sizes::half))]
fn half(size: u64) -> u64
    ensures value { result ≡ sizes.half (sizes.width size) }
    ensures result_nonzero { (0 < result) × (result ≤ 2 ^ 63) }
{
    match size {
        1 => 0x80,
        2 => 0x8000,
        4 => 0x80000000,
        _ => 0x8000000000000000,
    }
}

// x fits the size.
pub fn fits(size: u64, x: u64) -> bool
    ensures { result ≡ sizes.fits (sizes.width size) x }
{
    x / 2 < half(size)
}

// x, as two's complement of the size, is below zero: its top bit is set.
pub fn minus(size: u64, x: u64) -> bool
    ensures { result ≡ sizes.minus (sizes.width size) x }
{
    x / half(size) % 2 == 1
}

// Its distance from zero.
pub fn amount(size: u64, x: u64) -> u64
    ensures { result ≡ sizes.amount (sizes.width size) x }
{
    let h = half(size);
    let rest = x % h;
    if minus(size, x) { h - rest } else { rest }
}

// x plus half of the numbers of the size, wrapped: unsigned, these stand in the order of the signed numbers.
fn bias(size: u64, x: u64) -> u64
    ensures { result ≡ biased (sizes.width size) x }
{
    let h = half(size);
    let rest = x % h;
    if minus(size, x) { rest } else { h + rest }
}

// x is below y, in the signed order of the size or in the unsigned one.
pub fn below(size: u64, signed: bool, x: u64, y: u64) -> bool
    ensures { result ≡ sizes.below (sizes.width size) signed x y }
{
    if signed {
        bias(size, x) < bias(size, y)
    } else {
        x < y
    }
}
