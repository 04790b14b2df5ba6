// Values of expressions (document 02, W-202): operators by their codes, and constants.
#![tactic(auto)]

ghost use Rattle.std.specs.Prelude.{◌≡◌, ◌*◌, ◌%◌, ◌^◌, MatchOption};
ghost use Rattle.operators.specs.declared.Scalar.TheVariants.{Number, Undefined};
ghost use Rattle.operators.specs.Values.{shifted_left, shifted_right, operation_of, combined, negated, constant_of};

use rows::codes;

// TRUE or FALSE, an unsigned 64-bit number, or undefined. `Undefined` stands first, so that its bytes are zeros: arrays of
// it are then filled by one memset, as `evaluate` does for each expression.
#[derive(Clone, Copy, Debug, PartialEq, Eq)]
pub enum Scalar {
    Undefined,
    Boolean(bool),
    Number(u64),
}

// 2^32: a number of 64 bits has a lower and an upper half below it.
const HALF: u64 = 4294967296;

// How many bits a number has: a shift by so many or more leaves none.
const BITS: u64 = 64;

// The program's own wrapping multiply: the low 64 bits of a * b.
// Stays: document 01, "The shape of some places", wants it in place of std's `wrapping_mul`.
// By halves of 32 bits: the product of the upper halves counts 2^64 times, so nothing of it is left; of the products of
// an upper and a lower half, which count 2^32 times, the low 32 bits are.
pub fn wrapping_mul(a: u64, b: u64) -> u64
    ensures { result ≡ a * b % 2 ^ 64 }
{
    let a0 = a % HALF;
    let a1 = a / HALF;
    let b0 = b % HALF;
    let b1 = b / HALF;
    let cross = (a1 * b0).wrapping_add(a0 * b1);
    (cross % HALF * HALF).wrapping_add(a0 * b0)
}

// a shifted left by n, its low 64 bits; 0 from 64 on.
#[tactic(auto, unfolding(crate::specs::Values::shifted_left))]
fn shift_left(a: u64, n: u64) -> u64
    ensures { result ≡ shifted_left a n }
{
    if n < BITS { a << n } else { 0 }
}

// a shifted right by n; 0 from 64 on.
#[tactic(auto, unfolding(crate::specs::Values::shifted_right))]
fn shift_right(a: u64, n: u64) -> u64
    ensures { result ≡ shifted_right a n }
{
    if n < BITS { a >> n } else { 0 }
}

// A number, or undefined where there is none: of a quotient or remainder, for a zero divisor.
fn defined(number: Option<u64>) -> Scalar
    ensures { MatchOption number (result ≡ Undefined) (λ n. result ≡ Number n) }
{
    match number {
        Some(n) => Scalar::Number(n),
        None => Scalar::Undefined,
    }
}

// What an operator makes of two booleans: logic and equality.
#[tactic(auto, unfolding(crate::specs::Values::found, crate::specs::Values::operations))]
fn of_booleans(code: u64, a: bool, b: bool) -> Scalar
    ensures { result ≡ (operation_of code).booleans a b }
{
    match code {
        codes::OR => Scalar::Boolean(a | b),
        codes::AND => Scalar::Boolean(a & b),
        codes::EQUAL => Scalar::Boolean(a == b),
        codes::NOT_EQUAL => Scalar::Boolean(a != b),
        _ => Scalar::Undefined,
    }
}

// What an operator makes of two numbers: bits, equality, order, shifts and arithmetic, with wrapping add, subtract and multiply.
#[tactic(auto, unfolding(crate::specs::Values::found, crate::specs::Values::operations, crate::specs::Values::sum, crate::specs::Values::product))]
fn of_numbers(code: u64, a: u64, b: u64) -> Scalar
    ensures { result ≡ (operation_of code).numbers a b }
{
    match code {
        codes::BITWISE_OR => Scalar::Number(a | b),
        codes::BITWISE_AND => Scalar::Number(a & b),
        codes::EQUAL => Scalar::Boolean(a == b),
        codes::NOT_EQUAL => Scalar::Boolean(a != b),
        codes::GREATER_THAN => Scalar::Boolean(a > b),
        codes::GREATER_EQUAL => Scalar::Boolean(a >= b),
        codes::LESS_THAN => Scalar::Boolean(a < b),
        codes::LESS_EQUAL => Scalar::Boolean(a <= b),
        codes::SHIFT_LEFT => Scalar::Number(shift_left(a, b)),
        codes::SHIFT_RIGHT => Scalar::Number(shift_right(a, b)),
        codes::ADD => Scalar::Number(a.wrapping_add(b)),
        codes::SUBTRACT => Scalar::Number(a.wrapping_sub(b)),
        codes::MULTIPLY => Scalar::Number(wrapping_mul(a, b)),
        codes::DIVIDE => defined(a.checked_div(b)),
        codes::MODULO => defined(a.checked_rem(b)),
        _ => Scalar::Undefined,
    }
}

// What the binary operator of this code makes of its operands; undefined for every other code.
#[tactic(auto, unfolding(crate::specs::Values::applied))]
pub fn combine(code: u64, l: Scalar, r: Scalar) -> Scalar
    ensures { result ≡ combined code l r }
{
    match (l, r) {
        (Scalar::Boolean(a), Scalar::Boolean(b)) => of_booleans(code, a, b),
        (Scalar::Number(a), Scalar::Number(b)) => of_numbers(code, a, b),
        _ => Scalar::Undefined, // `TRUE OR UNDEFINED` too
    }
}

// What `NOT` makes of its operand.
#[tactic(auto, unfolding(crate::specs::Values::negated))]
pub fn negate(w: Scalar) -> Scalar
    ensures { result ≡ negated w }
{
    match w {
        Scalar::Boolean(a) => Scalar::Boolean(!a),
        Scalar::Number(_) | Scalar::Undefined => Scalar::Undefined,
    }
}

// The constant of this code; undefined for every other code.
#[tactic(auto, unfolding(crate::specs::Values::found, crate::specs::Values::constants))]
pub fn constant(code: u64) -> Scalar
    ensures { result ≡ constant_of code }
{
    match code {
        codes::TRUE => Scalar::Boolean(true),
        codes::FALSE => Scalar::Boolean(false),
        codes::ZERO => Scalar::Number(0),
        codes::ONE => Scalar::Number(1),
        codes::ONES => Scalar::Number(u64::MAX),
        _ => Scalar::Undefined,
    }
}
