// The value of an expression, from its rows (document 02, W-202): operands before operator, so one pass over the rows
// with a stack of values. Total for every table and every range of rows.
#![tactic(auto)]

mod stack;

ghost use Rattle.std.specs.Prelude.{◌≡◌, ◌+◌, ◌^◌, ◌<◌, length};
ghost use Rattle.evaluate.specs.Machine.{ROOM, is_binary, stepped};
ghost use Rattle.evaluate.specs.Lent.{operand_in, value_in};

use operators::{Scalar, combine, constant, negate};
use rows::columns::{A, CODE};
use rows::{cell, codes};
use saved_answers::Answers;
use stack::Stack;
use stored::value_at;

// What operands are worth: the answers, and the values of the rules by their numbers.
#[derive(Clone, Copy)]
pub struct Known<'a> {
    pub answers: Answers<'a>,
    pub rules: &'a [Scalar],
}

impl Known<'_> {
    // The value of an operand by its code and column a; undefined for a row that is no operand.
    fn operand_value(self, code: u64, a: u64) -> Scalar
        ensures { result ≡ operand_in self.entry.answers.saved.now self.entry.answers.gotos.now
            self.entry.answers.checkboxes.now self.entry.rules.now code a }
    {
        match code {
            codes::NUMBER => Scalar::Number(a),
            codes::QUESTION_REF => self.answers.value_of(a),
            codes::RULE_REF => value_at(self.rules, a as usize),
            _ => constant(code),
        }
    }
}

// Whether a row of this code is an operator of two operands. Their codes are three runs of numbers.
fn is_binary(code: u64) -> bool
    ensures { result ≡ is_binary code }
{
    matches!(
        code,
        codes::AND..=codes::OR | codes::EQUAL..=codes::BITWISE_OR | codes::SHIFT_LEFT..=codes::MODULO
    )
}

// A row of this code, with v for its value if it is an operand.
fn step(stack: &mut Stack, code: u64, v: Scalar)
    requires { length stack.old + 1 < 2 ^ 64 }
    ensures { stack.new ≡ stepped ROOM code v stack.old }
{
    if code == codes::NOT {
        let operand = stack.pop();
        stack.push(negate(operand));
    } else if is_binary(code) {
        let right = stack.pop();
        let left = stack.pop();
        stack.push(combine(code, left, right));
    } else {
        stack.push(v);
    }
}

// The value of the expression in the rows from first to before end.
pub fn evaluate(table: &[u64], first: usize, end: usize, known: Known) -> Scalar
    ensures { result ≡ value_in known.entry.answers.saved.now known.entry.answers.gotos.now
        known.entry.answers.checkboxes.now known.entry.rules.now table.now first end }
{
    let mut stack = Stack::new();
    for row in first..end {
        let code = cell(table, row, CODE);
        let v = known.operand_value(code, cell(table, row, A));
        step(&mut stack, code, v);
    }
    stack.pop()
}
