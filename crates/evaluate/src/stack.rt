// The stack of values with which rows are evaluated: it takes any number of them, and those for which there is no room
// are undefined.
ghost use Rattle.std.specs.Prelude.{◌≡◌, ◌+◌, ◌^◌, ◌<◌, [], length};
ghost use Rattle.evaluate.specs.Machine.{ROOM, top, under, pushed};

use operators::Scalar;
use std::marker::Model;
use stored::{put_value, value_at};

// How many values there is room for. No expression of an accepted source needs more than 298.
const CAPACITY: usize = 320;

// The first `height` values, the last of them on top.
#[derive(Drop)]
pub struct Stack {
    values: [Scalar; CAPACITY],
    height: usize,
}

impl Model for Stack {
    ghost use Rattle.std.specs.Prelude.{◌≡◌, List, length};
    ghost use Rattle.operators.specs.declared.Scalar.{Scalar};

    ghost Value = { List Scalar };

    ghost use Rattle.evaluate.specs.Machine.{ROOM};
    ghost use Rattle.evaluate.specs.Lent.{stacked};

    ghost view = { λ a. stacked a.values a.height };

    ghost invariant = { λ a. length a.values ≡ ROOM };
}

impl Stack {
    pub fn new() -> Stack
        ensures { result ≡ [] }
    {
        Stack {
            values: [Scalar::Undefined; CAPACITY],
            height: 0,
        }
    }

    // Puts a value on top.
    pub fn push(&mut self, v: Scalar)
        requires { length self.old + 1 < 2 ^ 64 }
        ensures { self.new ≡ pushed ROOM v self.old }
    {
        put_value(&mut self.values, self.height, v);
        self.height += 1;
    }

    // Takes the value on top; undefined where there is none.
    pub fn pop(&mut self) -> Scalar
        ensures value { result ≡ top self.old }
        ensures rest { self.new ≡ under self.old }
    {
        if self.height == 0 {
            return Scalar::Undefined;
        }
        self.height -= 1;
        value_at(&self.values, self.height)
    }
}
