// Numbers, rules' names, and the parts of a GUID.
ghost use Rattle.std.specs.Prelude.{◌≡◌, cond, [], suc, ◌+◌, ◌/◌, ◌%◌, ◌^◌, ltb};
ghost use Rattle.answers.specs.Text.{decimal_digits, decimal, rule_name, hex_digits, hex};
ghost use Rattle.spellings.specs.Printed.{Written, Printed};

use crate::output::Output;
use itoa::Buffer;

// The hex digit of a number that has so many digits after it, in lower case.
fn hex_digit(n: u64, later: usize) -> u8
    ensures { result ≡ cond (ltb (n / 16 ^ later % 16) 10) (48 + n / 16 ^ later % 16) (87 + n / 16 ^ later % 16) }
{
    if 16 <= later {
        return b'0';
    }
    b"0123456789abcdef"[(n >> (4 * later)) as usize % 16]
}

impl Output<'_> {
    fn digits(&mut self, n: u64)
        ensures { Written self.old (decimal_digits (suc n) n []) self.new }
    {
        let mut digits = Buffer::new();
        self.write(digits.format(n).as_bytes());
    }

    // The last `width` hex digits of a number.
    fn hex_digits(&mut self, n: u64, width: usize)
        ensures { Written self.old (hex_digits width n) self.new }
    {
        for k in 0..width {
            self.put(hex_digit(n, width - 1 - k));
        }
    }

    // A number, as many decimal digits as it needs.
    pub fn decimal(&mut self, n: u64)
        ensures { Printed self.old (decimal n) self.new }
    {
        self.digits(n);
        self.put(b' ');
    }

    // The name of a rule: R1, R2, ..
    pub fn rule_name(&mut self, n: u64)
        ensures { Printed self.old (rule_name n) self.new }
    {
        self.put(b'R');
        self.digits(n);
        self.put(b' ');
    }

    // A part of a GUID: `0x` and full digits.
    pub fn hex(&mut self, n: u64, width: usize)
        ensures { Printed self.old (hex width n) self.new }
    {
        self.write(b"0x");
        self.hex_digits(n, width);
        self.put(b' ');
    }
}
