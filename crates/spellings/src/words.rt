// Signs and reserved words.
ghost use Rattle.std.specs.Prelude.{cond, []};
ghost use Rattle.answers.specs.Text.{lexeme};
ghost use Rattle.spellings.specs.Printed.{Printed, PrintedBefore};

use crate::output::Output;
use crate::spelling::spelling;

impl Output<'_> {
    // A sign or a reserved word, by its class, and what stands after it.
    pub fn word(&mut self, class: u8)
        ensures { Printed self.old (lexeme class) self.new }
    {
        self.write(spelling(class));
    }

    // The same where it is there.
    pub fn word_if(&mut self, there: bool, class: u8)
        ensures { Printed self.old (cond there (lexeme class) []) self.new }
    {
        if there {
            self.word(class);
        }
    }

    // The same before what is written.
    pub fn word_before(&mut self, class: u8)
        ensures { PrintedBefore self.old (lexeme class) self.new }
    {
        self.write_before(spelling(class));
    }
}
