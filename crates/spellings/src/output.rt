// A lent output, and bytes that are added to it.
ghost use Rattle.std.specs.Prelude.{◌≡◌, [], ◌∷◌};
ghost use Rattle.spellings.specs.Printed.{Written, WrittenBefore};

// An output with the count of its bytes so far: they are written where they fit, and all are counted. An output that is
// written from its end has the count of the bytes before.
#[derive(Drop)]
pub struct Output<'a> {
    pub bytes: &'a mut [u8],
    pub at: usize,
}

impl Output<'_> {
    // A byte more.
    pub fn put(&mut self, byte: u8)
        ensures { Written self.old (byte ∷ []) self.new }
    {
        if self.at < self.bytes.len() {
            self.bytes[self.at] = byte;
        }
        self.at = self.at.saturating_add(1);
    }

    // The bytes of a text. They are copied one by one, so that the archive for C needs no `memmove` from outside.
    pub fn write(&mut self, text: &[u8])
        ensures { Written self.old text.now self.new }
    {
        let room = self.bytes.len();
        let next = self.at.saturating_add(text.len());
        let start = self.at.min(room);
        let end = next.min(room);
        let space = &mut self.bytes[start..end];
        for (k, slot) in space.iter_mut().enumerate() {
            *slot = text[k];
        }
        self.at = next;
    }

    // The bytes of a text before those that are written; the count then is that of the bytes before them.
    pub fn write_before(&mut self, text: &[u8])
        ensures { WrittenBefore self.old text.now self.new }
    {
        let start = self.at.saturating_sub(text.len());
        self.at = start;
        self.write(text);
        self.at = start;
    }
}
