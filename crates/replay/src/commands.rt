// The commands of a run of bytes, one after the other.
ghost use Rattle.std.specs.Prelude.{length};
ghost use Rattle.std.specs.Iterator.{at_most};

// Tag and length.
pub(crate) const HEADER: usize = 3;

#[derive(Clone, Copy)]
pub(crate) struct Command<'a> {
    pub tag: u8,
    // From its tag on, with those of the commands after it.
    pub bytes: &'a [u8],
}

// The bytes of the commands to come.
#[derive(Drop)]
pub(crate) struct Commands<'a>(pub &'a [u8]);

impl<'a> Iterator for Commands<'a> {
    type Item = Command<'a>;

    ghost remaining = { λ s. at_most (length s.0.now) };

    // No content here takes 256 bytes.
    fn next(&mut self) -> Option<Command<'a>> {
        let bytes = self.0;
        let [tag, _, size, ..] = bytes else {
            return None;
        };
        self.0 = bytes.get(HEADER + *size as usize..).unwrap_or(&[]);
        Some(Command { tag: *tag, bytes })
    }
}
