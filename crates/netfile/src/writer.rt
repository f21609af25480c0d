// A buffer that is written from its front on.
ghost use Rattle.std.specs.Prelude.{◌≡◌, ◌+◌, ◌≤◌, length};
ghost use Rattle.netfile.specs.Writes.{Put};

// What is written stands before `end`. (Each call ensures that it is the same buffer still: of a `&mut` in a struct,
// that has to be said.)
#[derive(Drop)]
pub(crate) struct Writer<'a> {
    pub(crate) buffer: &'a mut [u8],
    pub(crate) end: usize,
}

impl Writer<'_> {
    // Writes these bytes behind those that are written.
    pub(crate) fn put(&mut self, bytes: &[u8])
        requires { self.old.end + length bytes.now ≤ length self.old.buffer.now }
        ensures same { self.new.buffer.ghost_name ≡ self.old.buffer.ghost_name }
        ensures put { Put self.old.end bytes.now self.old.buffer.now self.new.end self.new.buffer.now }
    {
        let end = self.end + bytes.len();
        let buffer = &mut *self.buffer;
        buffer[self.end..end].copy_from_slice(bytes);
        self.end = end;
    }
}
