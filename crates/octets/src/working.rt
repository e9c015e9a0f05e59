// The caller's sixteen working bytes, lent to a call that recovers a secret. The guard's end writes zeros over them,
// on every way out of the call. That they are still the caller's is said at each call: it is a fact of the call,
// and not of the value.
ghost use Rattle.std.specs.Prelude.{◌≡◌, replicate};

use crate::block::Block;

pub struct Working<'a> {
    bytes: &'a mut Block,
}

impl<'a> Working<'a> {
    pub fn over(bytes: &'a mut Block) -> Working<'a>
        ensures held { result.bytes.now ≡ bytes.old }
        ensures lent { result.bytes.ghost_name ≡ bytes.entry.ghost_name }
    {
        Working { bytes }
    }

    // Puts a secret there.
    pub fn put(&mut self, secret: Block)
        ensures held { self.new.bytes.now ≡ secret }
        ensures lent { self.new.bytes.ghost_name ≡ self.old.bytes.ghost_name }
    {
        *self.bytes = secret;
    }

    pub fn secret(&self) -> &Block
        ensures { result.now ≡ self.now.bytes.now }
    {
        self.bytes
    }
}

impl Drop for Working<'_> {
    fn drop(self)
        ensures { self.exit.0.now ≡ replicate 16 0 }
    {
        *self.bytes = [0; 16];
        let Working { bytes: _ } = self;
    }
}
