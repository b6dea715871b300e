// The words of a record.
ghost use Rattle.std.specs.Prelude.{◌≡◌, ◌+◌, ◌*◌, ◌≤◌, length};
ghost use Rattle.replay.specs.Words.{words_of};

use crate::InWords;

// A record's bytes: a value is read from its words where it is asked for.
#[derive(Clone, Copy)]
pub struct Record<'a> {
    pub bytes: &'a [u8],
}

impl Record<'_> {
    // The value that stands from word k on.
    pub fn at<T: InWords>(self, k: usize) -> T
        requires { 4 * (k + T.WORDS) ≤ length self.bytes.now }
        ensures { result ≡ T.value_of (words_of self.entry.bytes.now) k }
    {
        T::read(self.bytes, k)
    }

    // Whether x is what stands from word k on.
    pub fn holds<T: InWords>(self, k: usize, x: T) -> bool
        requires { 4 * (k + T.WORDS) ≤ length self.bytes.now }
        ensures { result ≡ T.is_stored (words_of self.entry.bytes.now) k x }
    {
        x.is_at(self.bytes, k)
    }
}
