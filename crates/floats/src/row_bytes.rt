// The bytes of a row's record.
ghost use Rattle.std.specs.Prelude.{◌≡◌, ◌+◌, ◌*◌, ◌%◌, ◌≤◌, length};
ghost use Rattle.little_endian.specs.Bytes.{le16};
ghost use Rattle.floats.specs.Written.{AllWritten};

use crate::Field;

// A record of at least N bytes, whose floats are as they are put: what each reader of a row's fields needs to know of them.
#[derive(Clone, Copy)]
pub struct RowBytes<'a, const N: usize> {
    pub bytes: &'a [u8],
    pub ghost long: { N ≤ length bytes.now },
    pub ghost written: { AllWritten bytes.now },
}

impl<'a, const N: usize> RowBytes<'a, N> {
    // The field at k.
    pub fn get<T: Field>(self, k: usize) -> T
        requires first { 30 ≤ k }
        requires turn { k % 4 ≡ 2 }
        requires inside { k + 4 * T.floats ≤ N }
        ensures { result ≡ T.read self.entry.bytes.now k }
    {
        T::get(self.bytes, k)
    }

    pub fn get_u16(self, k: usize) -> u16
        requires { k + 2 ≤ N }
        ensures { result ≡ le16 self.entry.bytes.now k }
    {
        little_endian::get_u16(self.bytes, k)
    }

    // The same record, where fewer bytes are asked for.
    pub fn at_least<const M: usize>(self) -> RowBytes<'a, M>
        requires { M ≤ N }
        ensures { result.bytes.now ≡ self.entry.bytes.now }
    {
        RowBytes { bytes: self.bytes }
    }
}
