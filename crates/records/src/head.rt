// The numbers of a frame's head, each read where it is asked for.
ghost use Rattle.std.specs.Prelude.{◌≡◌, ◌≤◌, length};
ghost use Rattle.little_endian.specs.Bytes.{le16, le32, f32_at};
ghost use Rattle.records.specs.Layout as at;

use crate::layout;

// A frame's bytes, or those of its head. Each number has a method under its name, of one line.
#[derive(Clone, Copy)]
pub struct Head<'a> {
    pub bytes: &'a [u8],
    pub ghost long: { 26 ≤ length bytes.now },
}

// `as`: usize has no `From` of u32.
impl Head<'_> {
    // How many points follow.
    pub fn points(self) -> usize
        ensures { result ≡ le32 self.entry.bytes.now at.head_points }
    {
        little_endian::get_u32(self.bytes, layout::HEAD_POINTS) as usize
    }

    // And how many rows.
    pub fn rows(self) -> usize
        ensures { result ≡ le32 self.entry.bytes.now at.head_rows }
    {
        little_endian::get_u32(self.bytes, layout::HEAD_ROWS) as usize
    }

    // Bit 0 update, bit 1 warm.
    pub fn mode(self) -> u16
        ensures { result ≡ le16 self.entry.bytes.now at.head_mode }
    {
        little_endian::get_u16(self.bytes, layout::HEAD_MODE)
    }

    pub fn resweeps(self) -> u16
        ensures { result ≡ le16 self.entry.bytes.now at.head_resweeps }
    {
        little_endian::get_u16(self.bytes, layout::HEAD_RESWEEPS)
    }

    // The coefficient of the warm start.
    pub fn warm(self) -> f32
        ensures { result ≡ f32_at self.entry.bytes.now at.head_warm }
    {
        little_endian::get_f32(self.bytes, layout::HEAD_WARM)
    }

    // The least strain.
    pub fn least(self) -> f32
        ensures { result ≡ f32_at self.entry.bytes.now at.head_least }
    {
        little_endian::get_f32(self.bytes, layout::HEAD_LEAST)
    }
}
