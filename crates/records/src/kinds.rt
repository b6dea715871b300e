// The kinds of records, each with its number and its length.

ghost use Rattle.std.specs.Prelude.{◌≡◌, ◌≤◌, length};
ghost use Rattle.little_endian.specs.Bytes.{le16};
ghost use Rattle.records.specs.Layout.{kind_at};
ghost use Rattle.records.specs.Kinds.{due_as, length_of, row_kind, Numbered};

use crate::{Due, layout};

#[derive(Clone, Copy, Debug, PartialEq, Eq)]
pub enum RowKind {
    Scalar,
    Corotational,
    NeoHookean,
}

#[derive(Clone, Copy, Debug, PartialEq, Eq)]
pub enum Kind {
    Head,
    Point,
    Row(RowKind),
}

// A number that no kind has.
#[derive(Clone, Copy, Debug, PartialEq, Eq)]
pub struct UnknownKind(pub u16);

impl TryFrom<u16> for Kind {
    type Error = UnknownKind;

    ghost try_from_gives = { Numbered };

    fn try_from(number: u16) -> Result<Kind, UnknownKind> {
        match number {
            1 => Ok(Kind::Head),
            2 => Ok(Kind::Point),
            3 => Ok(Kind::Row(RowKind::Scalar)),
            4 => Ok(Kind::Row(RowKind::Corotational)),
            5 => Ok(Kind::Row(RowKind::NeoHookean)),
            _ => Err(UnknownKind(number)),
        }
    }
}

impl Kind {
    // How many bytes follow the length itself.
    pub fn length(self) -> u32
        ensures { result ≡ length_of self }
    {
        match self {
            Kind::Head => 22,
            Kind::Point => 26,
            Kind::Row(RowKind::Scalar) => 178,
            Kind::Row(RowKind::Corotational) => 614,
            Kind::Row(RowKind::NeoHookean) => 674,
        }
    }

    // Where it may stand.
    pub fn due(self) -> Due
        ensures { result ≡ due_as self }
    {
        match self {
            Kind::Head => Due::Head,
            Kind::Point => Due::Point,
            Kind::Row(_) => Due::Row,
        }
    }
}

impl RowKind {
    // That of a row's bytes. In an accepted frame the one number left is 5. By a match of its own: `Kind::try_from` would give cases that
    // no caller has.
    pub fn of(b: &[u8]) -> RowKind
        requires { 6 ≤ length b.now }
        ensures { result ≡ row_kind (le16 b.now kind_at) }
    {
        match little_endian::get_u16(b, layout::KIND_AT) {
            3 => RowKind::Scalar,
            4 => RowKind::Corotational,
            _ => RowKind::NeoHookean,
        }
    }
}
