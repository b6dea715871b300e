// The tests of one record's fields.

ghost use Rattle.std.specs.Prelude.{◌≡◌, ℕ, ◌+◌, ◌*◌, ◌≤◌, ◌<◌, length};
ghost use Rattle.little_endian.specs.Bytes.{le16};
ghost use Rattle.records.specs.AllFinite.{all_finite};
ghost use Rattle.records.specs.Answers.{refuse, outcome_from};
ghost use Rattle.records.specs.Fields as spec;
ghost use Rattle.records.specs.Kinds.{number_of_kind, length_of};
ghost use Rattle.records.specs.Layout.{kind_at};
ghost use Rattle.records.specs.Outcomes.{RunsTo};

use crate::{Kind, Refusal, Refused, RowKind, layout};

// The bytes of a record, and the offset in the frame at which they start. How many there are stands in clauses: with a const parameter for
// it the proof did not close, since in an impl with a const parameter no function may have a closure's type as its own, as `run` has;
// each single test would ask for its bound all the same.
#[derive(Clone, Copy)]
pub struct Fields<'a> {
    pub bytes: &'a [u8],
    pub start: usize,
    ghost fits: { start + length bytes.now < 18446744073709551616 },
}

impl Fields<'_> {
    // ---- single tests, of the field at byte k. One line each, named as the rules of specs/Fields are, beside which they are read. That
    // the field lies within the record is asked as an index asks it: a type for k would be taken apart here.

    #[tactic(auto, unfolding(crate::specs::Answers::outcome, crate::specs::Answers::from))]
    fn refuse(&self, bad: bool, why: Refusal, k: usize) -> Result<(), Refused>
        requires { k ≤ length self.now.bytes.now }
        ensures { result ≡ outcome_from self.now.start (refuse why k bad) }
    {
        crate::refuse(bad, why, self.start + k)
    }

    #[tactic(auto, unfolding(crate::specs::Fields::limit16))]
    fn limit16(&self, k: usize, most: u16) -> Result<(), Refused>
        requires { k + 2 ≤ length self.now.bytes.now }
        ensures { result ≡ outcome_from self.now.start (spec.limit16 self.now.bytes.now k most) }
    {
        self.refuse(
            most < little_endian::get_u16(self.bytes, k),
            Refusal::TooMany,
            k,
        )
    }

    #[tactic(auto, unfolding(crate::specs::Fields::limit32))]
    fn limit32(&self, k: usize, most: u32) -> Result<(), Refused>
        requires { k + 4 ≤ length self.now.bytes.now }
        ensures { result ≡ outcome_from self.now.start (spec.limit32 self.now.bytes.now k most) }
    {
        self.refuse(
            most < little_endian::get_u32(self.bytes, k),
            Refusal::TooMany,
            k,
        )
    }

    #[tactic(auto, unfolding(crate::specs::Fields::code))]
    fn code(&self, k: usize, last: u16) -> Result<(), Refused>
        requires { k + 2 ≤ length self.now.bytes.now }
        ensures { result ≡ outcome_from self.now.start (spec.code self.now.bytes.now k last) }
    {
        self.refuse(
            last < little_endian::get_u16(self.bytes, k),
            Refusal::BadCode,
            k,
        )
    }

    #[tactic(auto, unfolding(crate::specs::Fields::finite))]
    fn finite(&self, k: usize) -> Result<(), Refused>
        requires { k + 4 ≤ length self.now.bytes.now }
        ensures { result ≡ outcome_from self.now.start (spec.finite self.now.bytes.now k) }
    {
        self.refuse(
            !little_endian::is_finite_at(self.bytes, k),
            Refusal::NotFinite,
            k,
        )
    }

    #[tactic(auto, unfolding(crate::specs::Fields::bound))]
    fn bound(&self, k: usize) -> Result<(), Refused>
        requires { k + 4 ≤ length self.now.bytes.now }
        ensures { result ≡ outcome_from self.now.start (spec.bound self.now.bytes.now k) }
    {
        self.refuse(
            little_endian::is_nan_at(self.bytes, k),
            Refusal::NotFinite,
            k,
        )
    }

    #[tactic(auto, unfolding(crate::specs::Fields::ordered))]
    fn ordered(&self, k: usize) -> Result<(), Refused>
        requires { k + 8 ≤ length self.now.bytes.now }
        ensures { result ≡ outcome_from self.now.start (spec.ordered self.now.bytes.now k) }
    {
        let lower = little_endian::get_f32(self.bytes, k);
        let upper = little_endian::get_f32(self.bytes, k + 4);
        self.refuse(upper < lower, Refusal::Disordered, k)
    }

    #[tactic(auto, unfolding(crate::specs::Fields::cap))]
    fn cap(&self, k: usize) -> Result<(), Refused>
        requires { k + 4 ≤ length self.now.bytes.now }
        ensures { result ≡ outcome_from self.now.start (spec.cap self.now.bytes.now k) }
    {
        self.refuse(
            little_endian::get_f32(self.bytes, k) < 0.0,
            Refusal::Disordered,
            k,
        )
    }

    #[tactic(auto, unfolding(crate::specs::Fields::colour_from))]
    fn colour_from(&self, c: u16) -> Result<(), Refused>
        requires { 8 ≤ length self.now.bytes.now }
        ensures { result ≡ outcome_from self.now.start (spec.colour_from self.now.bytes.now c) }
    {
        let colour = little_endian::get_u16(self.bytes, layout::ROW_COLOUR);
        self.refuse(colour < c, Refusal::ColourFalls, layout::ROW_COLOUR)
    }

    // ---- runs of floats

    // Whether n floats from byte k on are all finite. There is no way out before the last, so that the compiler tests several at once: with
    // `all`, `check` took 87 ns for 38 for each of 512 corotational rows. A `fold` would be no plainer.
    fn all_finite(&self, k: usize, n: usize) -> bool
        requires { k + 4 * n ≤ length self.now.bytes.now }
        ensures { result ≡ all_finite self.now.bytes.now k n }
    {
        let mut all = true;
        for i in 0..n {
            all &= little_endian::is_finite_at(self.bytes, k + 4 * i);
        }
        all
    }

    // The test of n floats, one after another from byte k on.
    fn run<F: Fn(usize) -> Result<(), Refused>>(
        &self,
        test: F,
        k: usize,
        n: usize,
    ) -> Result<(), Refused>
        requires within { k + 4 * n ≤ length self.now.bytes.now }
        requires callable { (p : ℕ) → p + 4 ≤ length self.now.bytes.now → F.pre test p }
        ensures { RunsTo (F.post test) self.now.bytes.now self.now.start k n result }
    {
        for i in 0..n {
            test(k + 4 * i)?;
        }
        Ok(())
    }

    // Each of n floats is finite. Where all are, as in most records, the quick test says so.
    #[tactic(auto, using(crate::proofs::Finites::all_pass))]
    fn finite_run(&self, k: usize, n: usize) -> Result<(), Refused>
        requires { k + 4 * n ≤ length self.now.bytes.now }
        ensures { result ≡ outcome_from self.now.start (spec.run (spec.finite self.now.bytes.now) k n) }
    {
        if self.all_finite(k, n) {
            return Ok(());
        }
        self.run(|p| self.finite(p), k, n)
    }

    fn cap_run(&self, k: usize, n: usize) -> Result<(), Refused>
        requires { k + 4 * n ≤ length self.now.bytes.now }
        ensures { result ≡ outcome_from self.now.start (spec.run (spec.cap self.now.bytes.now) k n) }
    {
        self.run(|p| self.cap(p), k, n)
    }

    // ---- each kind of record

    #[tactic(auto, using(crate::proofs::Firsts::outcome_from_append), unfolding(crate::specs::Fields::head_fields))]
    fn head(&self) -> Result<(), Refused>
        requires { 26 ≤ length self.now.bytes.now }
        ensures { result ≡ outcome_from self.now.start (spec.head_fields self.now.bytes.now) }
    {
        self.limit32(layout::HEAD_POINTS, 4096)?;
        self.limit32(layout::HEAD_ROWS, 4096)?;
        self.limit16(layout::HEAD_RESWEEPS, 64)?;
        self.code(layout::HEAD_MODE, 3)?;
        self.finite_run(layout::HEAD_WARM, 2)
    }

    #[tactic(auto, using(crate::proofs::Firsts::outcome_from_append), unfolding(crate::specs::Fields::point_fields))]
    fn point(&self) -> Result<(), Refused>
        requires { 30 ≤ length self.now.bytes.now }
        ensures { result ≡ outcome_from self.now.start (spec.point_fields self.now.bytes.now) }
    {
        self.finite_run(layout::POINT_POSITION, 6)
    }

    #[tactic(auto, using(crate::proofs::Firsts::outcome_from_append), unfolding(crate::specs::Fields::scalar_codes))]
    fn scalar_codes(&self) -> Result<(), Refused>
        requires { 14 ≤ length self.now.bytes.now }
        ensures { result ≡ outcome_from self.now.start (spec.scalar_codes self.now.bytes.now) }
    {
        self.limit16(layout::SCALAR_COUNT, 4)?;
        self.code(layout::ROW_STRAINED, 1)?;
        self.code(layout::SCALAR_TYPE, 2)
    }

    #[tactic(auto, using(crate::proofs::Firsts::outcome_from_append), unfolding(crate::specs::Fields::scalar_floats))]
    fn scalar_floats(&self) -> Result<(), Refused>
        requires { 182 ≤ length self.now.bytes.now }
        ensures { result ≡ outcome_from self.now.start (spec.scalar_floats self.now.bytes.now) }
    {
        self.finite_run(layout::ROW_POS, 36)?;
        self.bound(layout::SCALAR_LOWER)?;
        self.bound(layout::SCALAR_UPPER)
    }

    #[tactic(auto, using(crate::proofs::Firsts::outcome_from_append), unfolding(crate::specs::Fields::scalar_fields))]
    fn scalar(&self, c: u16) -> Result<(), Refused>
        requires { 182 ≤ length self.now.bytes.now }
        ensures { result ≡ outcome_from self.now.start (spec.scalar_fields self.now.bytes.now c) }
    {
        self.scalar_codes()?;
        self.scalar_floats()?;
        self.ordered(layout::SCALAR_LOWER)?;
        self.colour_from(c)
    }

    #[tactic(auto, using(crate::proofs::Firsts::outcome_from_append), unfolding(crate::specs::Fields::elastic_codes))]
    fn elastic_codes(&self, last: u16) -> Result<(), Refused>
        requires { 14 ≤ length self.now.bytes.now }
        ensures { result ≡ outcome_from self.now.start (spec.elastic_codes self.now.bytes.now last) }
    {
        self.code(layout::ROW_STRAINED, 1)?;
        self.code(layout::ELASTIC_INVERTED, 1)?;
        self.code(layout::ELASTIC_FOURTH, last)
    }

    #[tactic(auto, using(crate::proofs::Firsts::outcome_from_append), unfolding(crate::specs::Fields::corotational_fields))]
    fn corotational(&self, c: u16) -> Result<(), Refused>
        requires { 618 ≤ length self.now.bytes.now }
        ensures { result ≡ outcome_from self.now.start (spec.corotational_fields self.now.bytes.now c) }
    {
        self.elastic_codes(1)?;
        self.finite_run(layout::ROW_POS, 147)?;
        self.cap_run(layout::ELASTIC_STRAIN_CAP, 6)?;
        self.cap(layout::CORO_VOL_CAP)?;
        self.colour_from(c)
    }

    #[tactic(auto, using(crate::proofs::Firsts::outcome_from_append), unfolding(crate::specs::Fields::neo_hookean_fields))]
    fn neo_hookean(&self, c: u16) -> Result<(), Refused>
        requires { 678 ≤ length self.now.bytes.now }
        ensures { result ≡ outcome_from self.now.start (spec.neo_hookean_fields self.now.bytes.now c) }
    {
        self.elastic_codes(0)?;
        self.finite_run(layout::ROW_POS, 162)?;
        self.cap_run(layout::ELASTIC_STRAIN_CAP, 6)?;
        self.colour_from(c)
    }

    // All tests of a record of this kind; c is the colour of the row before.
    #[tactic(auto, using(crate::proofs::ByKind::fields_by_kind))]
    pub fn test(&self, kind: Kind, c: u16) -> Result<(), Refused>
        requires kind { number_of_kind kind ≡ le16 self.now.bytes.now kind_at }
        requires whole { 4 + length_of kind ≤ length self.now.bytes.now }
        ensures { result ≡ outcome_from self.now.start (spec.fields self.now.bytes.now c) }
    {
        match kind {
            Kind::Head => self.head(),
            Kind::Point => self.point(),
            Kind::Row(RowKind::Scalar) => self.scalar(c),
            Kind::Row(RowKind::Corotational) => self.corotational(c),
            Kind::Row(RowKind::NeoHookean) => self.neo_hookean(c),
        }
    }
}
