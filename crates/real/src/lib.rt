// Functions of one or two f32 that Rust has as methods, of which each gives one answer on every machine, and the source's `inv`.
#![tactic(auto)]

ghost use Rattle.std.specs.Prelude.{◌≡◌, ◌*◌, ◌%◌, ◌^◌, cond};
ghost use Rattle.real.specs.Real as spec;
ghost use Rattle.real.specs.SinCos as sine;
ghost use Rattle.real.specs.Acos as arc;

use std::f32::consts::PI;

// A choice between two values that are at hand: the callers have no branch.
pub fn pick<T: Copy>(b: bool, x: T, y: T) -> T
    ensures { result ≡ cond b x y }
{
    if b { x } else { y }
}

// The greater of x and 0 - x, which is exact, and +0 for a zero of either sign. The compiler makes of it a subtraction and a maximum:
// `all_within6` of the crate strain takes 8.5 ns, with the library's `abs`, which has two tests, 14.9.
#[tactic(auto, using(crate::specs::Sign::by_subtraction))]
pub fn abs(x: f32) -> f32
    ensures { result ≡ spec.abs x }
{
    let y = 0.0 - x;
    pick(y < x, x, y)
}

// By the highest bit, in 2.9 ns: the library's `signum` gives the same in 9.6.
pub fn signum(x: f32) -> f32
    ensures { result ≡ spec.signum x }
{
    if x.is_nan() {
        return x;
    }
    pick(0x8000_0000 <= x.to_bits(), -1.0, 1.0)
}

// The library's `max` leaves open which zero it gives of two: every machine is to give the same.
#[tactic(auto, unfolding(crate::specs::Real::max))]
pub fn max(a: f32, b: f32) -> f32
    ensures { result ≡ spec.max a b }
{
    pick(a.is_nan(), b, pick(b.is_nan(), a, pick(b <= a, a, b)))
}

// The library's `clamp` asks that lower <= upper, which here no caller owes.
#[tactic(auto, unfolding(crate::specs::Real::clamp))]
pub fn clamp(x: f32, lower: f32, upper: f32) -> f32
    ensures { result ≡ spec.clamp x lower upper }
{
    let y = pick(x < lower, lower, x);
    pick(upper < y, upper, y)
}

#[tactic(auto, unfolding(crate::specs::Real::is_tiny))]
fn is_tiny(x: f32) -> bool
    ensures { result ≡ spec.is_tiny x }
{
    -1.0e-20 <= x && x <= 1.0e-20
}

#[tactic(auto, unfolding(crate::specs::Real::inv))]
pub fn inv(x: f32) -> f32
    ensures { result ≡ spec.inv x }
{
    pick(is_tiny(x), 0.0, 1.0 / x)
}

// The bit of a float's sign, and a one in its exponent's place: the significand's bits lie below it.
const SIGN: u32 = 0x8000_0000;

const ONE_MORE: u32 = 0x80_0000;

// 2^-21, and 6.2831855 in units of it.
const UNIT: f32 = 4.76837158203125e-7;

const TURN: u32 = 13_176_795;

// A sine and a cosine of one angle.
#[repr(C)]
#[derive(Clone, Copy)]
pub struct SinCos {
    pub s: f32,
    pub c: f32,
}

// What is left of n·2^k when a turn is taken off as often as it goes, by one doubling after the other.
#[tactic(auto, using(crate::proofs::Turn::once_more))]
fn left_of(n: u32, k: u32) -> u32
    ensures { result ≡ n * 2 ^ k % 13176795 }
{
    let mut r = n % TURN;
    for _ in 0..k {
        r = 2 * r % TURN;
    }
    r
}

// x % 6.2831855, over whole numbers: a number that is no less than 4 is n·2^k units of 2^-21, and 6.2831855 is 13176795 of them. Rust's own
// `%` becomes a call of the C library's `fmodf`, and a program that has one asks for a C library of version 2.38.
pub fn rem_turn(x: f32) -> f32
    ensures { result ≡ sine.rem_turn x }
{
    if x.is_nan() {
        return x;
    }
    let b = x.to_bits();
    let power = b % SIGN / ONE_MORE;
    if power == 255 {
        return x - x; // of an infinity a NaN
    }
    if power < 129 {
        return x; // below 4
    }
    let r = left_of(ONE_MORE + b % ONE_MORE, power - 129);
    // f32 has no `From` of r, which it holds exactly
    if SIGN <= b {
        return r as f32 * -UNIT;
    }
    r as f32 * UNIT
}

#[tactic(auto, unfolding(crate::specs::SinCos::sin_cos_small))]
fn sin_cos_small(t: f32) -> SinCos
    ensures { result ≡ sine.sin_cos_small t }
{
    let u = t * t;
    SinCos {
        s: t * (1.0 - u / 6.0 * (1.0 - u / 20.0)),
        c: 1.0 - u / 2.0 * (1.0 - u / 12.0),
    }
}

#[tactic(auto, unfolding(crate::specs::SinCos::doubled))]
fn doubled(a: SinCos) -> SinCos
    ensures { result ≡ sine.doubled a }
{
    SinCos {
        s: 2.0 * a.s * a.c,
        c: a.c * a.c - a.s * a.s,
    }
}

// Of w / 2.
#[tactic(auto, using(loops::specs::Loops::counted), unfolding(crate::specs::SinCos::sin_cos))]
pub fn sin_cos(w: f32) -> SinCos
    ensures { result ≡ sine.sin_cos w }
{
    let mut a = sin_cos_small(rem_turn(w * 0.5) / 64.0);
    for _ in 0usize..6 {
        a = doubled(a);
    }
    a
}

// The polynomial is the rule's, Abramowitz and Stegun 4.4.46: another arc cosine gives other bits.
const C0: f32 = 1.5707963050;

const C1: f32 = -0.2145988016;

const C2: f32 = 0.0889789874;

const C3: f32 = -0.0501743046;

const C4: f32 = 0.0308918810;

const C5: f32 = -0.0170881256;

const C6: f32 = 0.0066700901;

const C7: f32 = -0.0012624911;

fn acos_polynomial(d: f32) -> f32
    ensures { result ≡ arc.acos_polynomial d }
{
    ((((((C7 * d + C6) * d + C5) * d + C4) * d + C3) * d + C2) * d + C1) * d + C0
}

#[tactic(auto, unfolding(crate::specs::Acos::acos_up))]
fn acos_up(d: f32) -> f32
    ensures { result ≡ arc.acos_up d }
{
    root::root(1.0 - d) * acos_polynomial(d)
}

#[tactic(auto, unfolding(crate::specs::Acos::acos))]
pub fn acos(d: f32) -> f32
    ensures { result ≡ arc.acos d }
{
    if 0.0 <= d {
        return acos_up(d);
    }
    PI - acos_up(-d)
}
