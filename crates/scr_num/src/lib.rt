//! Spans of whole numbers, and the arithmetic that rounds them outward.
#![tactic(auto)]

ghost use Rattle.std.specs.Prelude.{◌≡◌, ℕ, ◌*◌, ◌^◌, ◌<◌, ◌≤◌, ◌+◌, pos, ◌+ℤ◌, ◌-ℤ◌, ◌*ℤ◌, ◌≤ℤ◌};
ghost use Rattle.std.specs.Prelude.{unsigned_abs, map, List, ◌==◌};
ghost use Rattle.std.specs.Int.{int_max, int_min};
ghost use Rattle.scr_num.specs.Fraction.{Fraction, Share};
ghost use Rattle.scr_num.specs.Figure.{Figure, Frac, Sum, Diff, Times, Max, Min, RootOf};
ghost use Rattle.scr_num.specs.Enclosure.{Encloses, Measures, Converts};
ghost use Rattle.scr_num.specs.Sizes.{IsWithin, AreTogether};
ghost use Rattle.scr_num.specs.Sums.{sum_ends, sum_figure, EncloseEach};
ghost use Rattle.scr_num.specs.Rounding.{ends, exact_ends, add_ends, sub_ends, max_ends, min_ends};
ghost use Rattle.scr_num.specs.Rounding.{hull_ends, scale_ends, root_ends, floor_div, ceil_div};
ghost use Rattle.scr_num.specs.Rounding.{floor_root, ceil_root, or_zero};

mod amounts;
pub mod laws;
mod quotient;
mod span;

pub use amounts::cents;
pub use quotient::ratio;
pub use span::Span;

/// How many numbers of 64 bits there are.
const WORD: u128 = 0x1_0000_0000_0000_0000;

/// The span of one number, which both ends are.
pub fn exact(v: i128) -> Span
    ensures low { result.low ≡ v }
    ensures high { result.high ≡ v }
    ensures ends { ends result ≡ exact_ends v }
    ensures encloses { (unit : ℕ) (p : Fraction) → Measures unit v p
        → Encloses unit result.low result.high (Frac p) }
{
    Span { low: v, high: v }
}

/// The least span of all sums of a number of `a` and a number of `b`.
pub fn add(a: Span, b: Span) -> Span
    requires a_low { unsigned_abs a.low ≤ 2 ^ 125 }
    requires a_high { unsigned_abs a.high ≤ 2 ^ 125 }
    requires b_low { unsigned_abs b.low ≤ 2 ^ 125 }
    requires b_high { unsigned_abs b.high ≤ 2 ^ 125 }
    ensures low { result.low ≡ a.low +ℤ b.low }
    ensures high { result.high ≡ a.high +ℤ b.high }
    ensures ends { ends result ≡ add_ends (ends a) (ends b) }
    ensures encloses { (unit : ℕ) (f g : Figure) → Encloses unit a.low a.high f
        → Encloses unit b.low b.high g
        → Encloses unit result.low result.high (Sum f g) }
{
    Span {
        low: a.low + b.low,
        high: a.high + b.high,
    }
}

/// The least span of all differences of a number of `a` and a number of `b`.
pub fn sub(a: Span, b: Span) -> Span
    requires a_low { unsigned_abs a.low ≤ 2 ^ 125 }
    requires a_high { unsigned_abs a.high ≤ 2 ^ 125 }
    requires b_low { unsigned_abs b.low ≤ 2 ^ 125 }
    requires b_high { unsigned_abs b.high ≤ 2 ^ 125 }
    ensures low { result.low ≡ a.low -ℤ b.high }
    ensures high { result.high ≡ a.high -ℤ b.low }
    ensures ends { ends result ≡ sub_ends (ends a) (ends b) }
    ensures encloses { (unit : ℕ) (f g : Figure) → Encloses unit a.low a.high f
        → Encloses unit b.low b.high g
        → Encloses unit result.low result.high (Diff f g) }
{
    Span {
        low: a.low - b.high,
        high: a.high - b.low,
    }
}

/// The least span of all sums of a number of each.
pub fn total(spans: &[Span]) -> Span
    requires together { AreTogether (2 ^ 124) (map ends spans.now) }
    ensures ends { ends result ≡ sum_ends (map ends spans.now) }
    ensures encloses { (unit : ℕ) → 0 < unit → (figures : List Figure)
        → EncloseEach unit (map ends spans.now) figures
        → Encloses unit result.low result.high (sum_figure figures) }
    ensures size { (most : ℕ) → AreTogether most (map ends spans.now)
        → IsWithin most (ends result) }
{
    let mut sum = exact(0);
    for span in spans {
        sum = add(sum, *span);
    }
    sum
}

/// The greater of a number of `a` and a number of `b`, end by end.
pub fn max(a: Span, b: Span) -> Span
    ensures low { result.low ≡ int_max a.low b.low }
    ensures high { result.high ≡ int_max a.high b.high }
    ensures ends { ends result ≡ max_ends (ends a) (ends b) }
    ensures encloses { (unit : ℕ) (f g : Figure) → Encloses unit a.low a.high f
        → Encloses unit b.low b.high g
        → Encloses unit result.low result.high (Max f g) }
{
    Span {
        low: a.low.max(b.low),
        high: a.high.max(b.high),
    }
}

/// The smaller of a number of `a` and a number of `b`, end by end.
pub fn min(a: Span, b: Span) -> Span
    ensures low { result.low ≡ int_min a.low b.low }
    ensures high { result.high ≡ int_min a.high b.high }
    ensures ends { ends result ≡ min_ends (ends a) (ends b) }
    ensures encloses { (unit : ℕ) (f g : Figure) → Encloses unit a.low a.high f
        → Encloses unit b.low b.high g
        → Encloses unit result.low result.high (Min f g) }
{
    Span {
        low: a.low.min(b.low),
        high: a.high.min(b.high),
    }
}

/// The least span that holds both: the lesser low end and the greater high one.
pub fn hull(a: Span, b: Span) -> Span
    ensures low { result.low ≡ int_min a.low b.low }
    ensures high { result.high ≡ int_max a.high b.high }
    ensures ends { ends result ≡ hull_ends (ends a) (ends b) }
    ensures encloses_left { (unit : ℕ) (f : Figure) → Encloses unit a.low a.high f
        → Encloses unit result.low result.high f }
    ensures encloses_right { (unit : ℕ) (f : Figure) → Encloses unit b.low b.high f
        → Encloses unit result.low result.high f }
{
    Span {
        low: a.low.min(b.low),
        high: a.high.max(b.high),
    }
}

/// All products of a number of `a` with `num / den`: the floor at the low end, the ceiling at the
/// high one.
pub fn scale(a: Span, num: u128, den: u128) -> Span
    requires positive { 0 < den }
    requires low_fits { unsigned_abs a.low * num < 2 ^ 127 }
    requires high_fits { unsigned_abs a.high * num < 2 ^ 127 }
    ensures low { result.low ≡ floor_div (a.low *ℤ pos num) den }
    ensures high { result.high ≡ ceil_div (a.high *ℤ pos num) den }
    ensures ends { ends result ≡ scale_ends (ends a) num den }
    ensures encloses { (old new : ℕ) (f : Figure) (share : Share) → Converts old new num den share
        → Encloses old a.low a.high f
        → Encloses new result.low result.high (Times f share) }
    ensures low_size { unsigned_abs result.low * den < unsigned_abs a.low * num + den }
    ensures high_size { unsigned_abs result.high * den < unsigned_abs a.high * num + den }
{
    Span {
        low: scaled_down(a.low, num, den),
        high: scaled_up(a.high, num, den),
    }
}

/// The floor of `v * num / den`.
fn scaled_down(v: i128, num: u128, den: u128) -> i128
    requires positive { 0 < den }
    requires fits { unsigned_abs v * num < 2 ^ 127 }
    ensures value { result ≡ floor_div (v *ℤ pos num) den }
    ensures size { unsigned_abs result * den < unsigned_abs v * num + den }
{
    let product = v.unsigned_abs() * num;
    if v < 0 {
        -(product.div_ceil(den) as i128)
    } else {
        (product / den) as i128
    }
}

/// The ceiling of `v * num / den`.
fn scaled_up(v: i128, num: u128, den: u128) -> i128
    requires positive { 0 < den }
    requires fits { unsigned_abs v * num < 2 ^ 127 }
    ensures value { result ≡ ceil_div (v *ℤ pos num) den }
    ensures size { unsigned_abs result * den < unsigned_abs v * num + den }
{
    let product = v.unsigned_abs() * num;
    if v < 0 {
        -((product / den) as i128)
    } else {
        product.div_ceil(den) as i128
    }
}

/// The greatest whole number whose square is at most `v`.
pub fn floor_root(v: u128) -> u128
    ensures value { result ≡ floor_root v }
    ensures bound { result < 2 ^ 64 }
{
    floor_root_near(front_root(v), v)
}

/// A number near the root of `v`: that of its first 63 or 64 binary digits, with a nought for every two of the others.
/// Nothing is asked of it.
fn front_root(v: u128) -> u128 {
    let pairs = v.leading_zeros() / 2;
    if pairs == 64 {
        return 0;
    }
    let front = (v << (2 * pairs)) / WORD;
    let root = (front as u64).isqrt();
    u128::from(root) << 32 >> pairs
}

/// The greatest whole number whose square is at most `v`, by one step of Newton's method from a guess, which mostly leads to it or to
/// the number above it. Nothing is asked of the guess: where it leads elsewhere, the root is sought without it.
fn floor_root_near(guess: u128, v: u128) -> u128
    ensures value { result ≡ floor_root v }
    ensures bound { result < 2 ^ 64 }
{
    let guess = guess.max(1);
    let root = (guess.saturating_add(v / guess) / 2).min(WORD - 1);
    if is_floor_root(root, v) {
        return root;
    }
    let below = root.saturating_sub(1);
    if is_floor_root(below, v) {
        below
    } else {
        v.isqrt()
    }
}

/// Whether `root` is the greatest whole number whose square is at most `v`.
fn is_floor_root(root: u128, v: u128) -> bool
    requires { root < 2 ^ 64 }
    ensures { result ≡ (root == floor_root v) }
{
    let square = root * root;
    square <= v && v - square <= 2 * root
}

/// The least whole number whose square is at least `v`, from a guess of which nothing is asked.
fn ceil_root_near(guess: u128, v: u128) -> u128
    ensures value { result ≡ ceil_root v }
    ensures bound { result ≤ 2 ^ 64 }
{
    let root = floor_root_near(guess, v);
    if root * root == v { root } else { root + 1 }
}

/// The square roots of the numbers of `a`: the greatest whole number whose square is at most the
/// low end, and the least whose square is at least the high one.
pub fn root_of(a: Span) -> Span
    requires { pos 0 ≤ℤ a.low }
    ensures low { result.low ≡ pos (floor_root (or_zero a.low)) }
    ensures high { result.high ≡ pos (ceil_root (or_zero a.high)) }
    ensures ends { ends result ≡ root_ends (ends a) }
    ensures encloses { (unit : ℕ) (f : Figure) → Encloses (unit * unit) a.low a.high f
        → Encloses unit result.low result.high (RootOf f) }
    ensures low_size { unsigned_abs result.low < 2 ^ 64 }
    ensures high_size { unsigned_abs result.high ≤ 2 ^ 64 }
{
    let low = floor_root(a.low as u128);
    let high = ceil_root_near(low, a.high as u128);
    Span {
        low: low as i128,
        high: high as i128,
    }
}
