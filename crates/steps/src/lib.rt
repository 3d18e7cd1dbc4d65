// The box of a wall step and the switch step, of n variables (document 01, "Wall step and switch step"), and the cut of a box.
// Each writes the box of the face that it gives to the front of a lent list, and answers whether it gives one.
#![tactic(auto)]

ghost use Rattle.std.specs.Prelude.{◌≡◌, cond, ℕ, ◌≤ℤ◌};
ghost use Rattle.integers.specs.Rounding.{max_z, min_z};
ghost use Rattle.plant.specs.Box.{low, high, cut, present, unless_empty};
ghost use Rattle.plant.specs.Steps.{low_at, high_at, low_bound, high_bound, cut_low, cut_high, low_after, high_after, face_after, switch_step};
ghost use Rattle.delays.specs.Ranges.{Level, Rate, LevelAt, RateAt, Small, SmallInterval};
ghost use Rattle.steps.specs.Ready.{CutReady, WallReady, SwitchReady};
ghost use Rattle.steps.specs.Handing.{Handed};

use delays::Range;
use plant::{End, Fraction, Interval};

// The box a cut to the box b, if it is not empty: left at the first variable of which it is.
pub fn cut_box(n: usize, a: &[i32], b: &[i32], out: &mut [i32]) -> bool
    requires { CutReady n a.now b.now out.old }
    ensures { Handed n result out.new out.old (unless_empty n (cut n a.now b.now)) }
{
    for i in 0..n {
        let range = Range::at(a, i).cut(Range::at(b, i));
        if range.is_empty() {
            return false;
        }
        range.put(out, i);
    }
    true
}

// p + a × t, down to a whole number.
fn low_at(p: i64, a: i64, t: Fraction) -> i64
    requires { Level p × Rate a × Small t }
    ensures { result ≡ low_at p a t }
{
    p + integers::floor_div(a * (t.num as i64), t.den)
}

// q + c × t, up to a whole number.
fn high_at(q: i64, c: i64, t: Fraction) -> i64
    requires { Level q × Rate c × Small t }
    ensures { result ≡ high_at q c t }
{
    q + integers::ceil_div(c * (t.num as i64), t.den)
}

// The low p at rate a after the delay t, cut to the invariant's low lo: lo itself, without a division, where it is not above it.
fn low_within(p: i64, a: i64, t: Fraction, lo: i64) -> i64
    requires { Level p × Rate a × Small t × Level lo }
    ensures { result ≡ max_z (low_at p a t) lo }
{
    let way = a * (t.num as i64);
    let room = (lo - p) * (t.den as i64);
    if way <= room { lo } else { low_at(p, a, t) }
}

// The high q at rate c after the delay t, cut to the invariant's high hi: hi itself, without a division, where it is not below it.
fn high_within(q: i64, c: i64, t: Fraction, hi: i64) -> i64
    requires { Level q × Rate c × Small t × Level hi }
    ensures { result ≡ min_z (high_at q c t) hi }
{
    let way = c * (t.num as i64);
    let room = (hi - q) * (t.den as i64);
    if room <= way { hi } else { high_at(q, c, t) }
}

// The low p, not below the invariant's low lo, at rate a after the delays t, cut to lo: one that does not fall stays above it.
fn low_cut(p: i64, a: i64, t: Interval, lo: i64) -> i64
    requires { Level p × Rate a × SmallInterval t × Level lo × (lo ≤ℤ p) }
    ensures { result ≡ cut_low (low_bound p a t) lo }
{
    if a < 0 {
        match t.latest {
            End::Endless => lo,
            End::At(latest) => low_within(p, a, latest, lo),
        }
    } else {
        low_at(p, a, t.earliest)
    }
}

// The high q, not above the invariant's high hi, at rate c after the delays t, cut to hi: one that does not rise stays below it.
fn high_cut(q: i64, c: i64, t: Interval, hi: i64) -> i64
    requires { Level q × Rate c × SmallInterval t × Level hi × (q ≤ℤ hi) }
    ensures { result ≡ cut_high (high_bound q c t) hi }
{
    if 0 < c {
        match t.latest {
            End::Endless => hi,
            End::At(latest) => high_within(q, c, latest, hi),
        }
    } else {
        high_at(q, c, t.earliest)
    }
}

// The low of variable i after the delays t to the value b of variable d.
pub fn low_after(
    inv: &[i32],
    rate: &[i32],
    part: &[i32],
    d: usize,
    b: i64,
    t: Interval,
    i: usize,
) -> i64
    requires { LevelAt inv.now i × RateAt rate.now i × LevelAt part.now i × SmallInterval t × (low inv.now i ≤ℤ low part.now i) }
    ensures { (n : ℕ) → result ≡ low_after n inv.now rate.now part.now d b t i }
{
    let lo = delays::low(inv, i);
    if i == d {
        b.max(lo)
    } else {
        low_cut(delays::low(part, i), delays::low(rate, i), t, lo)
    }
}

// The high of variable i after the delays t to the value b of variable d.
pub fn high_after(
    inv: &[i32],
    rate: &[i32],
    part: &[i32],
    d: usize,
    b: i64,
    t: Interval,
    i: usize,
) -> i64
    requires { LevelAt inv.now i × RateAt rate.now i × LevelAt part.now i × SmallInterval t × (high part.now i ≤ℤ high inv.now i) }
    ensures { (n : ℕ) → result ≡ high_after n inv.now rate.now part.now d b t i }
{
    let hi = delays::high(inv, i);
    if i == d {
        b.min(hi)
    } else {
        high_cut(delays::high(part, i), delays::high(rate, i), t, hi)
    }
}

// The box after the delays t to the value b of variable d, if it is ordered: left at the first variable of which it is not.
pub fn box_after(
    n: usize,
    inv: &[i32],
    rate: &[i32],
    part: &[i32],
    d: usize,
    b: i64,
    t: Interval,
    out: &mut [i32],
) -> bool
    requires { WallReady n inv.now rate.now part.now b out.old × SmallInterval t }
    ensures { Handed n result out.new out.old (face_after n inv.now rate.now part.now d b (Some t)) }
{
    for i in 0..n {
        let after = Range {
            low: low_after(inv, rate, part, d, b, t, i),
            high: high_after(inv, rate, part, d, b, t, i),
        };
        if after.is_empty() {
            return false;
        }
        after.put(out, i);
    }
    true
}

// Where a switch lands a variable from its guarded range: set if masked, and cut to the reset box and the target's invariant.
fn land(masked: bool, guarded: Range, reset: Range, inv: Range) -> Range
    ensures { result ≡ record { low = max_z (max_z (cond masked reset.low guarded.low) reset.low) inv.low; high = min_z (min_z (cond masked reset.high guarded.high) reset.high) inv.high } }
{
    let set = if masked { reset } else { guarded };
    set.cut(reset).cut(inv)
}

// The switch step from the box of the source's face: writes the box on which it lands, and answers whether neither cut is empty.
pub fn switch_step(
    n: usize,
    mask: usize,
    guard: &[i32],
    reset: &[i32],
    inv: &[i32],
    from: &[i32],
    out: &mut [i32],
) -> bool
    requires { SwitchReady n guard.now reset.now inv.now from.now out.old }
    ensures { Handed n result out.new out.old (switch_step n mask guard.now reset.now inv.now (present from.now)) }
{
    let mut ok = true;
    // the mask from bit i on
    let mut rest = mask;
    for i in 0..n {
        let guarded = Range::at(from, i).cut(Range::at(guard, i));
        let landed = land(
            rest % 2 == 1,
            guarded,
            Range::at(reset, i),
            Range::at(inv, i),
        );
        landed.put(out, i);
        ok &= !guarded.is_empty() & !landed.is_empty();
        rest /= 2;
    }
    ok
}
