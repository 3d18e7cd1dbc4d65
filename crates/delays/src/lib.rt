// The delays from a part to a wall or into a range, and whether a part touches a box (document 01, "Delays").
#![tactic(auto)]

ghost use Rattle.std.specs.Prelude.{◌≡◌, true, false, cond, ◌+◌, ◌*◌, ◌<◌, ◌-ℤ◌, length, slice_set, FitsSigned};
ghost use Rattle.std.specs.Int.{w32};
ghost use Rattle.std.specs.Int.Signed.{lt_z};
ghost use Rattle.integers.specs.Rounding.{max_z, min_z};
ghost use Rattle.plant.specs.Box.{low, high};
ghost use Rattle.plant.specs.Delays as D;
ghost use Rattle.plant.specs.Delays.{ratio, no_delay, is_endless, earliest_into, latest_into, delays_into, delays_to, le_f, both, both_delays, reaches_end, or_never};
ghost use Rattle.plant.specs.Steps as Steps;
ghost use Rattle.delays.specs.Ranges.{Level, LevelAt, RateAt, Levels, Rates, InInvariant, Small, SmallEnd, SmallInterval, SmallDelays};
ghost use Rattle.delays.specs.Windows.{WithinAt, up_to, WindowEnd};

use plant::{End, Fraction, Interval};

// The low of variable i of a box.
#[tactic(auto, unfolding(plant::specs::Box::low))]
pub fn low(words: &[i32], i: usize) -> i64
    requires { 2 * i < length words.now }
    ensures { result ≡ low words.now i }
{
    integers::word(words, 2 * i)
}

// Its high.
#[tactic(auto, unfolding(plant::specs::Box::high))]
pub fn high(words: &[i32], i: usize) -> i64
    requires { 2 * i + 1 < length words.now }
    ensures { result ≡ high words.now i }
{
    integers::word(words, 2 * i + 1)
}

// From low to high, ends included: a variable's levels in a box, its rates, or the levels to be reached.
#[derive(Clone, Copy)]
pub struct Range {
    pub low: i64,
    pub high: i64,
}

impl Range {
    // That of variable i of a box.
    pub fn at(words: &[i32], i: usize) -> Range
        requires { 2 * i + 1 < length words.now }
        ensures { result ≡ record { low = low words.now i; high = high words.now i } }
    {
        Range {
            low: low(words, i),
            high: high(words, i),
        }
    }

    // Writes it as that of variable i of a box.
    pub fn put(self, words: &mut [i32], i: usize)
        requires { (2 * i + 1 < length words.old) × FitsSigned w32 self.low × FitsSigned w32 self.high }
        ensures { words.new ≡ slice_set (slice_set words.old (2 * i) self.low) (2 * i + 1) self.high }
    {
        words[2 * i] = self.low as i32;
        words[2 * i + 1] = self.high as i32;
    }

    // What it shares with another; it may be empty.
    pub fn cut(self, other: Range) -> Range
        ensures { result ≡ record { low = max_z self.low other.low; high = min_z self.high other.high } }
    {
        Range {
            low: self.low.max(other.low),
            high: self.high.min(other.high),
        }
    }

    pub fn is_empty(self) -> bool
        ensures { result ≡ lt_z self.high self.low }
    {
        self.high < self.low
    }
}

// The delay over the distance between two levels at a rate. (By abs_diff, which takes both differences, a touch test takes a fifth
// longer.)
fn delay(x: i64, y: i64, v: i64) -> Fraction
    requires { Level x × Level y }
    ensures { result ≡ ratio (x -ℤ y) v }
{
    Fraction {
        num: (x - y).unsigned_abs(),
        den: v.unsigned_abs(),
    }
}

// No delay leads from the part with the rate into the range.
fn no_delay(part: Range, rate: Range, into: Range) -> bool
    ensures { result ≡ no_delay part.low part.high rate.low rate.high into.low into.high }
{
    ((into.high < part.low) & (0 <= rate.low)) | ((part.high < into.low) & (rate.high <= 0))
}

// The latest delay into the range is endless.
fn endless(part: Range, rate: Range, into: Range) -> bool
    ensures { result ≡ is_endless part.low part.high rate.low rate.high into.low into.high }
{
    ((rate.low <= 0) & (0 <= rate.high))
        | (((into.high < part.low) & (0 <= rate.high)) | ((part.high < into.low) & (rate.low <= 0)))
}

// The earliest delay into the range.
fn earliest(part: Range, rate: Range, into: Range) -> Fraction
    requires { Level part.low × Level part.high × Level into.low × Level into.high }
    ensures { result ≡ earliest_into part.low part.high rate.low rate.high into.low into.high }
{
    if into.high < part.low {
        delay(part.low, into.high, rate.low)
    } else if part.high < into.low {
        delay(into.low, part.high, rate.high)
    } else {
        Fraction { num: 0, den: 1 }
    }
}

// The latest delay into the range.
fn latest(part: Range, rate: Range, into: Range) -> End
    requires { Level part.low × Level part.high × Level into.low × Level into.high }
    ensures { result ≡ latest_into part.low part.high rate.low rate.high into.low into.high }
{
    if endless(part, rate, into) {
        End::Endless
    } else if rate.high < 0 {
        End::At(delay(part.high, into.low, rate.high))
    } else {
        End::At(delay(into.high, part.low, rate.low))
    }
}

// The delays from the part with the rate into the range.
#[tactic(auto, unfolding(plant::specs::Delays::delays_into))]
pub fn delays_into(part: Range, rate: Range, into: Range) -> Option<Interval>
    requires { Level part.low × Level part.high × Level into.low × Level into.high }
    ensures { result ≡ delays_into part.low part.high rate.low rate.high into.low into.high }
{
    if no_delay(part, rate, into) {
        return None;
    }
    Some(Interval {
        earliest: earliest(part, rate, into),
        latest: latest(part, rate, into),
    })
}

// The delays at which variable i of a part can be in the range: none, or small.
pub fn variable_delays(rate: &[i32], part: &[i32], i: usize, into: Range) -> Option<Interval>
    requires { RateAt rate.now i × LevelAt part.now i × Level into.low × Level into.high }
    ensures value { result ≡ delays_into (low part.now i) (high part.now i) (low rate.now i) (high rate.now i) into.low into.high }
    ensures small { SmallDelays result }
{
    delays_into(Range::at(part, i), Range::at(rate, i), into)
}

// One delay is no later than another, compared exactly.
fn le(e: Fraction, f: Fraction) -> bool
    requires { Small e × Small f }
    ensures { result ≡ le_f e f }
{
    e.num * f.den <= f.num * e.den
}

// The later of two delays.
fn later(e: Fraction, f: Fraction) -> Fraction
    requires { Small e × Small f }
    ensures { result ≡ D.later e f }
{
    if le(e, f) { f } else { e }
}

// The earlier of two delays.
fn earlier(e: Fraction, f: Fraction) -> Fraction
    requires { Small e × Small f }
    ensures { result ≡ cond (le_f e f) e f }
{
    if le(e, f) { e } else { f }
}

// The sooner of two latest ends, built anew: handed on whole, an end is copied with its unused bytes.
fn sooner(s: End, t: End) -> End
    requires { SmallEnd s × SmallEnd t }
    ensures { result ≡ D.sooner s t }
{
    match (s, t) {
        (End::Endless, End::Endless) => End::Endless,
        (End::Endless, End::At(f)) | (End::At(f), End::Endless) => End::At(f),
        (End::At(f), End::At(g)) => End::At(earlier(f, g)),
    }
}

// The delays that two intervals share.
fn both(s: Interval, t: Interval) -> Interval
    requires { SmallInterval s × SmallInterval t }
    ensures { result ≡ both s t }
{
    Interval {
        earliest: later(s.earliest, t.earliest),
        latest: sooner(s.latest, t.latest),
    }
}

// An interval holds a delay: its earliest is no later than its latest.
fn has_delay(t: Interval) -> bool
    requires { SmallInterval t }
    ensures { result ≡ reaches_end t.earliest t.latest }
{
    match t.latest {
        End::Endless => true,
        End::At(f) => le(t.earliest, f),
    }
}

// The delays from a part to the wall value b of variable d that are in a window from 0 to an end; none if no delay is.
pub fn wall_delays(rate: &[i32], part: &[i32], d: usize, b: i64, end: End) -> Option<Interval>
    requires { RateAt rate.now d × LevelAt part.now d × Level b × SmallEnd end }
    ensures { result ≡ or_never (both_delays (delays_to (low part.now d) (high part.now d) (low rate.now d) (high rate.now d) b) (Some (up_to end))) }
{
    let own = variable_delays(rate, part, d, Range { low: b, high: b })?;
    let cut = Interval {
        earliest: own.earliest,
        latest: sooner(own.latest, end),
    };
    has_delay(cut).then_some(cut)
}

// The latest delay after which variable i of a part inside the invariant can still be inside it. Where its rates hold 0 there is none,
// which two comparisons tell.
fn latest_inside(inv: &[i32], rate: &[i32], part: &[i32], i: usize) -> End
    requires { LevelAt inv.now i × RateAt rate.now i × LevelAt part.now i × WithinAt inv.now part.now i }
    ensures { result ≡ latest_into (low part.now i) (high part.now i) (low rate.now i) (high rate.now i) (low inv.now i) (high inv.now i) }
{
    let rates = Range::at(rate, i);
    if rates.high < 0 {
        End::At(delay(high(part, i), low(inv, i), rates.high))
    } else if 0 < rates.low {
        End::At(delay(high(inv, i), low(part, i), rates.low))
    } else {
        End::Endless
    }
}

// The end of a part's window, the latest delay after which every variable can still be inside the invariant. The part is, so the
// window begins at 0.
pub fn window_end(n: usize, inv: &[i32], rate: &[i32], part: &[i32]) -> End
    requires { Levels n inv.now × Rates n rate.now × InInvariant n inv.now part.now }
    ensures { WindowEnd n inv.now rate.now part.now result }
{
    let mut end = End::Endless;
    for i in 0..n {
        end = sooner(end, latest_inside(inv, rate, part, i));
    }
    end
}

// Some variable rules a touch out by itself: its cut is empty, or no delay leads into it. Comparisons alone, no products: most
// parts end here.
fn ruled_out(n: usize, inv: &[i32], rate: &[i32], part: &[i32], forbidden: &[i32]) -> bool
    requires { Levels n inv.now × Rates n rate.now × Levels n part.now × Levels n forbidden.now }
    ensures { result ≡ true → Steps.touches n inv.now rate.now part.now forbidden.now ≡ false }
{
    for i in 0..n {
        let into = Range::at(forbidden, i).cut(Range::at(inv, i));
        if into.is_empty() | no_delay(Range::at(part, i), Range::at(rate, i), into) {
            return true;
        }
    }
    false
}

// A part touches a forbidden box cut to the invariant: one delay serves all variables.
pub fn touches(n: usize, inv: &[i32], rate: &[i32], part: &[i32], forbidden: &[i32]) -> bool
    requires { Levels n inv.now × Rates n rate.now × Levels n part.now × Levels n forbidden.now }
    ensures { result ≡ Steps.touches n inv.now rate.now part.now forbidden.now }
{
    if ruled_out(n, inv, rate, part, forbidden) {
        return false;
    }
    let mut shared = Interval {
        earliest: Fraction { num: 0, den: 1 },
        latest: End::Endless,
    };
    for i in 0..n {
        let into = Range::at(forbidden, i).cut(Range::at(inv, i));
        if into.is_empty() {
            return false;
        }
        let Some(own) = variable_delays(rate, part, i, into) else {
            return false;
        };
        shared = both(shared, own);
    }
    has_delay(shared)
}
