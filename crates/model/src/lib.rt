// The questions of a model's words, 2 to 5, 43, 11 to 19 and 46. These functions serve the crates above and are no calls of outsiders.
#![tactic(auto)]

ghost use Rattle.std.specs.Prelude.{◌≡◌, ◌&&◌, ◌+◌, ◌*◌, ◌≤◌, ◌<◌, length, nat_abs};
ghost use Rattle.std.specs.Int.Signed.{le_z};
ghost use Rattle.integers.specs.Counted.{all_below};
ghost use Rattle.integers.specs.Words as W;
ghost use Rattle.plant.specs.Ask as S;
ghost use Rattle.plant.specs.Model as M;
ghost use Rattle.plant.specs.Refusals.{number, asked};
ghost use Rattle.plant.specs.Questions as Q;
ghost use Rattle.plant.proofs.Whole.{Head, Whole, Numbered, Placed};

use plant::Refusal;

// Levels lie in -1,000,000..1,000,000, rates in -1,000..1,000.
const LEVEL_LIMIT: u32 = 1000000;

const RATE_LIMIT: u32 = 1000;

// A question, and the refusal if its answer is not yes.
pub fn ask(yes: bool, refusal: Refusal) -> Result<(), Refusal>
    ensures { asked result ≡ S.ask yes (number refusal) }
{
    if yes { Ok(()) } else { Err(refusal) }
}

// ---- boxes

// A low and a high in order, and both from least to most.
fn range_ok(lo: i64, hi: i64, least: i64, most: i64) -> bool
    ensures { result ≡ (le_z lo hi && (le_z least lo && le_z hi most)) }
{
    (lo <= hi) & ((least <= lo) & (hi <= most))
}

// Ordered, and in -most..most.
#[tactic(auto, using(crate::proofs::Turns::turns), unfolding(plant::specs::Questions::box_ok, plant::specs::Box::low, plant::specs::Box::high))]
pub fn box_ok(b: &[i32], n: usize, most: u32) -> bool
    requires { 2 * n ≤ length b.now }
    ensures { result ≡ Q.box_ok n most b.now }
{
    let mut ok = true;
    for i in 0..n {
        let lo = integers::word(b, 2 * i);
        let hi = integers::word(b, 2 * i + 1);
        ok &= range_ok(lo, hi, -(most as i64), most as i64);
    }
    ok
}

// Ordered, and inside the box c.
#[tactic(auto, using(crate::proofs::Turns::turns), unfolding(plant::specs::Questions::inside_ok, plant::specs::Box::low, plant::specs::Box::high))]
pub fn inside_ok(b: &[i32], c: &[i32], n: usize) -> bool
    requires { (2 * n ≤ length b.now) × (2 * n ≤ length c.now) }
    ensures { result ≡ Q.inside_ok n b.now c.now }
{
    let mut ok = true;
    for i in 0..n {
        let lo = integers::word(b, 2 * i);
        let hi = integers::word(b, 2 * i + 1);
        let least = integers::word(c, 2 * i);
        let most = integers::word(c, 2 * i + 1);
        ok &= range_ok(lo, hi, least, most);
    }
    ok
}

// The first k words are zeros.
#[tactic(auto, using(crate::proofs::Turns::turns), unfolding(plant::specs::Questions::zeros_ok))]
pub fn zeros_ok(s: &[i32], k: usize) -> bool
    requires { k ≤ length s.now }
    ensures { result ≡ Q.zeros_ok k s.now }
{
    let mut ok = true;
    for i in 0..k {
        ok &= s[i] == 0;
    }
    ok
}

// ---- the questions of a location

// Start flag 0 and box zeros, or start flag 1 and box ordered, in range: it may stick out of the invariant.
#[tactic(auto, using(crate::proofs::Lengths::places), unfolding(plant::specs::Questions::start_ok))]
fn start_ok(model: &[i32], l: usize) -> bool
    requires { Whole model.now × (l < M.L# model.now) }
    ensures { result ≡ Q.start_ok model.now l }
{
    let n = records::variables(model);
    let flag = records::start_flag(model, l);
    let start = records::start_box(model, l);
    let empty = (flag == 0) & zeros_ok(start, 2 * n);
    empty | ((flag == 1) & box_ok(start, n, LEVEL_LIMIT))
}

#[tactic(auto, using(plant::proofs::Refusing::chains, crate::proofs::Lengths::places), unfolding(plant::specs::Questions::location_questions))]
fn location_questions(model: &[i32], l: usize) -> Result<(), Refusal>
    requires { Whole model.now × (l < M.L# model.now) }
    ensures { asked result ≡ Q.location_questions model.now l }
{
    let n = records::variables(model);
    ask(
        box_ok(records::invariant(model, l), n, LEVEL_LIMIT),
        Refusal::Invariant,
    )?;
    ask(
        box_ok(records::rate(model, l), n, RATE_LIMIT),
        Refusal::Rates,
    )?;
    ask(start_ok(model, l), Refusal::Start)
}

// ---- the questions of a switch

// A word from lo to hi.
fn word_within(s: &[i32], at: usize, lo: i64, hi: i64) -> bool
    requires { at < length s.now }
    ensures { result ≡ W.within lo hi (W.word s.now at) }
{
    integers::within(integers::word(s, at), lo, hi)
}

// A word that is a number below k.
fn below_ok(s: &[i32], at: usize, k: usize) -> bool
    requires { (at < length s.now) × (1 ≤ k) × (k ≤ 1000) }
    ensures { result ≡ Q.below_ok s.now at k }
{
    word_within(s, at, 0, (k - 1) as i64)
}

// Locations, d and sides exist, mask 0 to 2^n - 1.
#[tactic(auto, using(crate::proofs::Lengths::places, plant::proofs::Passing::masks_small), unfolding(plant::specs::Questions::places_ok))]
fn places_ok(model: &[i32], e: usize) -> bool
    requires { Whole model.now × (e < M.E# model.now) }
    ensures { result ≡ Q.places_ok model.now e }
{
    let n = records::variables(model);
    let l = records::locations(model);
    let at = records::switch_at(model, e);
    let source = below_ok(model, at, l);
    let target = below_ok(model, at + 1, l);
    let d = below_ok(model, at + 2, n);
    let source_side = below_ok(model, at + 3, 2);
    let target_side = below_ok(model, at + 4, 2);
    let mask = below_ok(model, at + 5, 1 << n);
    source & (target & (d & (source_side & (target_side & mask))))
}

// Guard and reset box ordered, in range.
#[tactic(auto, using(crate::proofs::Lengths::places), unfolding(plant::specs::Questions::boxes_ok))]
fn boxes_ok(model: &[i32], e: usize) -> bool
    requires { Whole model.now × (e < M.E# model.now) }
    ensures { result ≡ Q.boxes_ok model.now e }
{
    let n = records::variables(model);
    let guarded = box_ok(records::guard(model, e), n, LEVEL_LIMIT);
    guarded & box_ok(records::reset(model, e), n, LEVEL_LIMIT)
}

// The reset range of variable i single, if it is masked.
#[tactic(auto, using(crate::proofs::Lengths::places), unfolding(plant::specs::Questions::single_at, plant::specs::Box::low, plant::specs::Box::high))]
fn single_at(model: &[i32], e: usize, i: usize) -> bool
    requires { Numbered model.now e × (i < M.n# model.now) }
    ensures { result ≡ Q.single_at model.now e i }
{
    let b = records::reset(model, e);
    let single = b[2 * i] == b[2 * i + 1];
    !records::masked(records::reset_mask(model, e), i) | single
}

// All masked reset ranges single.
#[tactic(auto, using(crate::proofs::Turns::turns))]
fn all_single(model: &[i32], e: usize) -> bool
    requires { Numbered model.now e }
    ensures { result ≡ all_below (M.n# model.now) (Q.single_at model.now e) }
{
    let n = records::variables(model);
    let mut ok = true;
    for i in 0..n {
        ok &= single_at(model, e, i);
    }
    ok
}

// Masked reset ranges single; edition 2 looks at d alone.
#[tactic(auto, unfolding(plant::specs::Questions::single_ok))]
fn single_ok(model: &[i32], e: usize) -> bool
    requires { Placed model.now e }
    ensures { result ≡ Q.single_ok model.now e }
{
    if records::edition(model) == 2 {
        single_at(model, e, records::wall_variable(model, e))
    } else {
        all_single(model, e)
    }
}

// Guard of d equal to the source wall.
#[tactic(auto, using(crate::proofs::Lengths::places), unfolding(plant::specs::Questions::guard_ok, plant::specs::Box::low, plant::specs::Box::high))]
fn guard_ok(model: &[i32], e: usize) -> bool
    requires { Placed model.now e }
    ensures { result ≡ Q.guard_ok model.now e }
{
    let d = records::wall_variable(model, e);
    let b = records::guard(model, e);
    let w = records::source_wall(model, e);
    (b[2 * d] == w) & (b[2 * d + 1] == w)
}

// The level of d after the switch: its reset value, or the source wall if d is unmasked.
#[tactic(auto, using(crate::proofs::Lengths::places), unfolding(plant::specs::Questions::level_after, plant::specs::Box::low, plant::specs::Box::high))]
fn level_after(model: &[i32], e: usize) -> i32
    requires { Placed model.now e }
    ensures { result ≡ Q.level_after model.now e }
{
    let d = records::wall_variable(model, e);
    if records::masked(records::reset_mask(model, e), d) {
        records::reset(model, e)[2 * d]
    } else {
        records::source_wall(model, e)
    }
}

// Target wall equal to it.
#[tactic(auto, unfolding(plant::specs::Questions::lands_ok))]
fn lands_ok(model: &[i32], e: usize) -> bool
    requires { Placed model.now e }
    ensures { result ≡ Q.lands_ok model.now e }
{
    records::target_wall(model, e) == level_after(model, e)
}

#[tactic(auto, using(plant::proofs::Refusing::chains), unfolding(plant::specs::Questions::switch_questions))]
fn switch_questions(model: &[i32], e: usize) -> Result<(), Refusal>
    requires { Whole model.now × (e < M.E# model.now) }
    ensures { asked result ≡ Q.switch_questions model.now e }
{
    ask(places_ok(model, e), Refusal::Places)?;
    ask(boxes_ok(model, e), Refusal::SwitchBoxes)?;
    ask(single_ok(model, e), Refusal::MaskedResets)?;
    ask(guard_ok(model, e), Refusal::Guard)?;
    ask(lands_ok(model, e), Refusal::Landing)
}

// ---- the question of a forbidden box

// Location exists, box ordered, in range?
#[tactic(auto, using(crate::proofs::Lengths::places), unfolding(plant::specs::Questions::forbidden_question))]
fn forbidden_question(model: &[i32], b: usize) -> Result<(), Refusal>
    requires { Whole model.now × (b < M.B# model.now) }
    ensures { asked result ≡ Q.forbidden_question model.now b }
{
    let n = records::variables(model);
    let exists = below_ok(
        model,
        records::forbidden_at(model, b),
        records::locations(model),
    );
    ask(
        exists & box_ok(records::forbidden_box(model, b), n, LEVEL_LIMIT),
        Refusal::Forbidden,
    )
}

// ---- the question of a cut

// Strictly between the low and the high of variable i of a box.
#[tactic(auto, unfolding(plant::specs::Questions::strictly_inside, plant::specs::Box::low, plant::specs::Box::high))]
fn strictly_inside(b: &[i32], i: usize, x: i32) -> bool
    requires { 2 * i + 1 < length b.now }
    ensures { result ≡ Q.strictly_inside b.now i x }
{
    (b[2 * i] < x) & (x < b[2 * i + 1])
}

// One of the variables, and a value strictly inside the invariant.
#[tactic(auto, using(crate::proofs::Lengths::places, crate::proofs::Asked::variable_asked))]
fn cut_inside(model: &[i32], l: usize) -> bool
    requires { Whole model.now × (l < M.L# model.now) }
    ensures { result ≡ (Q.below_ok model.now (M.cut_at model.now l) (M.n# model.now) && Q.strictly_inside (M.invariant model.now l) (nat_abs (M.cut_variable model.now l)) (M.cut_value model.now l)) }
{
    below_ok(model, records::cut_at(model, l), records::variables(model))
        && strictly_inside(
            records::invariant(model, l),
            records::cut_variable(model, l).unsigned_abs() as usize,
            records::cut_value(model, l),
        )
}

// -1 and 0, or such a variable and value?
#[tactic(auto, unfolding(plant::specs::Questions::cut_question, plant::specs::Questions::cut_ok))]
fn cut_question(model: &[i32], l: usize) -> Result<(), Refusal>
    requires { Whole model.now × (l < M.L# model.now) }
    ensures { asked result ≡ Q.cut_question model.now l }
{
    let no_variable = records::cut_variable(model, l) == -1;
    let no_value = records::cut_value(model, l) == 0;
    ask(
        (no_variable & no_value) | cut_inside(model, l),
        Refusal::CutPlace,
    )
}

// ---- the questions of a model

// n, L, E and B allowed?
#[tactic(auto, using(plant::proofs::Refusing::chains), unfolding(plant::specs::Questions::ranges_questions))]
pub fn ranges_questions(model: &[i32]) -> Result<(), Refusal>
    requires { M.head_size ≤ length model.now }
    ensures { asked result ≡ Q.ranges_questions model.now }
{
    ask(word_within(model, 0, 1, 6), Refusal::Variables)?;
    ask(word_within(model, 1, 1, 64), Refusal::Locations)?;
    let switches_ok = word_within(model, 2, 0, 128);
    let boxes_ok = word_within(model, 3, 0, 64);
    ask(switches_ok & boxes_ok, Refusal::SwitchesAndBoxes)
}

// The edition 1 or 2?
#[tactic(auto, unfolding(plant::specs::Questions::edition_question))]
fn edition_question(model: &[i32]) -> Result<(), Refusal>
    requires { Head model.now }
    ensures { asked result ≡ Q.edition_question model.now }
{
    ask(
        integers::within(records::edition(model) as i64, 1, 2),
        Refusal::Edition,
    )
}

#[tactic(auto, using(plant::proofs::Refusing::runs))]
fn locations_questions(model: &[i32]) -> Result<(), Refusal>
    requires { Whole model.now }
    ensures { asked result ≡ S.first (M.L# model.now) (Q.location_questions model.now) }
{
    for l in 0..records::locations(model) {
        location_questions(model, l)?;
    }
    Ok(())
}

#[tactic(auto, using(plant::proofs::Refusing::runs))]
fn switches_questions(model: &[i32]) -> Result<(), Refusal>
    requires { Whole model.now }
    ensures { asked result ≡ S.first (M.E# model.now) (Q.switch_questions model.now) }
{
    for e in 0..records::switches(model) {
        switch_questions(model, e)?;
    }
    Ok(())
}

#[tactic(auto, using(plant::proofs::Refusing::runs))]
fn forbidden_questions(model: &[i32]) -> Result<(), Refusal>
    requires { Whole model.now }
    ensures { asked result ≡ S.first (M.B# model.now) (Q.forbidden_question model.now) }
{
    for b in 0..records::forbidden_boxes(model) {
        forbidden_question(model, b)?;
    }
    Ok(())
}

#[tactic(auto, using(plant::proofs::Refusing::runs))]
fn cuts_questions(model: &[i32]) -> Result<(), Refusal>
    requires { Whole model.now }
    ensures { asked result ≡ S.first (M.L# model.now) (Q.cut_question model.now) }
{
    for l in 0..records::locations(model) {
        cut_question(model, l)?;
    }
    Ok(())
}

// The questions of each record in turn, 11 to 19, then of each cut, 46.
#[tactic(auto, using(plant::proofs::Refusing::chains), unfolding(plant::specs::Questions::records_questions))]
pub fn records_questions(model: &[i32]) -> Result<(), Refusal>
    requires { Whole model.now }
    ensures { asked result ≡ Q.records_questions model.now }
{
    locations_questions(model)?;
    switches_questions(model)?;
    forbidden_questions(model)?;
    cuts_questions(model)
}

// The questions of a model's words, 2 to 5, 43, 11 to 19 and 46: the refusal of the first that is not yes.
#[tactic(auto, using(plant::proofs::Refusing::chains), unfolding(plant::specs::Questions::model_questions))]
pub fn questions(model: &[i32]) -> Result<(), Refusal>
    ensures { asked result ≡ Q.model_questions model.now }
{
    ask(records::HEAD_SIZE <= model.len(), Refusal::Words)?;
    ranges_questions(model)?;
    edition_question(model)?;
    ask(records::size(model) <= model.len(), Refusal::Words)?;
    records_questions(model)
}
