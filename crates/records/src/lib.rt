// Reading a model's words: its numbers of variables, locations, switches and forbidden boxes, its edition, where the records stand, and
// what they hold. These functions serve the crates above and are no calls of outsiders: what they are lent has passed its questions so
// far.
// The proofs open the definitions that the contracts cite, and go by where the records stand (proofs/Places).
#![tactic(auto, using(crate::proofs::Places::places), unfolding(plant::specs::Model::location_at, plant::specs::Model::switch_at, plant::specs::Model::forbidden_at, plant::specs::Model::cut_at, plant::specs::Model::model_size, plant::specs::Box::box_at, plant::specs::Model::invariant, plant::specs::Model::rate, plant::specs::Model::start_flag, plant::specs::Model::start_box, plant::specs::Model::source, plant::specs::Model::target, plant::specs::Model::wall_variable, plant::specs::Model::source_side, plant::specs::Model::target_side, plant::specs::Model::reset_mask, plant::specs::Model::masked, plant::specs::Model::guard, plant::specs::Model::reset, plant::specs::Model::forbidden_location, plant::specs::Model::forbidden_box, plant::specs::Model::cut_variable, plant::specs::Model::cut_value, plant::specs::Questions::source_wall, plant::specs::Questions::target_wall, plant::specs::Model::cut_of, plant::specs::Model::cut_from))]

ghost use Rattle.std.specs.Prelude.{◌≡◌, ◌+◌, ◌*◌, ◌≤◌, ◌<◌, T, length};
ghost use Rattle.std.specs.Int.Signed.{non_neg};
ghost use Rattle.integers.specs.Words as W;
ghost use Rattle.plant.specs.Box as B;
ghost use Rattle.plant.specs.Model as M;
ghost use Rattle.plant.specs.Questions as Q;
ghost use Rattle.plant.proofs.Whole.{Head, Whole, Numbered, Placed};

use plant::Cut;

// ---- the head: how many variables, locations, switches and forbidden boxes the model has, and its edition

pub fn variables(model: &[i32]) -> usize
    requires { Head model.now }
    ensures { result ≡ M.n# model.now }
{
    integers::number(model, 0)
}

pub fn locations(model: &[i32]) -> usize
    requires { Head model.now }
    ensures { result ≡ M.L# model.now }
{
    integers::number(model, 1)
}

pub fn switches(model: &[i32]) -> usize
    requires { Head model.now }
    ensures { result ≡ M.E# model.now }
{
    integers::number(model, 2)
}

pub fn forbidden_boxes(model: &[i32]) -> usize
    requires { Head model.now }
    ensures { result ≡ M.B# model.now }
{
    integers::number(model, 3)
}

// 1 or 2 in a model that passes its questions (document 02, T-10).
pub fn edition(model: &[i32]) -> i32
    requires { Head model.now }
    ensures { result ≡ M.edition model.now }
{
    model[4]
}

// ---- how many words the head has, and each record of n variables

pub const HEAD_SIZE: usize = 5;

pub fn location_size(n: usize) -> usize
    requires { n ≤ 6 }
    ensures { result ≡ M.location_size n }
{
    6 * n + 1
}

pub fn switch_size(n: usize) -> usize
    requires { n ≤ 6 }
    ensures { result ≡ M.switch_size n }
{
    6 + 4 * n
}

pub fn forbidden_size(n: usize) -> usize
    requires { n ≤ 6 }
    ensures { result ≡ M.forbidden_size n }
{
    1 + 2 * n
}

// How many words a location's cut has, after the forbidden boxes: variable and value (document 02, T-12).
pub const CUT_SIZE: usize = 2;

// The words of the largest model: 6 variables, 64 locations, 128 switches, 64 forbidden boxes.
pub const MOST_WORDS: usize = 7173;

// Words enough for small models: those that a call on files holds at first.
pub const FEW_WORDS: usize = 512;

// ---- where the records stand

pub fn location_at(model: &[i32], l: usize) -> usize
    requires { Head model.now × (l ≤ 64) }
    ensures { result ≡ M.location_at model.now l }
{
    HEAD_SIZE + l * location_size(variables(model))
}

pub fn switch_at(model: &[i32], e: usize) -> usize
    requires { Head model.now × (e ≤ 128) }
    ensures { result ≡ M.switch_at model.now e }
{
    location_at(model, locations(model)) + e * switch_size(variables(model))
}

pub fn forbidden_at(model: &[i32], b: usize) -> usize
    requires { Head model.now × (b ≤ 64) }
    ensures { result ≡ M.forbidden_at model.now b }
{
    switch_at(model, switches(model)) + b * forbidden_size(variables(model))
}

pub fn cut_at(model: &[i32], l: usize) -> usize
    requires { Head model.now × (l ≤ 64) }
    ensures { result ≡ M.cut_at model.now l }
{
    forbidden_at(model, forbidden_boxes(model)) + l * CUT_SIZE
}

// How many words the model has.
pub fn size(model: &[i32]) -> usize
    requires { Head model.now }
    ensures { result ≡ M.model_size model.now }
{
    cut_at(model, locations(model))
}

// The box of n variables at a place of the words.
pub fn box_at(s: &[i32], at: usize, n: usize) -> &[i32]
    requires { at + 2 * n ≤ length s.now }
    ensures { result.now ≡ B.box_at n s.now at }
{
    let end = at + 2 * n;
    &s[at..end]
}

// ---- the record of a location

pub fn invariant(model: &[i32], l: usize) -> &[i32]
    requires { Whole model.now × (l < M.L# model.now) }
    ensures { result.now ≡ M.invariant model.now l }
{
    box_at(model, location_at(model, l), variables(model))
}

pub fn rate(model: &[i32], l: usize) -> &[i32]
    requires { Whole model.now × (l < M.L# model.now) }
    ensures { result.now ≡ M.rate model.now l }
{
    let n = variables(model);
    box_at(model, location_at(model, l) + 2 * n, n)
}

pub fn start_flag(model: &[i32], l: usize) -> i32
    requires { Whole model.now × (l < M.L# model.now) }
    ensures { result ≡ M.start_flag model.now l }
{
    model[location_at(model, l) + 4 * variables(model)]
}

pub fn start_box(model: &[i32], l: usize) -> &[i32]
    requires { Whole model.now × (l < M.L# model.now) }
    ensures { result.now ≡ M.start_box model.now l }
{
    let n = variables(model);
    box_at(model, location_at(model, l) + (4 * n + 1), n)
}

// ---- the record of a switch

// Its word k of the six numbers before its boxes.
fn switch_number(model: &[i32], e: usize, k: usize) -> usize
    requires { Numbered model.now e × (k < 6) }
    ensures { result ≡ W.num model.now (M.switch_at model.now e + k) }
{
    integers::number(model, switch_at(model, e) + k)
}

pub fn source(model: &[i32], e: usize) -> usize
    requires { Numbered model.now e }
    ensures { result ≡ M.source model.now e }
{
    switch_number(model, e, 0)
}

pub fn target(model: &[i32], e: usize) -> usize
    requires { Numbered model.now e }
    ensures { result ≡ M.target model.now e }
{
    switch_number(model, e, 1)
}

pub fn wall_variable(model: &[i32], e: usize) -> usize
    requires { Numbered model.now e }
    ensures { result ≡ M.wall_variable model.now e }
{
    switch_number(model, e, 2)
}

pub fn source_side(model: &[i32], e: usize) -> usize
    requires { Numbered model.now e }
    ensures { result ≡ M.source_side model.now e }
{
    switch_number(model, e, 3)
}

pub fn target_side(model: &[i32], e: usize) -> usize
    requires { Numbered model.now e }
    ensures { result ≡ M.target_side model.now e }
{
    switch_number(model, e, 4)
}

pub fn reset_mask(model: &[i32], e: usize) -> usize
    requires { Numbered model.now e }
    ensures { result ≡ M.reset_mask model.now e }
{
    switch_number(model, e, 5)
}

// Bit i of a reset mask.
pub fn masked(mask: usize, i: usize) -> bool
    requires { i < 64 }
    ensures { result ≡ M.masked mask i }
{
    (mask >> i) % 2 == 1
}

pub fn guard(model: &[i32], e: usize) -> &[i32]
    requires { Whole model.now × (e < M.E# model.now) }
    ensures { result.now ≡ M.guard model.now e }
{
    box_at(model, switch_at(model, e) + 6, variables(model))
}

pub fn reset(model: &[i32], e: usize) -> &[i32]
    requires { Whole model.now × (e < M.E# model.now) }
    ensures { result.now ≡ M.reset model.now e }
{
    let n = variables(model);
    box_at(model, switch_at(model, e) + (6 + 2 * n), n)
}

// ---- the record of a forbidden box

pub fn forbidden_location(model: &[i32], b: usize) -> usize
    requires { Whole model.now × (b < M.B# model.now) × T (non_neg (W.word model.now (M.forbidden_at model.now b))) }
    ensures { result ≡ M.forbidden_location model.now b }
{
    integers::number(model, forbidden_at(model, b))
}

pub fn forbidden_box(model: &[i32], b: usize) -> &[i32]
    requires { Whole model.now × (b < M.B# model.now) }
    ensures { result.now ≡ M.forbidden_box model.now b }
{
    box_at(model, forbidden_at(model, b) + 1, variables(model))
}

// ---- the cut of a location

pub fn cut_variable(model: &[i32], l: usize) -> i32
    requires { Whole model.now × (l < M.L# model.now) }
    ensures { result ≡ M.cut_variable model.now l }
{
    model[cut_at(model, l)]
}

pub fn cut_value(model: &[i32], l: usize) -> i32
    requires { Whole model.now × (l < M.L# model.now) }
    ensures { result ≡ M.cut_value model.now l }
{
    model[cut_at(model, l) + 1]
}

// None where the variable is -1.
pub fn cut(model: &[i32], l: usize) -> Option<Cut>
    requires { Whole model.now × (l < M.L# model.now) }
    ensures { result ≡ M.cut_of model.now l }
{
    let variable = cut_variable(model, l);
    if variable == -1 {
        return None;
    }
    Some(Cut {
        variable: variable.unsigned_abs() as usize,
        value: cut_value(model, l),
    })
}

// The wall (d, s) of an invariant.
pub fn wall(inv: &[i32], d: usize, s: usize) -> i32
    requires { (2 * d + 1 < length inv.now) × (s ≤ 1) }
    ensures { result ≡ M.wall inv.now d s }
{
    inv[2 * d + s]
}

// The wall that a switch leaves.
pub fn source_wall(model: &[i32], e: usize) -> i32
    requires { Placed model.now e }
    ensures { result ≡ Q.source_wall model.now e }
{
    let inv = invariant(model, source(model, e));
    wall(inv, wall_variable(model, e), source_side(model, e))
}

// The wall on which it lands.
pub fn target_wall(model: &[i32], e: usize) -> i32
    requires { Placed model.now e }
    ensures { result ≡ Q.target_wall model.now e }
{
    let inv = invariant(model, target(model, e));
    wall(inv, wall_variable(model, e), target_side(model, e))
}
