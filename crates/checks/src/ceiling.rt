// The ceiling on passes, added up by location (document 02, T-07).
ghost use Rattle.std.specs.Prelude.{◌≡◌, ◌<◌, ◌≤◌};
ghost use Rattle.delays.specs.Ranges.{LevelAt, Levels};
ghost use Rattle.plant.specs.Model.{n#, L#, invariant, cut_of};
ghost use Rattle.plant.specs.Questions.{model_questions};
ghost use Rattle.plant.specs.Tables as T;
ghost use Rattle.plant.specs.Tables.{all_widths, uncut_ceiling, location_ceiling, ceiling_of};

// The width (high minus low) of variable i.
fn width(inv: &[i32], i: usize) -> u64
    requires { LevelAt inv.now i }
    ensures { result ≡ T.width inv.now i }
{
    let k = 2 * i;
    (integers::word(inv, k + 1) - integers::word(inv, k)).unsigned_abs()
}

// The sum of the widths of all n variables.
fn all_widths(n: usize, inv: &[i32]) -> u64
    requires { (n ≤ 6) × Levels n inv.now }
    ensures { result ≡ all_widths n inv.now }
{
    (0..n).map(|i| width(inv, i)).sum()
}

// 2n + 2(n - 1) × the sum of the widths; of no variables nothing.
fn uncut_ceiling(n: usize, widths: u64) -> u64
    requires { (n ≤ 6) × (widths ≤ 12000000) }
    ensures { (result ≡ uncut_ceiling n widths) × (result ≤ 120000012) }
{
    let n = n as u64;
    2 * n + 2 * n.saturating_sub(1) * widths
}

// What location l adds: with a cut as much again as a location of the other variables.
fn location_ceiling(model: &[i32], l: usize) -> u64
    requires { (model_questions model.now ≡ 0) × (l < L# model.now) }
    ensures { (result ≡ location_ceiling (n# model.now) (invariant model.now l) (cut_of model.now l)) × (result ≤ 240000024) }
{
    let n = records::variables(model);
    let inv = records::invariant(model, l);
    let widths = all_widths(n, inv);
    let faces = uncut_ceiling(n, widths);
    let Some(cut) = records::cut(model, l) else {
        return faces;
    };
    let others = widths - width(inv, cut.variable);
    faces + uncut_ceiling(n - 1, others)
}

// The sum over all locations.
pub fn ceiling_of(model: &[i32]) -> u64
    requires { model_questions model.now ≡ 0 }
    ensures { result ≡ ceiling_of model.now }
{
    (0..records::locations(model))
        .map(|l| location_ceiling(model, l))
        .sum()
}
