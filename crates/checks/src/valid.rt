// Question 32 of a table: flags 0 or 1, absent pieces zero, present ones ordered, inside the invariant, on their wall, and each
// keeping to its side.
ghost use Rattle.std.specs.Prelude.{◌≡◌, ◌||◌, ◌+◌, ◌*◌, ◌<◌, length};
ghost use Rattle.integers.specs.Counted.{all_below};
ghost use Rattle.plant.specs.Model.{L#, variable_of, side_of, wall};
ghost use Rattle.plant.specs.Pieces.{extent_by, keeps_to, pieces};
ghost use Rattle.plant.specs.Tables as T;
ghost use Rattle.plant.specs.Tables.{face_size, pieces_before, absent_ok, present_ok, piece_ok, table_ok};
ghost use Rattle.tables.specs.Places.{Places};
ghost use Rattle.passes.specs.Ready.{TableReady};
ghost use Rattle.checks.specs.Ready.{CutNamed, LocationReady};

use plant::Cut;

// A box lies on the wall w of variable d.
fn on_wall(bounds: &[i32], d: usize, w: i32) -> bool
    requires { 2 * d + 1 < length bounds.now }
    ensures { result ≡ T.on_wall bounds.now d w }
{
    let k = 2 * d;
    (bounds[k] == w) & (bounds[k + 1] == w)
}

// A box keeps to the side of piece k of a face with the wall variable d, in a location with this cut.
fn keeps(bounds: &[i32], cut: Option<Cut>, d: usize, k: usize) -> bool
    requires { CutNamed (length bounds.now) cut }
    ensures { result ≡ keeps_to (extent_by cut d k) bounds.now }
{
    match cut {
        None => true,
        Some(cut) if cut.variable == d => k == 0,
        Some(cut) if k == 0 => bounds[2 * cut.variable + 1] <= cut.value,
        Some(cut) => cut.value <= bounds[2 * cut.variable],
    }
}

// The words of piece k of face f, in a location of n variables with this invariant and cut.
fn piece_ok(n: usize, inv: &[i32], cut: Option<Cut>, f: usize, k: usize, piece: &[i32]) -> bool
    requires { LocationReady n inv.now cut × (f < 2 * n) × (length piece.now ≡ face_size n) }
    ensures { result ≡ (absent_ok n piece.now || present_ok n inv.now (variable_of f) (wall inv.now (variable_of f) (side_of f)) (extent_by cut (variable_of f) k) piece.now) }
{
    let bounds = &piece[1..];
    if piece[0] == 1 {
        let d = f / 2;
        let w = records::wall(inv, d, f % 2);
        model::inside_ok(bounds, inv, n) & (on_wall(bounds, d, w) & keeps(bounds, cut, d, k))
    } else {
        (piece[0] == 0) & model::zeros_ok(bounds, 2 * n)
    }
}

// The pieces of location l, which stand behind the earlier ones in the table.
fn location_ok(model: &[i32], table: &[i32], l: usize, earlier: usize) -> bool
    requires { TableReady model.now table.now × (l < L# model.now) × (earlier ≡ pieces_before model.now l) }
    ensures { result ≡ all_below (pieces model.now l) (piece_ok model.now table.now l) }
{
    let n = records::variables(model);
    let inv = records::invariant(model, l);
    let cut = records::cut(model, l);
    let c = tables::pieces_per_face(cut);
    let mut ok = true;
    for q in 0..2 * n * c {
        let piece = tables::face(table, tables::piece_at(earlier, q, n), n);
        ok &= piece_ok(n, inv, cut, q / c, q % c, piece);
    }
    ok
}

// Question 32 of a table.
pub fn table_ok(model: &[i32], places: &[usize], table: &[i32]) -> bool
    requires { TableReady model.now table.now × Places model.now places.now }
    ensures { result ≡ table_ok model.now table.now }
{
    let mut ok = true;
    for l in 0..records::locations(model) {
        ok &= location_ok(model, table, l, places[l]);
    }
    ok
}
