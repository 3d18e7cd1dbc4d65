// The words of a table: faces, or their pieces, each a flag and a box (document 01, "Pass, ceiling"; document 02, T-12). These
// functions serve the crates above and are no calls of outsiders: what they are lent has passed its questions.
#![tactic(auto)]

ghost use Rattle.std.specs.Prelude.{◌≡◌, ◌+◌, ◌*◌, ◌<◌, ◌≤◌, pos, length, take, drop, set, Some};
ghost use Rattle.integers.specs.Words.{word};
ghost use Rattle.integers.specs.Counted.{sum_below};
ghost use Rattle.plant.specs.Box as B;
ghost use Rattle.plant.specs.Box.{hull, box_at, present, face_words};
ghost use Rattle.plant.specs.Model.{L#};
ghost use Rattle.plant.specs.Pieces as P;
ghost use Rattle.plant.specs.Pieces.{per_face};
ghost use Rattle.plant.specs.Tables.{words_per_location, face_size, piece_count, table_size, face_read};
ghost use Rattle.plant.proofs.Whole.{Whole};
ghost use Rattle.tables.specs.Places.{Places};
ghost use Rattle.tables.specs.Room.{Joinable, IsFace, joined_with, joined_each, between, cut_each, PiecesJoinable};

use plant::Cut;

// How many words are held for tables: room for a very small table (uncut: eight locations of two variables, one of six), for a small
// one (64 of two, eight of six), and for the largest (64 locations of six, all cut).
pub const FEWEST_WORDS: usize = 160;

pub const FEW_WORDS: usize = 1280;

pub const MOST_WORDS: usize = 19968;

// How many words a face of n variables has: flag, then low and high per variable. For n 7 too, as the next one.
pub fn face_size(n: usize) -> usize
    requires { n ≤ 7 }
    ensures { result ≡ face_size n }
{
    1 + 2 * n
}

// Words per uncut location of n variables: 2n faces of 1 + 2n words. Stated for n 7 too, though models have up to 6 variables
// (document 02, T-04).
fn words_per_location(n: usize) -> usize
    requires { n ≤ 7 }
    ensures { result ≡ words_per_location n }
{
    2 * n * face_size(n)
}

// ---- the pieces of a location (document 02, T-12)

// How many pieces a face has, by its location's cut.
pub fn pieces_per_face(cut: Option<Cut>) -> usize
    ensures { result ≡ P.pieces_per_face cut }
{
    match cut {
        None => 1,
        Some(_) => 2,
    }
}

// How many pieces each face of location l has.
pub fn per_face(model: &[i32], l: usize) -> usize
    requires { Whole model.now × (l < L# model.now) }
    ensures { result ≡ per_face model.now l }
{
    pieces_per_face(records::cut(model, l))
}

// How many pieces location l has: 2n, or 4n where it is cut.
pub fn pieces(model: &[i32], l: usize) -> usize
    requires { Whole model.now × (l < L# model.now) }
    ensures { result ≡ P.pieces model.now l }
{
    2 * records::variables(model) * per_face(model, l)
}

// Writes how many pieces stand before each location, and at L how many there are.
pub fn places(model: &[i32], places: &mut [usize; 65])
    requires { Whole model.now × (length places.old ≡ 65) }
    ensures { Places model.now places.new }
{
    let mut before = 0;
    places[0] = 0;
    for l in 0..records::locations(model) {
        before += pieces(model, l);
        places[l + 1] = before;
    }
}

// The locations, a cut one counted twice: it has two pieces for each face.
fn layers(model: &[i32]) -> usize
    requires { Whole model.now }
    ensures { result ≡ sum_below (L# model.now) (per_face model.now) }
{
    let mut count = 0;
    for l in 0..records::locations(model) {
        count += per_face(model, l);
    }
    count
}

// How many pieces a table of the model has.
pub fn piece_count(model: &[i32]) -> usize
    requires { Whole model.now }
    ensures { result ≡ piece_count model.now }
{
    2 * records::variables(model) * layers(model)
}

// How many words a table of the model has.
pub fn table_size(model: &[i32]) -> usize
    requires { Whole model.now }
    ensures { result ≡ table_size model.now }
{
    layers(model) * words_per_location(records::variables(model))
}

// Where a piece begins in the table: piece q of a location before which so many pieces stand.
pub fn piece_at(before: usize, q: usize, n: usize) -> usize
    requires { (before ≤ 1536) × (q ≤ 24) × (n ≤ 6) }
    ensures { result ≡ (before + q) * face_size n }
{
    (before + q) * face_size(n)
}

// The words of the face that begins at a place.
pub fn face(words: &[i32], at: usize, n: usize) -> &[i32]
    requires { (n ≤ 6) × (at + face_size n ≤ length words.now) }
    ensures { result.now ≡ take (face_size n) (drop at words.now) }
{
    let end = at + face_size(n);
    &words[at..end]
}

// ---- joins

// The face becomes the box.
fn place(n: usize, from: &[i32], face: &mut [i32])
    requires { Joinable n from.now face.old }
    ensures { face.new ≡ face_words n (present from.now) }
{
    face[0] = 1;
    integers::copy(&from[..2 * n], &mut face[1..]);
}

// A present face is widened to the smallest box holding both.
fn widen(n: usize, from: &[i32], face: &mut [i32])
    requires { Joinable n from.now face.old × (word face.old 0 ≡ pos 1) }
    ensures { face.new ≡ face_words n (present (hull n (box_at n face.old 1) from.now)) }
{
    for i in 0..n {
        let low = 2 * i;
        let high = low + 1;
        face[low + 1] = face[low + 1].min(from[low]);
        face[high + 1] = face[high + 1].max(from[high]);
    }
}

// Joins a box to a face: the smallest box holding both.
pub fn join(n: usize, from: &[i32], face: &mut [i32])
    requires { Joinable n from.now face.old }
    ensures { face.new ≡ face_words n (B.join n (face_read n face.old 0) (present from.now)) }
{
    if face[0] == 1 {
        widen(n, from, face);
    } else {
        place(n, from, face);
    }
}

// ---- joins to the pieces of a face

// Joins to a piece what a box has with variable v from low to high: nothing, where low is above high.
fn join_between(n: usize, v: usize, low: i32, high: i32, from: &[i32], piece: &mut [i32])
    requires { (n ≤ 6) × (length from.now ≡ 2 * n) × (v < n) × IsFace n piece.old }
    ensures { piece.new ≡ joined_with n piece.old (between v low high from.now) }
{
    if low <= high {
        let mut part = [0i32; 12];
        let end = 2 * n;
        part[..end].copy_from_slice(from);
        part[2 * v] = low;
        part[2 * v + 1] = high;
        join(n, &part[..end], piece);
    }
}

// Joins a box to the two pieces of a face of wall variable d in a cut location: to the first what the box has up to the cut's value, to
// the second what it has from it. On the walls of the cut's variable the first piece is the whole face, and the second is absent.
pub fn join_both(n: usize, d: usize, cut: Cut, from: &[i32], pieces: &mut [i32])
    requires { PiecesJoinable n (Some cut) from.now pieces.old }
    ensures { pieces.new ≡ joined_each n 2 pieces.old (cut_each n (Some cut) d (present from.now)) }
{
    let (first, second) = pieces.split_at_mut(face_size(n));
    let v = cut.variable;
    if v == d {
        join(n, from, first);
    } else {
        let low = from[2 * v];
        let high = from[2 * v + 1];
        join_between(n, v, low, high.min(cut.value), from, first);
        join_between(n, v, low.max(cut.value), high, from, second);
    }
}

// Joins a box to the pieces of a face of wall variable d, by its location's cut.
pub fn join_pieces(n: usize, d: usize, cut: Option<Cut>, from: &[i32], pieces: &mut [i32])
    requires { PiecesJoinable n cut from.now pieces.old }
    ensures { pieces.new ≡ joined_each n (P.pieces_per_face cut) pieces.old (cut_each n cut d (present from.now)) }
{
    match cut {
        None => join(n, from, pieces),
        Some(cut) => join_both(n, d, cut, from, pieces),
    }
}
