// The wall steps of a pass: to each face, from the location's start part and pieces; a step is made once for a part and a face, and
// then given to the pieces of the face.
ghost use Rattle.std.specs.Prelude.{◌≡◌, ◌*◌, ◌<◌, ◌≤◌, pos, length};
ghost use Rattle.integers.specs.Words.{word};
ghost use Rattle.plant.specs.Box.{Ordered, box_at, hull, present, face_words};
ghost use Rattle.plant.specs.Model.{L#, variable_of, cut_of};
ghost use Rattle.plant.specs.Pieces.{pieces_per_face, pieces};
ghost use Rattle.plant.specs.Questions.{model_questions};
ghost use Rattle.plant.specs.Steps.{face_after};
ghost use Rattle.plant.specs.Tables.{face_size, pieces_before, table_size, face_read, piece_of, table_by, start_part, walls_joined};
ghost use Rattle.delays.specs.Ranges.{Levels, Rates};
ghost use Rattle.tables.specs.Room.{AreFaces, CutBelow};
ghost use Rattle.passes.specs.Joining.{below_prop, PartOk, Located, location_by};

use super::given::Given;
use super::parts;
use plant::{Cut, End, Interval};

// A location, as its wall steps go: its number of variables, its invariant, its rate box and its cut.
#[derive(Drop)]
struct Place<'a> {
    n: usize,
    invariant: &'a [i32],
    rate: &'a [i32],
    cut: Option<Cut>,
    ghost n_small: { n ≤ 6 },
    ghost levels: { Levels n invariant.now },
    ghost rates: { Rates n rate.now },
    ghost rate_ordered: { Ordered n rate.now },
    ghost cut_below: { CutBelow n cut } by { below_prop n cut },
}

// The cut of location l with so many pieces: its words are read only where it is cut.
fn cut(model: &[i32], l: usize, n: usize, count: usize) -> Option<Cut>
    requires { Located model.now l n count }
    ensures { result ≡ cut_of model.now l }
{
    if count == 2 * n {
        None
    } else {
        records::cut(model, l)
    }
}

impl<'a> Place<'a> {
    ghost use Rattle.passes.specs.Placing.{IsPlace, IsInside, AfterJoin, WallJoin, IsBlock, after, step, with_face, with_walls};

    // Location l, with so many pieces.
    fn read(model: &'a [i32], l: usize, count: usize) -> Self
        requires { (model_questions model.now ≡ 0) × (l < L# model.now) × (count ≡ pieces model.now l) }
        ensures { IsPlace model.now l result }
    {
        let n = records::variables(model);
        let invariant = records::invariant(model, l);
        let rate = records::rate(model, l);
        let cut = cut(model, l, n, count);
        Place {
            n,
            invariant,
            rate,
            cut,
        }
    }

    // Joins to a present face, bound by bound, the box after the delays t to the value b of variable d.
    fn widen_after(&self, bounds: &[i32], d: usize, b: i64, t: Interval, face: &mut [i32])
        requires { AfterJoin self.now bounds.now b t × (length face.old ≡ face_size self.now.n) × (word face.old 0 ≡ pos 1) }
        ensures { face.new ≡ face_words self.now.n (present (hull self.now.n (box_at self.now.n face.old 1) (after self.now bounds.now d b t))) }
    {
        // Named outside the loop: behind `self` they would be read again after each word that is written.
        let Place {
            n,
            invariant,
            rate,
            ..
        } = *self;
        for i in 0..n {
            let lo = steps::low_after(invariant, rate, bounds, d, b, t, i) as i32;
            let hi = steps::high_after(invariant, rate, bounds, d, b, t, i) as i32;
            let low = 2 * i + 1;
            let high = low + 1;
            face[low] = face[low].min(lo);
            face[high] = face[high].max(hi);
        }
    }

    // Joins to the pieces of a face the box after the delays t to the value b of variable d. Not inlined: the walls of an uncut location
    // that are reached already go without it, and have its registers.
    #[inline(never)]
    fn join_after(&self, bounds: &[i32], d: usize, b: i64, t: Interval, pieces: &mut [i32])
        requires { AfterJoin self.now bounds.now b t × AreFaces self.now.n (pieces_per_face self.now.cut) pieces.old }
        ensures { pieces.new ≡ with_face self.now d (face_after self.now.n self.now.invariant.now self.now.rate.now bounds.now d b (Some t)) pieces.old }
    {
        let n = self.n;
        let size = 2 * n;
        let mut after = [0i32; 12];
        if steps::box_after(n, self.invariant, self.rate, bounds, d, b, t, &mut after) {
            tables::join_pieces(n, d, self.cut, &after[..size], pieces);
        }
    }

    // Joins to the pieces of face f the wall step from a box, whose window ends at `end`. The step's box is never empty: a present
    // face in an uncut location is widened by it without a copy.
    fn join_wall(&self, bounds: &[i32], end: End, f: usize, pieces: &mut [i32])
        requires { WallJoin self.now bounds.now end f pieces.old }
        ensures { pieces.new ≡ with_face self.now (variable_of f) (step self.now bounds.now f) pieces.old }
    {
        let d = f / 2;
        let b = integers::word(self.invariant, f);
        let Some(t) = delays::wall_delays(self.rate, bounds, d, b, end) else {
            return;
        };
        let there = pieces[0] == 1;
        if there && self.cut.is_none() {
            self.widen_after(bounds, d, b, t, pieces);
        } else {
            self.join_after(bounds, d, b, t, pieces);
        }
    }

    // Joins to the pieces of each face the wall step from a box. Its window is made once, for all walls.
    fn join_walls(&self, bounds: &[i32], block: &mut [i32])
        requires { IsInside self.now bounds.now × IsBlock self.now block.old }
        ensures { block.new ≡ with_walls self.now (present bounds.now) block.old }
    {
        let end = delays::window_end(self.n, self.invariant, self.rate, bounds);
        let faces = 2 * self.n;
        let size = tables::pieces_per_face(self.cut) * tables::face_size(self.n);
        for f in 0..faces {
            let at = f * size;
            let next = at + size;
            self.join_wall(bounds, end, f, &mut block[at..next]);
        }
    }

    // Joins to the pieces of each face the wall step from a part, if it is there.
    fn join_part(&self, part: &[i32], block: &mut [i32])
        requires { PartOk self.now.n (IsInside self.now) part.now × IsBlock self.now block.old }
        ensures { block.new ≡ with_walls self.now (face_read self.now.n part.now 0) block.old }
    {
        if part[0] == 1 {
            self.join_walls(records::box_at(part, 1, self.n), block);
        }
    }

    // Joins to the pieces of each face the wall step from the start part of location l, if there is one: holds words for it.
    fn join_started(&self, model: &[i32], l: usize, block: &mut [i32])
        requires { (model_questions model.now ≡ 0) × (l < L# model.now) × IsPlace model.now l self.now × IsBlock self.now block.old }
        ensures { block.new ≡ with_walls self.now (start_part model.now l) block.old }
    {
        let mut start = [0i32; 12];
        let end = 2 * self.n;
        if parts::start_part(model, l, &mut start) {
            self.join_walls(&start[..end], block);
        }
    }

    // The same, once the start flag is asked: without flag 1 no words are held, and none cleared.
    fn join_start(&self, model: &[i32], l: usize, block: &mut [i32])
        requires { (model_questions model.now ≡ 0) × (l < L# model.now) × IsPlace model.now l self.now × IsBlock self.now block.old }
        ensures { block.new ≡ with_walls self.now (start_part model.now l) block.old }
    {
        if records::start_flag(model, l) == 1 {
            self.join_started(model, l, block);
        }
    }
}

impl Given<'_> {
    // Joins to the pieces of location l, `count` of them, before which so many stand in the table, the wall steps from all parts of
    // the location: its start part, and its pieces.
    fn join_parts(&self, l: usize, before: usize, count: usize, block: &mut [i32])
        requires { let m = self.now.model.now in let t = self.now.table.now in (l < L# m) × (before ≡ pieces_before m l) × (count ≡ pieces m l) × (block.old ≡ location_by m l (piece_of m t l)) }
        ensures { let m = self.now.model.now in let t = self.now.table.now in block.new ≡ location_by m l (walls_joined m t l) }
    {
        let place = Place::read(self.model, l, count);
        place.join_start(self.model, l, block);
        for q in 0..count {
            let at = tables::piece_at(before, q, place.n);
            place.join_part(tables::face(self.table, at, place.n), block);
        }
    }

    // The whole table: its words are copied at once, and the wall steps of each location joined to them.
    pub(crate) fn walls(&self, out: &mut [i32])
        requires { length out.old ≡ table_size self.now.model.now }
        ensures { let m = self.now.model.now in let t = self.now.table.now in out.new ≡ table_by m (walls_joined m t) }
    {
        let n = records::variables(self.model);
        let size = out.len();
        integers::copy(&self.table[..size], out);
        for l in 0..records::locations(self.model) {
            let before = self.places[l];
            let next = self.places[l + 1];
            let at = tables::piece_at(before, 0, n);
            let end = tables::piece_at(next, 0, n);
            self.join_parts(l, before, next - before, &mut out[at..end]);
        }
    }
}
