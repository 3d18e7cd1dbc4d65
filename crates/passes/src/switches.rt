// The switch steps of a pass: each from a piece of the source's face of the table before the pass, given to the pieces of the
// target's face.
ghost use Rattle.std.specs.Prelude.{◌≡◌, ◌+◌, ◌*◌, ◌<◌, ◌≤◌, length};
ghost use Rattle.plant.specs.Box.{Ordered, present};
ghost use Rattle.plant.specs.Model.{n#, E#, source, target, cut_of};
ghost use Rattle.plant.specs.Tables as T;
ghost use Rattle.plant.specs.Tables.{table_by, source_piece, switch_step_at, walls_joined};
ghost use Rattle.delays.specs.Ranges.{Levels};
ghost use Rattle.steps.specs.Handing.{Handed};
ghost use Rattle.passes.specs.Parts.{IsPart};
ghost use Rattle.passes.specs.Joining.{Leaves, NoCut, IsTable, with_landed, with_switch, joined_below};

use super::given::Given;
use plant::Cut;

impl<'a> Given<'a> {
    // The step of switch e from a box of its source's face: writes the box on which it lands, and answers whether there is one.
    fn step(&self, e: usize, bounds: &[i32], out: &mut [i32]) -> bool
        requires { let m = self.now.model.now in (e < E# m) × Levels (n# m) bounds.now × (2 * n# m ≤ length out.old) }
        ensures { let m = self.now.model.now in Handed (n# m) result out.new out.old (switch_step_at m e (present bounds.now)) }
    {
        let model = self.model;
        let n = records::variables(model);
        let mask = records::reset_mask(model, e);
        let guard = records::guard(model, e);
        let reset = records::reset(model, e);
        let inv = records::invariant(model, records::target(model, e));
        steps::switch_step(n, mask, guard, reset, inv, bounds, out)
    }

    // Joins a box to the pieces of the face on which switch e lands, in a location with this cut.
    fn join_landed(&self, e: usize, cut: Option<Cut>, part: &[i32], out: &mut [i32])
        requires { let m = self.now.model.now in (e < E# m) × (cut ≡ cut_of m (target m e)) × (length part.now ≡ 2 * n# m) × Ordered (n# m) part.now × IsTable m out.old }
        ensures { out.new ≡ with_landed self.now.model.now e (present part.now) out.old }
    {
        let model = self.model;
        let n = records::variables(model);
        let l = records::target(model, e);
        let d = records::wall_variable(model, e);
        let f = 2 * d + records::target_side(model, e);
        let each = tables::pieces_per_face(cut);
        let at = tables::piece_at(self.places[l], f * each, n);
        let end = at + each * tables::face_size(n);
        tables::join_pieces(n, d, cut, part, &mut out[at..end]);
    }

    // Joins the step of switch e from a box of its source's face to the pieces of the face on which it lands.
    fn land(&self, e: usize, cut: Option<Cut>, bounds: &[i32], out: &mut [i32])
        requires { let m = self.now.model.now in (e < E# m) × (cut ≡ cut_of m (target m e)) × Levels (n# m) bounds.now × IsTable m out.old }
        ensures { let m = self.now.model.now in out.new ≡ with_landed m e (switch_step_at m e (present bounds.now)) out.old }
    {
        let mut after = [0i32; 12];
        let end = 2 * records::variables(self.model);
        if self.step(e, bounds, &mut after) {
            self.join_landed(e, cut, &after[..end], out);
        }
    }

    // The words of piece k of the face that switch e leaves, which has `count` pieces.
    fn source_piece(&self, e: usize, count: usize, k: usize) -> &'a [i32]
        requires { Leaves self.now.model.now e count k }
        ensures { let m = self.now.model.now in let t = self.now.table.now in IsPart (n# m) result.now (T.part_of m t (source m e) (source_piece m e k + 1)) }
    {
        let model = self.model;
        let n = records::variables(model);
        let l = records::source(model, e);
        let f = 2 * records::wall_variable(model, e) + records::source_side(model, e);
        let q = f * count + k;
        tables::face(self.table, tables::piece_at(self.places[l], q, n), n)
    }

    // Joins the step of switch e from piece k of its source's face, if it is there: an absent one lands nothing, and nothing more is
    // looked at.
    fn land_from(&self, e: usize, count: usize, k: usize, cut: Option<Cut>, out: &mut [i32])
        requires { let m = self.now.model.now in Leaves m e count k × (cut ≡ cut_of m (target m e)) × IsTable m out.old }
        ensures { out.new ≡ with_switch self.now.model.now self.now.table.now e k out.old }
    {
        let from = self.source_piece(e, count, k);
        if from[0] == 1 {
            let n = records::variables(self.model);
            self.land(e, cut, records::box_at(from, 1, n), out);
        }
    }

    // Joins the steps of switch e from all pieces of its source's face.
    fn land_each(&self, e: usize, out: &mut [i32])
        requires { let m = self.now.model.now in let t = self.now.table.now in (e < E# m) × (out.old ≡ table_by m (joined_below m t e)) }
        ensures { let m = self.now.model.now in let t = self.now.table.now in out.new ≡ table_by m (joined_below m t (e + 1)) }
    {
        let cut = records::cut(self.model, records::target(self.model, e));
        let count = tables::per_face(self.model, records::source(self.model, e));
        for k in 0..count {
            self.land_from(e, count, k, cut, out);
        }
    }

    // Joins all switch steps in a model with cuts.
    fn switches_cut(&self, out: &mut [i32])
        requires { let m = self.now.model.now in let t = self.now.table.now in out.old ≡ table_by m (walls_joined m t) }
        ensures { out.new ≡ T.pass self.now.model.now self.now.table.now }
    {
        for e in 0..records::switches(self.model) {
            self.land_each(e, out);
        }
    }

    // Joins all switch steps in a model without a cut: each face has one piece, and no cut is read.
    fn switches_uncut(&self, out: &mut [i32])
        requires { let m = self.now.model.now in let t = self.now.table.now in (out.old ≡ table_by m (walls_joined m t)) × NoCut m }
        ensures { out.new ≡ T.pass self.now.model.now self.now.table.now }
    {
        for e in 0..records::switches(self.model) {
            self.land_from(e, 1, 0, None, out);
        }
    }

    // Joins all switch steps to the pieces that have their wall steps.
    pub(crate) fn switches(&self, out: &mut [i32])
        requires { let m = self.now.model.now in let t = self.now.table.now in out.old ≡ table_by m (walls_joined m t) }
        ensures { out.new ≡ T.pass self.now.model.now self.now.table.now }
    {
        let locations = records::locations(self.model);
        if self.places[locations] == 2 * records::variables(self.model) * locations {
            self.switches_uncut(out);
        } else {
            self.switches_cut(out);
        }
    }
}
