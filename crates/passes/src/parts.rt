// The start part of a location, from which delays start as from its present pieces.
ghost use Rattle.std.specs.Prelude.{◌≡◌, ◌*◌, ◌<◌, ◌≤◌, length};
ghost use Rattle.plant.specs.Model.{n#, L#};
ghost use Rattle.plant.specs.Questions.{model_questions};
ghost use Rattle.plant.specs.Tables.{start_part};
ghost use Rattle.steps.specs.Handing.{Handed};

// The start part of location l, under start flag 1 the start box cut to the invariant: writes its box to the front of a lent list,
// and answers whether there is one.
pub fn start_part(model: &[i32], l: usize, out: &mut [i32]) -> bool
    requires { (model_questions model.now ≡ 0) × (l < L# model.now) × (2 * n# model.now ≤ length out.old) }
    ensures { Handed (n# model.now) result out.new out.old (start_part model.now l) }
{
    if records::start_flag(model, l) == 1 {
        let n = records::variables(model);
        let start = records::start_box(model, l);
        let inv = records::invariant(model, l);
        steps::cut_box(n, start, inv, out)
    } else {
        false
    }
}
