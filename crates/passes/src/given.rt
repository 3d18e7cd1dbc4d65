// What a pass is given: a model and a table of it that passed their questions, and how many pieces stand before each location.
ghost use Rattle.std.specs.Prelude.{ℕ, ◌<◌};
ghost use Rattle.plant.specs.Model.{E#};
ghost use Rattle.plant.proofs.Whole.{Whole, Placed};
ghost use Rattle.tables.specs.Places.{Places};
ghost use Rattle.passes.specs.Checked.{Checked};

#[derive(Drop)]
pub(crate) struct Given<'a> {
    pub(crate) model: &'a [i32],
    pub(crate) places: &'a [usize],
    pub(crate) table: &'a [i32],
    ghost checked: { Checked model.now table.now },
    ghost counted: { Places model.now places.now },
    ghost whole: { Whole model.now },
    ghost placed: { (e : ℕ) → e < E# model.now → Placed model.now e },
}
