// The pass over a table (document 01, "Pass, ceiling"), with pieces for faces (document 02, T-12), and the start part of a location,
// from which it steps as from pieces (T-02). Both functions serve the crates above and are no calls of outsiders: model and table have passed their questions.
#![tactic(auto)]

ghost use Rattle.std.specs.Prelude.{◌≡◌, length};
ghost use Rattle.plant.specs.Tables as T;
ghost use Rattle.tables.specs.Places.{Places};
ghost use Rattle.passes.specs.Checked.{Checked};

mod given;
mod parts;
mod switches;
mod walls;

use given::Given;
pub use parts::start_part;

// A pass: writes to `out` the table after it, each piece joined with every wall step and every switch step from `table`, cut to
// the piece. `places` holds how many pieces stand before each location.
pub fn pass<'a>(model: &'a [i32], places: &[usize], table: &'a [i32], out: &mut [i32])
    requires { Checked model.now table.now × Places model.now places.now × (length out.old ≡ T.table_size model.now) }
    ensures { out.new ≡ T.pass model.now table.now }
{
    let given = Given {
        model,
        places,
        table,
    };
    given.walls(out);
    given.switches(out);
}
