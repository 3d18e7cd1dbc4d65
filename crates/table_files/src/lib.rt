// Reading and writing a table's file (document 01, "Files", with pieces for faces: document 02, T-12). Outsiders call read_table
// and write_table. The other public functions serve the quote and the host, on a model that has passed its questions.
#![tactic(auto)]

ghost use Rattle.std.specs.Prelude.{◌≡◌, ◌+◌, ◌*◌, ◌≤◌, ◌<◌};
ghost use Rattle.plant.specs.Model.{L#};
ghost use Rattle.plant.specs.Pieces as P;
ghost use Rattle.plant.specs.Refusals.{asked};
ghost use Rattle.plant.proofs.Whole.{Whole};
ghost use Rattle.files.specs.TableFile.{pieces_from, room_questions};
ghost use Rattle.table_files.specs.TableRoom.{size_by};

use model::ask;
use plant::Refusal;

mod reading;
mod writing;

pub use reading::{read_faces, read_table};
pub use writing::{bytes_question, longest_file, put_table, write_table};

// How many words the head field has.
const COUNT_FIELD_SIZE: usize = 1;

// Any location is cut, so that the places in the model's table files name the piece.
fn any_cut(model: &[i32]) -> bool
    requires { Whole model.now }
    ensures { result ≡ P.any_cut model.now }
{
    (0..records::locations(model)).any(|l| tables::per_face(model, l) == 2)
}

// How many words a piece's place has: location, face number; with any cut also the piece.
fn place_size(any_cut: bool) -> usize
    ensures { result ≡ size_by any_cut }
{
    if any_cut { 3 } else { 2 }
}

// How many words a piece's field has: its place, and a box of n variables.
fn field_size(any_cut: bool, n: usize) -> usize
    requires { n ≤ 6 }
    ensures { result ≡ size_by any_cut + 2 * n }
{
    place_size(any_cut) + 2 * n
}

// How many pieces a face of location l has: one where places don't name the piece, without a look at its cut.
fn per_face(model: &[i32], any_cut: bool, l: usize) -> usize
    requires { Whole model.now × (any_cut ≡ P.any_cut model.now) × (l < L# model.now) }
    ensures { result ≡ P.per_face model.now l }
{
    if any_cut {
        tables::per_face(model, l)
    } else {
        1
    }
}

// Where the pieces' fields begin.
fn pieces_from() -> usize
    ensures { result ≡ pieces_from }
{
    wire::field_place(0, COUNT_FIELD_SIZE, 1)
}

// The model's questions; then: table buffer or list long enough? 20
#[tactic(auto, using(plant::proofs::Refusing::refused_first, plant::proofs::Refusing::passed_first, crate::proofs::Asked::whole_asked), unfolding(files::specs::TableFile::room_questions))]
fn room_questions(model: &[i32], room: usize) -> Result<(), Refusal>
    ensures { asked result ≡ room_questions model.now room }
{
    model::questions(model)?;
    ask(tables::table_size(model) <= room, Refusal::TableWords)
}
