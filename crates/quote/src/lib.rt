// Quoting an order: what any analysis of a model may take at most, from the model alone (document 02, T-07).
#![tactic(auto)]

ghost use Rattle.std.specs.Prelude.{◌≡◌};
ghost use Rattle.plant.specs.Refusals.{numbered};
ghost use Rattle.orders.specs.Quotes.{quote_call};

use orders::Figures;
use plant::Refusal;

// The table's words, the number of bytes in 39 and the ceiling, or the refusal of the model's first question that is not yes.
#[tactic(auto, using(plant::proofs::Refusing::number_suc), unfolding(orders::specs::Quotes::quote_call))]
pub fn quote(model: &[i32]) -> Result<Figures, Refusal>
    ensures { numbered result ≡ quote_call model.now }
{
    model::questions(model)?;
    let words = tables::table_size(model);
    let bytes = table_files::longest_file(model);
    let ceiling = checks::ceiling_of(model);
    Ok(Figures {
        words,
        bytes,
        ceiling,
    })
}
