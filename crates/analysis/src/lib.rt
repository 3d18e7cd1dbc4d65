// The ceiling, the checker and the analysis of a model's words (document 01, "Checker" and "Analysis"). Outsiders call ceiling,
// check and analyse; questions, certificate_questions and analyse_passed serve the desk and the host, which ask for themselves
// what these ask of their callers.
#![tactic(auto)]

ghost use Rattle.std.specs.Prelude.{◌≡◌, true, ◌≤◌, Ok, length};
ghost use Rattle.integers.specs.Words.{equal};
ghost use Rattle.plant.specs.Refusals.{asked, numbered};
ghost use Rattle.plant.specs.Tables.{table_ok, pass};
ghost use Rattle.plant.specs.Calls as C;
ghost use Rattle.plant.specs.Calls.{Analysed, ceiling_call, certificate_questions, table_questions, check_call, answer_table, analysis_questions, answered, analyse_call};
ghost use Rattle.tables.specs.Places.{Places};
ghost use Rattle.analysis.specs.Ready.{Sized};

use plant::{Answer, Refusal};
use tables::{FEW_WORDS, FEWEST_WORDS, MOST_WORDS};

// ---- the ceiling

// How many passes settle every answer, or the refusal of the model's question that is not yes.
#[tactic(auto, using(plant::proofs::Refusing::number_suc), unfolding(plant::specs::Calls::ceiling_call))]
pub fn ceiling(model: &[i32]) -> Result<u64, Refusal>
    ensures { numbered result ≡ ceiling_call model.now }
{
    model::questions(model)?; // a model that is refused has no ceiling
    Ok(checks::ceiling_of(model))
}

// ---- the checker

// Makes a pass of the table, into `after`, and tells whether it leaves the table as it is.
fn fixpoint<'a>(model: &'a [i32], places: &[usize], table: &'a [i32], after: &mut [i32]) -> bool
    requires { Sized model.now table.now × Places model.now places.now × (table_ok model.now table.now ≡ true) × Sized model.now after.old }
    ensures { (result ≡ equal (pass model.now table.now) table.now) × (after.new ≡ pass model.now table.now) }
{
    passes::pass(model, places, table, after);
    integers::equal(after, table)
}

// 33 and 34 of a table that passes 32, with N words held for the pass. They are cleared at each call.
#[tactic(auto, using(plant::proofs::Refusing::refused_first, plant::proofs::Refusing::passed_first, crate::proofs::Calls::unchanged_is), unfolding(plant::specs::Calls::certificate_questions))]
fn certificate_in<'a, const N: usize>(
    model: &'a [i32],
    places: &[usize],
    table: &'a [i32],
) -> Result<(), Refusal>
    requires { Sized model.now table.now × Places model.now places.now × (table_ok model.now table.now ≡ true) × (length table.now ≤ N) × (N ≤ MOST_WORDS) }
    ensures { asked result ≡ certificate_questions model.now table.now }
{
    let mut after = [0i32; N];
    let unchanged = fixpoint(model, places, table, &mut after[..table.len()]);
    model::ask(unchanged, Refusal::Unchanged)?;
    let links = checks::link(model);
    let touches = checks::touching(model, places, &links, table);
    model::ask(!touches, Refusal::Touching)
}

// The same, with fewer words held for a smaller table.
#[tactic(auto, using(plant::proofs::Passing::head_ready, tables::proofs::Faces::table_most))]
fn certificate_held<'a>(model: &'a [i32], places: &[usize], table: &'a [i32]) -> Result<(), Refusal>
    requires { Sized model.now table.now × Places model.now places.now × (table_ok model.now table.now ≡ true) }
    ensures { asked result ≡ certificate_questions model.now table.now }
{
    if table.len() <= FEWEST_WORDS {
        return certificate_in::<FEWEST_WORDS>(model, places, table);
    }
    if table.len() <= FEW_WORDS {
        return certificate_in::<FEW_WORDS>(model, places, table);
    }
    certificate_in::<MOST_WORDS>(model, places, table)
}

// 33 and 34 of a table that passes 32.
#[tactic(auto, using(plant::proofs::Passing::whole))]
pub fn certificate_questions<'a>(model: &'a [i32], table: &'a [i32]) -> Result<(), Refusal>
    requires { Sized model.now table.now × (table_ok model.now table.now ≡ true) }
    ensures { asked result ≡ certificate_questions model.now table.now }
{
    let mut places = [0usize; 65];
    tables::places(model, &mut places);
    certificate_held(model, &places, table)
}

// The questions of a table's words, 32 to 34.
#[tactic(auto, using(plant::proofs::Passing::whole, plant::proofs::Refusing::refused_first, plant::proofs::Refusing::passed_first), unfolding(plant::specs::Calls::table_questions))]
fn table_questions<'a>(model: &'a [i32], table: &'a [i32]) -> Result<(), Refusal>
    requires { Sized model.now table.now }
    ensures { asked result ≡ table_questions model.now table.now }
{
    let mut places = [0usize; 65];
    tables::places(model, &mut places);
    model::ask(checks::table_ok(model, &places, table), Refusal::Table)?;
    certificate_held(model, &places, table)
}

// Accepts exactly if the model's questions, 20 and 32 to 34 are all yes.
#[tactic(auto, using(plant::proofs::Passing::whole, plant::proofs::Refusing::number_suc, plant::proofs::Refusing::refused_first, plant::proofs::Refusing::passed_first), unfolding(plant::specs::Calls::check_call, plant::specs::Calls::checker_questions))]
pub fn check<'a>(model: &'a [i32], table: &'a [i32]) -> Result<(), Refusal>
    ensures { numbered result ≡ check_call model.now table.now }
{
    model::questions(model)?;
    let end = tables::table_size(model);
    model::ask(end <= table.len(), Refusal::TableWords)?;
    table_questions(model, &table[..end])
}

// ---- the analysis

// Counts passes from table 0 on until a part of table k touches, a pass leaves table k as it is, or k is the limit. Leaves
// table k; `work` is where a pass is made, and the caller clears it.
#[tactic(auto, using(plant::proofs::Passed::passed, crate::proofs::Counting::going_length, crate::proofs::Counting::going_ok))]
fn counted_passes(
    model: &[i32],
    places: &[usize],
    limit: u32,
    table: &mut [i32],
    work: &mut [i32],
) -> Answer
    requires { Sized model.now table.old × Places model.now places.now × Sized model.now work.old }
    ensures { (result ≡ C.analysis model.now limit) × (table.new ≡ answer_table model.now result) }
{
    let links = checks::link(model);
    table.fill(0);
    let mut k: u32 = 0;
    loop {
        if checks::touching(model, places, &links, table) {
            return Answer::Unknown(k);
        }
        if fixpoint(model, places, table, work) {
            return Answer::Safe(k);
        }
        if k == limit {
            return Answer::Unfinished(k);
        }
        integers::copy(work, table);
        k += 1;
    }
}

// The questions of an analysis, the model's, 20 and 21.
#[tactic(auto, using(plant::proofs::Passing::whole, plant::proofs::Refusing::refused_first, plant::proofs::Refusing::passed_first), unfolding(plant::specs::Calls::analysis_questions))]
pub fn questions<'a>(model: &'a [i32], table: &'a [i32], work: &'a [i32]) -> Result<(), Refusal>
    ensures { asked result ≡ analysis_questions model.now table.now work.now }
{
    model::questions(model)?;
    let size = tables::table_size(model);
    model::ask(size <= table.len(), Refusal::TableWords)?;
    model::ask(size <= work.len(), Refusal::WorkWords)
}

// The answer after its questions. The table buffer then begins with the answer's table, and the work buffer is all zero.
#[tactic(auto, using(plant::proofs::Passing::whole, plant::proofs::AnalysisAsked::model_asked, plant::proofs::AnalysisAsked::table_room, plant::proofs::AnalysisAsked::work_room, crate::proofs::Sizes::lent))]
pub fn analyse_passed(model: &[i32], limit: u32, table: &mut [i32], work: &mut [i32]) -> Answer
    requires { analysis_questions model.now table.old work.old ≡ 0 }
    ensures { record { answer = Ok result; table = table.new; work = work.new } ≡ answered model.now (C.analysis model.now limit) table.old work.old }
{
    let size = tables::table_size(model);
    let mut places = [0usize; 65];
    tables::places(model, &mut places);
    let answer = counted_passes(model, &places, limit, &mut table[..size], &mut work[..size]);
    work.fill(0);
    answer
}

// The questions, and then the answer; a refusal changes nothing.
#[tactic(auto, using(plant::proofs::Refusing::number_suc), unfolding(plant::specs::Calls::analyse_call))]
pub fn analyse(
    model: &[i32],
    limit: u32,
    table: &mut [i32],
    work: &mut [i32],
) -> Result<Answer, Refusal>
    ensures { record { answer = numbered result; table = table.new; work = work.new } ≡ analyse_call model.now limit table.old work.old }
{
    questions(model, table, work)?;
    Ok(analyse_passed(model, limit, table, work))
}
