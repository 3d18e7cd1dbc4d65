// The order desk: two counters, and an analysis that moves them (document 01, "Desk and host").
#![tactic(auto)]

ghost use Rattle.std.specs.Prelude.{◌≡◌};
ghost use Rattle.plant.specs.Calls.{passes_of};
ghost use Rattle.plant.specs.Refusals.{asked, numbered};
ghost use Rattle.orders.specs.Desks.{counters_ok, desk_questions, Served, desk_call};

use orders::Desk;
use plant::{Answer, Refusal};

// What a desk call by value hands back: the desk after it, and its answer.
#[derive(Clone, Copy)]
pub struct Receipt {
    pub desk: Desk,
    pub answer: Result<Answer, Refusal>,
}

// The counters can take one job more and the limit.
#[tactic(auto, unfolding(orders::specs::Desks::counters_ok))]
fn counters_ok(desk: Desk, limit: u32) -> bool
    ensures { result ≡ counters_ok desk limit }
{
    (desk.jobs < u32::MAX) & desk.passes.checked_add(limit).is_some()
}

// The number of passes that an answer made.
fn passes_of(answer: Answer) -> u32
    ensures { result ≡ passes_of answer }
{
    match answer {
        Answer::Safe(k) | Answer::Unknown(k) | Answer::Unfinished(k) => k,
    }
}

// The questions of an analysis, then 22.
#[tactic(auto, using(plant::proofs::Refusing::chains), unfolding(orders::specs::Desks::desk_questions))]
fn questions(
    desk: Desk,
    model: &[i32],
    limit: u32,
    table: &[i32],
    work: &[i32],
) -> Result<(), Refusal>
    ensures { asked result ≡ desk_questions desk model.now limit table.now work.now }
{
    analysis::questions(model, table, work)?;
    if counters_ok(desk, limit) {
        Ok(())
    } else {
        Err(Refusal::Counters)
    }
}

// The desk call with the desk by value: its questions, then the analysis. A refusal moves no counter and changes nothing lent.
#[tactic(auto, using(plant::proofs::Refusing::number_suc), unfolding(orders::specs::Desks::desk_call))]
pub fn serve(desk: Desk, model: &[i32], limit: u32, table: &mut [i32], work: &mut [i32]) -> Receipt
    ensures { record { desk = result.desk; analysed = record { answer = numbered result.answer; table = table.new; work = work.new } } ≡ desk_call desk model.now limit table.old work.old }
{
    if let Err(refusal) = questions(desk, model, limit, table, work) {
        return Receipt {
            desk,
            answer: Err(refusal),
        };
    }
    let answer = analysis::analyse_passed(model, limit, table, work);
    let k = passes_of(answer);
    let jobs = desk.jobs + 1;
    let passes = desk.passes + k;
    Receipt {
        desk: Desk { jobs, passes },
        answer: Ok(answer),
    }
}

// The desk call with the desk lent.
pub fn desk_call(
    desk: &mut Desk,
    model: &[i32],
    limit: u32,
    table: &mut [i32],
    work: &mut [i32],
) -> Result<Answer, Refusal>
    ensures { record { desk = desk.new; analysed = record { answer = numbered result; table = table.new; work = work.new } } ≡ desk_call desk.old model.now limit table.old work.old }
{
    let receipt = serve(*desk, model, limit, table, work);
    *desk = receipt.desk;
    receipt.answer
}
