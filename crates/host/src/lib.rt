// The host's calls (document 01, "Desk and host"), which the crate host_c gives to C. Nothing is kept between calls: each holds its
// words on the stack.
#![tactic(auto)]

ghost use Rattle.std.specs.Prelude.{◌≡◌, ◌≤◌, length, OnErr, IsErrOf};
ghost use Rattle.plant.specs.Refusals.{asked, numbered};
ghost use Rattle.plant.specs.Questions.{model_questions};
ghost use Rattle.plant.specs.Tables.{table_size, longest_table_file};
ghost use Rattle.plant.specs.Calls as C;
ghost use Rattle.plant.specs.Calls.{Reply, answer_reply, analysis_reply, verdict_reply, bytes_question};
ghost use Rattle.interface.specs.Hosts.{packed, Decided, decided, decide_by, decide_call, certificate_file_questions, host_check_call};

use plant::{Answer, Refusal};
use records::{FEW_WORDS as FEW_MODEL_WORDS, MOST_WORDS as MODEL_WORDS};
use tables::{FEW_WORDS, FEWEST_WORDS, MOST_WORDS};

pub mod calls;

// How many bytes the longest model file has, and how many are room for every table file.
pub const LONGEST_MODEL_FILE: usize = 29907;

pub const LONGEST_TABLE_FILE: usize = 96775;

// ---- the numbers of answers

// The number and the passes of an answer; a refusal has its own number, and made none.
fn reply(answer: Result<Answer, Refusal>) -> (u32, u32)
    ensures { record { code = result.0; value = result.1 } ≡ analysis_reply (numbered answer) }
{
    match answer {
        Ok(Answer::Safe(k)) => (100, k),
        Ok(Answer::Unknown(k)) => (101, k),
        Ok(Answer::Unfinished(k)) => (102, k),
        Err(refusal) => (refusal.number(), 0),
    }
}

// The number of a verdict: 100, or the refusal's.
fn verdict(checked: Result<(), Refusal>) -> u32
    ensures { result ≡ (verdict_reply (numbered checked)).code }
{
    match checked {
        Ok(()) => 100,
        Err(refusal) => refusal.number(),
    }
}

// ---- decide

// The answer once all questions are yes, and the file of its table, with N words held for the table and as many for the passes. They
// are cleared at each call. Not inlined: in a frame of its own each size lies at a multiple of 16 bytes, where a table is copied
// faster, and a small plant gets a small frame.
#[inline(never)]
#[tactic(auto, using(plant::proofs::Passing::whole, plant::proofs::AnalysisAsked::all_yes))]
fn answer_in<const N: usize>(model: &[i32], file: &mut [u8], limit: u32) -> Answer
    requires { (model_questions model.now ≡ 0) × (longest_table_file model.now ≤ length file.old) × (table_size model.now ≤ N) × (N ≤ MOST_WORDS) }
    ensures { record { number = packed (answer_reply result); file = file.new } ≡ decided model.now (C.analysis model.now limit) file.old }
{
    let mut table = [0i32; N];
    let mut work = [0i32; N];
    let answer = analysis::analyse_passed(model, limit, &mut table, &mut work);
    let size = tables::table_size(model);
    table_files::put_table(model, &table[..size], file);
    answer
}

// The same, with fewer words held for a smaller table.
#[tactic(auto, using(plant::proofs::Passing::whole, plant::proofs::Passing::head_ready, tables::proofs::Faces::table_most))]
fn answer_file(model: &[i32], file: &mut [u8], limit: u32) -> Answer
    requires { (model_questions model.now ≡ 0) × (longest_table_file model.now ≤ length file.old) }
    ensures { record { number = packed (answer_reply result); file = file.new } ≡ decided model.now (C.analysis model.now limit) file.old }
{
    let size = tables::table_size(model);
    if size <= FEWEST_WORDS {
        return answer_in::<FEWEST_WORDS>(model, file, limit);
    }
    if size <= FEW_WORDS {
        return answer_in::<FEW_WORDS>(model, file, limit);
    }
    answer_in::<MOST_WORDS>(model, file, limit)
}

// The words of a model that passes its questions: 39, then the answer.
#[tactic(auto, using(plant::proofs::Passing::whole))]
fn decide_words(model: &[i32], file: &mut [u8], limit: u32) -> Result<Answer, Refusal>
    requires { model_questions model.now ≡ 0 }
    ensures kept { OnErr result (file.new ≡ file.old) }
    ensures decided { record { number = packed (analysis_reply (numbered result)); file = file.new } ≡ decide_by (bytes_question model.now (length file.old)) model.now file.old limit }
{
    table_files::bytes_question(model, file.len())?;
    Ok(answer_file(model, file, limit))
}

// Decides a model file with N words held for the model. Refused by Words where these are not enough; a refusal changes nothing.
fn decide_in<const N: usize>(model: &[u8], table: &mut [u8], limit: u32) -> Result<Answer, Refusal>
    requires { N ≤ MODEL_WORDS }
    ensures kept { OnErr result (table.new ≡ table.old) }
    ensures decided { (IsErrOf result Refusal.Words → N ≡ MODEL_WORDS) → record { number = packed (analysis_reply (numbered result)); file = table.new } ≡ decide_call model.now table.old limit }
{
    let mut words = [0i32; N];
    let size = model_files::read_model(model, &mut words)?;
    decide_words(&words[..size], table, limit)
}

// Decides a model file under a limit, and writes the answer's table file: the answer's code or a refusal's number, times 2^32,
// plus the number of passes. Few words are held for the model at first.
pub fn decide(model: &[u8], table: &mut [u8], limit: u32) -> u64
    ensures { record { number = result; file = table.new } ≡ decide_call model.now table.old limit }
{
    let decided = match decide_in::<FEW_MODEL_WORDS>(model, table, limit) {
        Err(Refusal::Words) => decide_in::<MODEL_WORDS>(model, table, limit),
        decided => decided,
    };
    let (code, passes) = reply(decided);
    (code as u64) * 4294967296 + (passes as u64)
}

// ---- check

// Reads a table file (35 to 38, 32), and asks 33 and 34 of the table, with N words held for it.
fn check_table_in<'a, const N: usize>(model: &'a [i32], file: &'a [u8]) -> Result<(), Refusal>
    requires { (model_questions model.now ≡ 0) × (table_size model.now ≤ N) × (N ≤ MOST_WORDS) }
    ensures { asked result ≡ certificate_file_questions model.now file.now }
{
    let mut table = [0i32; N];
    let size = table_files::read_faces(model, file, &mut table)?;
    analysis::certificate_questions(model, &table[..size])
}

// The same, with fewer words held for a smaller table.
#[tactic(auto, using(plant::proofs::Passing::whole, plant::proofs::Passing::head_ready, tables::proofs::Faces::table_most))]
fn check_table<'a>(model: &'a [i32], file: &'a [u8]) -> Result<(), Refusal>
    requires { model_questions model.now ≡ 0 }
    ensures { asked result ≡ certificate_file_questions model.now file.now }
{
    let size = tables::table_size(model);
    if size <= FEWEST_WORDS {
        return check_table_in::<FEWEST_WORDS>(model, file);
    }
    if size <= FEW_WORDS {
        return check_table_in::<FEW_WORDS>(model, file);
    }
    check_table_in::<MOST_WORDS>(model, file)
}

// Checks a table file with N words held for the model. Refused by Words where these are not enough.
fn check_in<const N: usize>(model: &[u8], table: &[u8]) -> Result<(), Refusal>
    requires { N ≤ MODEL_WORDS }
    ensures { (IsErrOf result Refusal.Words → N ≡ MODEL_WORDS) → (verdict_reply (numbered result)).code ≡ host_check_call model.now table.now }
{
    let mut words = [0i32; N];
    let size = model_files::read_model(model, &mut words)?;
    check_table(&words[..size], table)
}

// Checks a table file against a model file: 100 if it is accepted, else a refusal's number. Few words are held for the model at
// first.
pub fn check(model: &[u8], table: &[u8]) -> u64
    ensures { result ≡ host_check_call model.now table.now }
{
    let checked = match check_in::<FEW_MODEL_WORDS>(model, table) {
        Err(Refusal::Words) => check_in::<MODEL_WORDS>(model, table),
        checked => checked,
    };
    verdict(checked) as u64
}
