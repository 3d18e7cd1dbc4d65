// Writing a model's file (document 02, T-01).
ghost use Rattle.std.specs.Prelude.{◌≡◌, not, ◌++◌, ◌+◌, ◌≤◌, ◌<◌, negsuc, length, take};
ghost use Rattle.integers.specs.Words.{eq_z, onto};
ghost use Rattle.files.specs.Fields.{field_length};
ghost use Rattle.plant.specs.Model.{L#, cut_variable};
ghost use Rattle.plant.specs.Refusals.{asked, numbered};
ghost use Rattle.plant.proofs.Whole.{Whole};
ghost use Rattle.files.specs.ModelFile.{first_tag, record_field, model_file, cuts_from, write_model_questions, write_model_call};
ghost use Rattle.files.specs.UncutModelFile.{records_file};
ghost use Rattle.model_files.specs.Room.{record_fields, RunRoom, CutRoom, FileRoom};
ghost use Rattle.files.proofs.ModelLength.{cut_field_of, cut_fields};

use crate::{
    CUT_FIELD_SIZE, HEAD_FIELD_SIZE, Run, cuts_from, forbiddens_run, locations_run, switches_run,
};
use plant::Refusal;

// ---- how many bytes a file has

// A location is cut; its variable is -1 if it is not.
#[tactic(auto, using(integers::proofs::Signed::bits_eq))]
fn is_cut(model: &[i32], l: usize) -> bool
    requires { Whole model.now × (l < L# model.now) }
    ensures { result ≡ not (eq_z (cut_variable model.now l) (negsuc 0)) }
{
    records::cut_variable(model, l) != -1
}

// The field of a location's cut: none where it is uncut.
#[tactic(auto, using(crate::proofs::ModelWriting::cut_length, crate::proofs::ModelWriting::skip_length))]
fn cut_length(model: &[i32], l: usize) -> usize
    requires { Whole model.now × (l < L# model.now) }
    ensures { result ≡ length (cut_field_of model.now l) }
{
    if is_cut(model, l) {
        wire::field_length(CUT_FIELD_SIZE)
    } else {
        0
    }
}

// The fields of all cuts.
fn cuts_length(model: &[i32]) -> usize
    requires { Whole model.now }
    ensures { result ≡ length (cut_fields model.now) }
{
    let mut bytes = 0;
    for l in 0..records::locations(model) {
        bytes += cut_length(model, l);
    }
    bytes
}

// The whole file.
fn file_length(model: &[i32]) -> usize
    requires { Whole model.now }
    ensures { result ≡ length (model_file model.now) }
{
    let cuts_at = cuts_from(model);
    cuts_at + cuts_length(model)
}

// The model's questions; then: byte buffer long enough for the file? 40
#[tactic(auto, using(plant::proofs::Refusing::refused_first, plant::proofs::Refusing::passed_first), unfolding(files::specs::ModelFile::write_model_questions))]
fn write_questions(model: &[i32], room: usize) -> Result<(), Refusal>
    ensures { asked result ≡ write_model_questions model.now room }
{
    model::questions(model)?;
    let length = file_length(model);
    model::ask(length <= room, Refusal::ModelBytes)
}

// ---- the records

// The tag that the edition gives.
fn first_tag(edition: i32) -> u8
    ensures { result ≡ first_tag edition }
{
    if edition == 2 { 9 } else { 1 }
}

// Writes the field of a record of w words, from a place of the model on.
fn put_record(model: &[i32], tag: u8, from: usize, w: usize, file: &mut [u8], to: usize)
    requires { (from + w ≤ length model.now) × (to + field_length w ≤ length file.old) × (w ≤ 37) }
    ensures { file.new ≡ onto (take to file.old ++ record_field tag model.now from w) file.old }
{
    wire::put_header(file, to, tag, wire::payload_length(w));
    wire::put_words(model, from, w, file, to + wire::HEADER_SIZE)
}

// Writes the fields of a run's records.
fn put_run(model: &[i32], run: Run, file: &mut [u8])
    requires { RunRoom model.now run file.old }
    ensures { file.new ≡ onto (take run.from file.old ++ record_fields model.now run) file.old }
{
    let size = wire::field_length(run.w);
    for i in 0..run.count {
        let from = run.place + i * run.w;
        put_record(model, run.tag, from, run.w, file, run.from + i * size);
    }
}

// Writes the first field, then those of the locations, the switches and the forbidden boxes.
fn put_records(model: &[i32], file: &mut [u8])
    requires { FileRoom model.now file.old }
    ensures { file.new ≡ onto (records_file model.now) file.old }
{
    let tag = first_tag(records::edition(model));
    put_record(model, tag, 0, HEAD_FIELD_SIZE, file, 0);
    put_run(model, locations_run(model), file);
    put_run(model, switches_run(model), file);
    put_run(model, forbiddens_run(model), file)
}

// ---- the cuts

// Writes the field of location l's cut, if it is cut: where the next field goes.
#[tactic(auto, using(crate::proofs::ModelWriting::cut_length, crate::proofs::ModelWriting::skip_length, crate::proofs::ModelWriting::cut_skip))]
fn put_cut(model: &[i32], l: usize, file: &mut [u8], to: usize) -> usize
    requires { CutRoom model.now l file.old to }
    ensures bytes { file.new ≡ onto (take to file.old ++ cut_field_of model.now l) file.old }
    ensures next { result ≡ to + length (cut_field_of model.now l) }
{
    if !is_cut(model, l) {
        return to;
    }
    let at = records::cut_at(model, l);
    let start = to + wire::HEADER_SIZE;
    wire::put_header(file, to, 8, wire::payload_length(CUT_FIELD_SIZE));
    wire::put_word(file, start, l as i32);
    wire::put_words(model, at, records::CUT_SIZE, file, start + wire::WORD_SIZE);
    to + wire::field_length(CUT_FIELD_SIZE)
}

// Writes the fields of the cuts behind those of the records, by location: where they end.
fn put_cuts(model: &[i32], file: &mut [u8]) -> usize
    requires { FileRoom model.now file.old }
    ensures bytes { file.new ≡ onto (take (cuts_from model.now) file.old ++ cut_fields model.now) file.old }
    ensures end { result ≡ cuts_from model.now + length (cut_fields model.now) }
{
    let mut to = cuts_from(model);
    for l in 0..records::locations(model) {
        to = put_cut(model, l, file, to);
    }
    to
}

// ---- writing

// Writes the whole file: how many bytes it has.
fn put_model(model: &[i32], file: &mut [u8]) -> usize
    requires { FileRoom model.now file.old }
    ensures bytes { file.new ≡ onto (model_file model.now) file.old }
    ensures count { result ≡ length (model_file model.now) }
{
    put_records(model, file);
    put_cuts(model, file)
}

// Writes a model's file: how many bytes it has.
#[tactic(auto, using(crate::proofs::ModelWriting::write_stopped, crate::proofs::ModelWriting::write_yes, crate::proofs::ModelWriting::write_passed))]
pub fn write_model(model: &[i32], file: &mut [u8]) -> Result<usize, Refusal>
    ensures { record { count = numbered result; file = file.new } ≡ write_model_call model.now file.old }
{
    write_questions(model, file.len())?;
    Ok(put_model(model, file))
}
