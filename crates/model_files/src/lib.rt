// Reading and writing a model's file (document 01, "Files"; document 02, T-01, T-10 and T-12). Outsiders call read_model and
// write_model.
#![tactic(auto)]

ghost use Rattle.std.specs.Prelude.{◌≡◌, cond, ◌++◌, ◌+◌, ◌≤◌, ◌<◌, T, length, take, IfOk};
ghost use Rattle.integers.specs.Words.{num, onto};
ghost use Rattle.files.specs.Fields.{field_length, field_at};
ghost use Rattle.plant.specs.Ask.{◌then◌};
ghost use Rattle.plant.specs.Model.{head_size, cut_size};
ghost use Rattle.plant.specs.Questions.{ranges_questions};
ghost use Rattle.plant.specs.Refusals.{asked, numbered};
ghost use Rattle.plant.proofs.Whole.{Head};
ghost use Rattle.files.specs.ModelFile.{edition_of, cut_field_size, head_words, is_head, has_tag, field_questions, run_questions, buffer_question, locations_from, switches_from, forbiddens_from, cuts_from, cut_field_words, cut_words_ok, cut_field_questions, cuts_questions, body_questions, run_words, record_words, names_location, cut_words, file_words, records_file_questions, read_records, read_model_call};
ghost use Rattle.model_files.specs.Room.{locations_run, switches_run, forbiddens_run, RunReady, CutThere, CutsReady, filled_cut, HeadRead};

use files::Field;
use plant::Refusal;

mod writing;

pub use writing::write_model;

// How many words the first field has, and a cut's: location, variable, value.
const HEAD_FIELD_SIZE: usize = 4;

const CUT_FIELD_SIZE: usize = 3;

// ---- the first field, and the head words

// Whole, of tag 1 or 9, with n, L, E and B.
fn is_head(f: Field) -> bool
    ensures { result ≡ is_head f }
{
    let len = wire::payload_length(HEAD_FIELD_SIZE);
    wire::is_field(f, 1, len) | wire::is_field(f, 9, len)
}

// The edition that the first tag gives.
fn edition_of(tag: u8) -> i32
    ensures { result ≡ edition_of tag }
{
    if tag == 9 { 2 } else { 1 }
}

// n, L, E and B, and the edition behind them.
fn head_words(file: &[u8]) -> [i32; records::HEAD_SIZE]
    requires { T (is_head (field_at file.now 0)) }
    ensures { result ≡ head_words file.now }
{
    let mut head = [0; records::HEAD_SIZE];
    wire::copy_words(file, wire::HEADER_SIZE, HEAD_FIELD_SIZE, &mut head, 0);
    head[HEAD_FIELD_SIZE] = edition_of(file[0]);
    head
}

// ---- the questions of a file

// Three bytes left and the due tag.
fn has_tag(f: Field, tag: u8) -> bool
    ensures { result ≡ has_tag f tag }
{
    match f {
        Field::Whole { tag: t, .. } | Field::Cut { tag: t } => t == tag,
        Field::Short => false,
    }
}

#[tactic(auto, using(plant::proofs::Refusing::refused_first, plant::proofs::Refusing::passed_first))]
fn field_questions(f: Field, tag: u8, len: usize) -> Result<(), Refusal>
    ensures { asked result ≡ field_questions f tag len }
{
    model::ask(has_tag(f, tag), Refusal::FieldTag)?;
    model::ask(wire::is_field(f, tag, len), Refusal::FieldLength)
}

// n, L, E and B allowed, and the words of such a model not more than there is room for?
#[tactic(auto, using(plant::proofs::Refusing::refused_first, plant::proofs::Refusing::passed_first))]
fn sizes_questions(head: &[i32], room: usize) -> Result<(), Refusal>
    requires { head_size ≤ length head.now }
    ensures { asked result ≡ (ranges_questions head.now then buffer_question head.now room) }
{
    model::ranges_questions(head)?;
    model::ask(records::size(head) <= room, Refusal::Words)
}

// ---- where the fields begin

fn locations_from() -> usize
    ensures { result ≡ locations_from }
{
    wire::field_place(0, HEAD_FIELD_SIZE, 1)
}

fn switches_from(head: &[i32]) -> usize
    requires { Head head.now }
    ensures { result ≡ switches_from head.now }
{
    wire::field_place(
        locations_from(),
        records::location_size(records::variables(head)),
        records::locations(head),
    )
}

fn forbiddens_from(head: &[i32]) -> usize
    requires { Head head.now }
    ensures { result ≡ forbiddens_from head.now }
{
    wire::field_place(
        switches_from(head),
        records::switch_size(records::variables(head)),
        records::switches(head),
    )
}

fn cuts_from(head: &[i32]) -> usize
    requires { Head head.now }
    ensures { result ≡ cuts_from head.now }
{
    wire::field_place(
        forbiddens_from(head),
        records::forbidden_size(records::variables(head)),
        records::forbidden_boxes(head),
    )
}

// ---- runs of records

// Records of one kind, one after the other: how many, each of w words, from a place of the words on; and their fields, of one tag, from
// a position of the file on.
#[derive(Clone, Copy)]
struct Run {
    count: usize,
    w: usize,
    place: usize,
    tag: u8,
    from: usize,
}

fn locations_run(head: &[i32]) -> Run
    requires { Head head.now }
    ensures { result ≡ locations_run head.now }
{
    Run {
        count: records::locations(head),
        w: records::location_size(records::variables(head)),
        place: records::location_at(head, 0),
        tag: 2,
        from: locations_from(),
    }
}

fn switches_run(head: &[i32]) -> Run
    requires { Head head.now }
    ensures { result ≡ switches_run head.now }
{
    Run {
        count: records::switches(head),
        w: records::switch_size(records::variables(head)),
        place: records::switch_at(head, 0),
        tag: 3,
        from: switches_from(head),
    }
}

fn forbiddens_run(head: &[i32]) -> Run
    requires { Head head.now }
    ensures { result ≡ forbiddens_run head.now }
{
    Run {
        count: records::forbidden_boxes(head),
        w: records::forbidden_size(records::variables(head)),
        place: records::forbidden_at(head, 0),
        tag: 4,
        from: forbiddens_from(head),
    }
}

// Of each field in turn.
#[tactic(auto, using(plant::proofs::Refusing::refused_at, plant::proofs::Refusing::passed_more, plant::proofs::Asks::first_none), unfolding(files::specs::ModelFile::run_questions))]
fn run_questions(file: &[u8], run: Run) -> Result<(), Refusal>
    requires { run.w ≤ 37 }
    ensures { asked result ≡ run_questions file.now run.from run.count run.tag run.w }
{
    let len = wire::payload_length(run.w);
    let size = wire::field_length(run.w);
    for i in 0..run.count {
        let field = wire::next_field(file, run.from + i * size);
        field_questions(field, run.tag, len)?;
    }
    Ok(())
}

// ---- the questions of the cuts' fields

// The location that the field at a position names.
fn cut_location(file: &[u8], at: usize) -> usize
    requires { CutThere file.now at }
    ensures { result ≡ num (cut_field_words file.now at) 0 }
{
    integers::natural(wire::word_at(file, at + wire::HEADER_SIZE))
}

// A location from the least to the last of the model, and a variable that is not -1.
fn cut_words_ok(file: &[u8], at: usize, least: usize, count: usize) -> bool
    requires { (at + field_length cut_field_size ≤ length file.now) × (least ≤ 64) × (1 ≤ count) × (count ≤ 64) }
    ensures { result ≡ cut_words_ok (cut_field_words file.now at) least count }
{
    let start = at + wire::HEADER_SIZE;
    let location = i64::from(wire::word_at(file, start));
    let variable = wire::word_at(file, start + wire::WORD_SIZE);
    let named = integers::within(location, least as i64, (count - 1) as i64);
    named & (variable != -1)
}

// Of the bytes at a position: the tag of a cut's field? 8. The field whole, its words as they may be? 46
#[tactic(auto, using(plant::proofs::Refusing::refused_first, plant::proofs::Refusing::passed_first), unfolding(files::specs::ModelFile::cut_field_questions))]
fn cut_questions(file: &[u8], at: usize, least: usize, count: usize) -> Result<(), Refusal>
    requires { (at < length file.now) × (least ≤ 64) × (1 ≤ count) × (count ≤ 64) }
    ensures { asked result ≡ cut_field_questions file.now at least count }
{
    model::ask(file[at] == 8, Refusal::ModelEnd)?;
    let len = wire::payload_length(CUT_FIELD_SIZE);
    model::ask(
        wire::is_field(wire::next_field(file, at), 8, len),
        Refusal::CutPlace,
    )?;
    model::ask(cut_words_ok(file, at, least, count), Refusal::CutPlace)
}

// Of each cut's field in turn, from a position to the end of the file, in a model of `count` locations.
#[tactic(auto, using(crate::proofs::CutTurns::asked_none, crate::proofs::CutTurns::asked_stop, crate::proofs::CutTurns::asked_more, crate::proofs::CutTurns::asked_all, crate::proofs::CutTurns::cut_passed, crate::proofs::CutTurns::is_there))]
fn cuts_questions(file: &[u8], from: usize, count: usize) -> Result<(), Refusal>
    requires { (1 ≤ count) × (count ≤ 64) }
    ensures { asked result ≡ cuts_questions file.now from count }
{
    let mut least = 0;
    let mut at = from;
    while at < file.len() {
        cut_questions(file, at, least, count)?;
        least = cut_location(file, at) + 1;
        at += wire::field_length(CUT_FIELD_SIZE);
    }
    Ok(())
}

// Each record's field in turn, then the cuts' fields and the end of the file.
#[tactic(auto, using(plant::proofs::Refusing::refused_first, plant::proofs::Refusing::passed_first), unfolding(files::specs::ModelFile::body_questions))]
fn body_questions(file: &[u8], head: &[i32]) -> Result<(), Refusal>
    requires { Head head.now }
    ensures { asked result ≡ body_questions file.now head.now }
{
    run_questions(file, locations_run(head))?;
    run_questions(file, switches_run(head))?;
    run_questions(file, forbiddens_run(head))?;
    cuts_questions(file, cuts_from(head), records::locations(head))
}

// ---- the words of a file

// Copies the payloads of a run's fields to the place of its records.
fn copy_run(file: &[u8], run: Run, words: &mut [i32])
    requires { RunReady file.now run words.old }
    ensures { words.new ≡ onto (take run.place words.old ++ run_words file.now run.from run.count run.w) words.old }
{
    let size = wire::field_length(run.w);
    for i in 0..run.count {
        let start = run.from + i * size + wire::HEADER_SIZE;
        wire::copy_words(file, start, run.w, words, run.place + i * run.w);
    }
}

// Copies the words of the head and the records of a file that passes its questions.
fn fill_records(file: &[u8], head: &[i32], words: &mut [i32])
    requires { HeadRead file.now head.now words.old × (body_questions file.now head.now ≡ 0) }
    ensures { words.new ≡ onto (record_words file.now head.now) words.old }
{
    words[..records::HEAD_SIZE].copy_from_slice(head);
    copy_run(file, locations_run(head), words);
    copy_run(file, switches_run(head), words);
    copy_run(file, forbiddens_run(head), words)
}

// ---- the words of the cuts

// The field at a position is there, and names location l.
fn names_location(file: &[u8], at: usize, l: usize) -> bool
    requires { at < length file.now → CutThere file.now at }
    ensures { result ≡ names_location file.now at l }
{
    at < file.len() && cut_location(file, at) == l
}

// Copies variable and value of the field at a position to a place of the words, if it names location l; else -1 and 0. Where the next
// field begins.
fn fill_cut(file: &[u8], at: usize, l: usize, words: &mut [i32], to: usize) -> usize
    requires { (at < length file.now → CutThere file.now at) × (to + cut_size ≤ length words.old) }
    ensures words { words.new ≡ onto (take to words.old ++ filled_cut file.now at l) words.old }
    ensures next { result ≡ cond (names_location file.now at l) (at + field_length cut_field_size) at }
{
    if !names_location(file, at, l) {
        words[to] = -1;
        words[to + 1] = 0;
        return at;
    }
    let from = at + wire::HEADER_SIZE + wire::WORD_SIZE;
    wire::copy_words(file, from, records::CUT_SIZE, words, to);
    at + wire::field_length(CUT_FIELD_SIZE)
}

// Copies the words of the cuts of `count` locations to a place of the words. Fields and locations ascend side by side.
fn fill_cuts(file: &[u8], from: usize, count: usize, words: &mut [i32], to: usize)
    requires { CutsReady file.now from count words.old to }
    ensures { words.new ≡ onto (take to words.old ++ cut_words file.now from count) words.old }
{
    let mut at = from;
    for l in 0..count {
        at = fill_cut(file, at, l, words, to + l * records::CUT_SIZE);
    }
}

// Copies all words of a file that passes its questions.
fn fill(file: &[u8], head: &[i32], words: &mut [i32])
    requires { HeadRead file.now head.now words.old × (body_questions file.now head.now ≡ 0) }
    ensures { words.new ≡ onto (file_words file.now head.now) words.old }
{
    fill_records(file, head, words);
    let count = records::locations(head);
    let to = records::cut_at(head, 0);
    fill_cuts(file, cuts_from(head), count, words, to)
}

// ---- reading

// Copies the words of a file whose head is accepted, and asks them.
#[tactic(auto, using(plant::proofs::Refusing::refused_first, plant::proofs::Refusing::passed_first), unfolding(files::specs::ModelFile::records_file_questions))]
fn fill_asked(file: &[u8], head: &[i32], words: &mut [i32]) -> Result<(), Refusal>
    requires { HeadRead file.now head.now words.old }
    ensures answer { asked result ≡ records_file_questions file.now head.now }
    ensures filled { IfOk result (λ _. words.new ≡ onto (file_words file.now head.now) words.old) }
{
    body_questions(file, head)?;
    fill(file, head, words);
    let size = records::size(head);
    model::records_questions(&words[..size])
}

// Reads the records of a file whose head is accepted. A refusal zeroes all words.
fn read_records(file: &[u8], head: &[i32], words: &mut [i32]) -> Result<usize, Refusal>
    requires { HeadRead file.now head.now words.old }
    ensures { record { count = numbered result; words = words.new } ≡ read_records file.now head.now words.old }
{
    if let Err(refusal) = fill_asked(file, head, words) {
        words.fill(0);
        return Err(refusal);
    }
    Ok(records::size(head))
}

// Reads a model file into the words: how many they are.
#[tactic(auto, using(crate::proofs::Reading::refused_by_1, crate::proofs::Reading::refused_by_sizes, crate::proofs::Reading::head_there, crate::proofs::Reading::passed_on))]
pub fn read_model(file: &[u8], words: &mut [i32]) -> Result<usize, Refusal>
    ensures { record { count = numbered result; words = words.new } ≡ read_model_call file.now words.old }
{
    model::ask(is_head(wire::next_field(file, 0)), Refusal::FirstField)?;
    let head = head_words(file);
    sizes_questions(&head, words.len())?;
    read_records(file, &head, words)
}
