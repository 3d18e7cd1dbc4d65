// Reading a table's file.
ghost use Rattle.std.specs.Prelude.{◌≡◌, ◌∷◌, ◌+◌, ◌*◌, ◌≤◌, T, pos, nat_abs, length, OnOk};
ghost use Rattle.std.specs.Int.Signed.{non_neg};
ghost use Rattle.integers.specs.Words.{within};
ghost use Rattle.files.specs.Bytes.{word_size, word_at, words_at};
ghost use Rattle.files.specs.Fields.{payload_length};
ghost use Rattle.plant.specs.Ask.{first};
ghost use Rattle.plant.specs.Pieces as P;
ghost use Rattle.plant.specs.Refusals.{asked, numbered};
ghost use Rattle.plant.specs.Tables.{face_size, table_size};
ghost use Rattle.plant.proofs.Whole.{Whole};
ghost use Rattle.passes.specs.Ready.{TableReady};
ghost use Rattle.files.specs.TableFile.{piece_field_size, count_question, piece_key, piece_questions, count#, fields_questions, table_file_questions, file_table, read_faces, read_table_call};
ghost use Rattle.table_files.specs.TableRoom.{FieldsReady, WordsReady, CountAt, size_by, names_piece, next_least, index_word, IndexAt, KeyAt};

use crate::{
    COUNT_FIELD_SIZE, any_cut, field_size, per_face, pieces_from, place_size, room_questions,
};
use model::ask;
use plant::Refusal;

// ---- the questions of a file

// The word at a position is a number from 0 to a small one.
fn number_within(file: &[u8], at: usize, most: usize) -> bool
    requires { (at + word_size ≤ length file.now) × (most ≤ 1536) }
    ensures { result ≡ within (pos 0) (pos most) (word_at file.now at) }
{
    integers::within(wire::word_at(file, at) as i64, 0, most as i64)
}

// The word at a position, which is not negative, as a number.
fn number_at(file: &[u8], at: usize) -> usize
    requires { (at + word_size ≤ length file.now) × T (non_neg (word_at file.now at)) }
    ensures { result ≡ nat_abs (word_at file.now at) }
{
    integers::natural(wire::word_at(file, at))
}

// Head field whole, tag 6, length 4, count 0 to the number of pieces?
#[tactic(auto, using(plant::proofs::Refusing::refused_first, plant::proofs::Refusing::passed_first, crate::proofs::Asked::head_there, files::proofs::TableSizes::pieces_few), unfolding(files::specs::TableFile::count_question, files::specs::TableFile::count_word))]
fn count_question(model: &[i32], file: &[u8]) -> Result<(), Refusal>
    requires { Whole model.now }
    ensures { asked result ≡ count_question model.now file.now }
{
    let head = wire::next_field(file, 0);
    let whole = wire::is_field(head, 6, wire::payload_length(COUNT_FIELD_SIZE));
    ask(whole, Refusal::CountField)?;
    let most = tables::piece_count(model);
    ask(
        number_within(file, wire::HEADER_SIZE, most),
        Refusal::CountField,
    )
}

// The count.
fn count_of(file: &[u8]) -> usize
    requires { CountAt file.now }
    ensures { result ≡ count# file.now }
{
    number_at(file, wire::HEADER_SIZE)
}

// ---- the place of the field whose payload starts at a position

// Which piece of its face it names, by the word behind the face number, is a number from 0 to a small one; without that word it
// is 0.
fn index_within(file: &[u8], start: usize, any_cut: bool, most: usize) -> bool
    requires { (start + payload_length (size_by any_cut) ≤ length file.now) × (most ≤ 1536) }
    ensures { result ≡ within (pos 0) (pos most) (index_word file.now start any_cut) }
{
    !any_cut || number_within(file, start + 2 * wire::WORD_SIZE, most)
}

// That number, 0 without the word.
fn index_at(file: &[u8], start: usize, any_cut: bool) -> usize
    requires { IndexAt file.now start any_cut }
    ensures { result ≡ nat_abs (index_word file.now start any_cut) }
{
    if any_cut {
        number_at(file, start + 2 * wire::WORD_SIZE)
    } else {
        0
    }
}

// How many pieces of the table stand before the one that it names.
fn key_at(model: &[i32], places: &[usize], any_cut: bool, file: &[u8], start: usize) -> usize
    requires { KeyAt model.now places.now any_cut file.now start }
    ensures { result ≡ piece_key model.now (words_at file.now start (piece_field_size model.now)) }
{
    let l = number_at(file, start);
    let f = number_at(file, start + wire::WORD_SIZE);
    let k = index_at(file, start, any_cut);
    places[l] + (f * per_face(model, any_cut, l) + k)
}

// Location, face and piece exist.
#[tactic(auto, using(plant::proofs::Pieces::per_face_least, plant::proofs::Pieces::per_face_most))]
fn names_piece(model: &[i32], any_cut: bool, file: &[u8], start: usize) -> bool
    requires { Whole model.now × (any_cut ≡ P.any_cut model.now) × (start + payload_length (size_by any_cut) ≤ length file.now) }
    ensures { result ≡ names_piece model.now any_cut file.now start }
{
    if !number_within(file, start, records::locations(model) - 1) {
        return false;
    }
    let per = per_face(model, any_cut, number_at(file, start));
    let faces = 2 * records::variables(model);
    let face = number_within(file, start + wire::WORD_SIZE, faces - 1);
    face & index_within(file, start, any_cut, per - 1)
}

// The least key that the next field may have, which is one more than the key of this one; none if this one's location, face or
// piece does not exist, or its key is less than the least that is due.
#[tactic(auto, using(crate::proofs::TableReading::next_none, crate::proofs::TableReading::next_late, crate::proofs::TableReading::next_made))]
fn next_least(
    model: &[i32],
    places: &[usize],
    any_cut: bool,
    file: &[u8],
    start: usize,
    least: usize,
) -> Option<usize>
    requires { FieldsReady model.now places.now any_cut × (start + payload_length (size_by any_cut) ≤ length file.now) }
    ensures { result ≡ next_least model.now (words_at file.now start (piece_field_size model.now)) least }
{
    if !names_piece(model, any_cut, file, start) {
        return None;
    }
    let key = key_at(model, places, any_cut, file, start);
    if key < least {
        return None;
    }
    Some(key + 1)
}

// ---- the fields

// Of each in turn: whole, tag 5, due length? 36. Location, face and piece exist, after the one before? 37
fn pieces_questions(
    model: &[i32],
    places: &[usize],
    any_cut: bool,
    file: &[u8],
    count: usize,
) -> Result<(), Refusal>
    requires { FieldsReady model.now places.now any_cut }
    ensures { asked result ≡ first count (piece_questions model.now file.now) }
{
    let len = wire::payload_length(field_size(any_cut, records::variables(model)));
    let mut least = 0;
    let mut at = pieces_from();
    for _ in 0..count {
        let whole = wire::is_field(wire::next_field(file, at), 5, len);
        ask(whole, Refusal::PieceField)?;
        let start = at + wire::HEADER_SIZE;
        let next = next_least(model, places, any_cut, file, start, least);
        least = next.ok_or(Refusal::PieceOrder)?;
        at = start + len;
    }
    Ok(())
}

// 35 to 38.
fn fields_questions(
    model: &[i32],
    places: &[usize],
    any_cut: bool,
    file: &[u8],
) -> Result<(), Refusal>
    requires { FieldsReady model.now places.now any_cut }
    ensures { asked result ≡ fields_questions model.now file.now }
{
    count_question(model, file)?;
    let count = count_of(file);
    pieces_questions(model, places, any_cut, file, count)?;
    let size = field_size(any_cut, records::variables(model));
    let end = wire::field_place(pieces_from(), size, count);
    ask(file.len() == end, Refusal::TableEnd)
}

// ---- reading

// The words of a present piece: its box stands in the file from a position on.
fn fill_piece(file: &[u8], from: usize, n: usize, piece: &mut [i32])
    requires { (from + payload_length (2 * n) ≤ length file.now) × (length piece.old ≡ face_size n) × (n ≤ 6) }
    ensures { piece.new ≡ pos 1 ∷ words_at file.now from (2 * n) }
{
    piece[0] = 1;
    wire::copy_words(file, from, 2 * n, piece, 1);
}

// The table of a file that passes 35 to 38.
fn fill(model: &[i32], places: &[usize], any_cut: bool, file: &[u8], table: &mut [i32])
    requires { FieldsReady model.now places.now any_cut × (fields_questions model.now file.now ≡ 0) × (length table.old ≡ table_size model.now) }
    ensures { table.new ≡ file_table model.now file.now }
{
    table.fill(0);
    let n = records::variables(model);
    let size = tables::face_size(n);
    let field = field_size(any_cut, n);
    let box_from = wire::payload_length(place_size(any_cut));
    for i in 0..count_of(file) {
        let start = wire::field_place(pieces_from(), field, i) + wire::HEADER_SIZE;
        let to = key_at(model, places, any_cut, file, start) * size;
        let end = to + size;
        fill_piece(file, start + box_from, n, &mut table[to..end]);
    }
}

// Reads a file into the words of a table, 35 to 38 and 32: what they are after a refusal is left open.
#[tactic(auto, using(plant::proofs::Refusing::refused_first, plant::proofs::Refusing::passed_first, plant::proofs::Passing::whole, crate::proofs::Asked::ready_asked), unfolding(files::specs::TableFile::table_file_questions))]
fn read_words(model: &[i32], file: &[u8], table: &mut [i32]) -> Result<(), Refusal>
    requires { WordsReady model.now table.old }
    ensures questions { asked result ≡ table_file_questions model.now file.now }
    ensures words { OnOk result (table.new ≡ file_table model.now file.now) }
{
    let any_cut = any_cut(model);
    let mut places = [0; 65];
    tables::places(model, &mut places);
    fields_questions(model, &places, any_cut, file)?;
    fill(model, &places, any_cut, file, table);
    ask(checks::table_ok(model, &places, table), Refusal::Table)
}

// Reads a table file once the model's questions and 20 are yes: for the host.
pub fn read_faces(model: &[i32], file: &[u8], table: &mut [i32]) -> Result<usize, Refusal>
    requires { TableReady model.now table.old }
    ensures { record { count = numbered result; words = table.new } ≡ read_faces model.now file.now table.old }
{
    let size = tables::table_size(model);
    if let Err(refusal) = read_words(model, file, &mut table[..size]) {
        table.fill(0);
        return Err(refusal);
    }
    Ok(size)
}

// Reads a table file into the table's words: how many they are, or the refusal.
#[tactic(auto, using(plant::proofs::Refusing::refused_first, plant::proofs::Refusing::passed_first, crate::proofs::Asked::room_asked), unfolding(files::specs::TableFile::read_table_call, plant::specs::Calls::unless_refused))]
pub fn read_table(model: &[i32], file: &[u8], table: &mut [i32]) -> Result<usize, Refusal>
    ensures { record { count = numbered result; words = table.new } ≡ read_table_call model.now file.now table.old }
{
    room_questions(model, table.len())?;
    read_faces(model, file, table)
}
