// Writing a table's file.
ghost use Rattle.std.specs.Prelude.{◌≡◌, ◌++◌, ◌+◌, ◌≤◌, length, take};
ghost use Rattle.integers.specs.Words.{onto};
ghost use Rattle.files.specs.Bytes.{words_bytes};
ghost use Rattle.files.specs.Fields.{payload_length};
ghost use Rattle.plant.specs.Tables.{table_size, longest_table_file, face_read};
ghost use Rattle.plant.specs.Model.{n#};
ghost use Rattle.plant.specs.Calls.{bytes_question};
ghost use Rattle.plant.specs.Refusals.{asked, numbered};
ghost use Rattle.plant.proofs.Whole.{Whole};
ghost use Rattle.files.specs.TableFile.{pieces_from, place_words, piece_field, location_fields, present_pieces, piece_fields, table_file, write_questions, write_table_call};
ghost use Rattle.table_files.specs.TableRoom.{size_by, WriteReady, IsPiece, PieceRoom, LocationRoom};

use crate::{COUNT_FIELD_SIZE, any_cut, field_size, pieces_from, place_size, room_questions};
use model::ask;
use plant::Refusal;

// The number that 39 asks for: the file of all the model's pieces, which none exceeds. For the quote, too.
pub fn longest_file(model: &[i32]) -> usize
    requires { Whole model.now }
    ensures { result ≡ longest_table_file model.now }
{
    let size = field_size(any_cut(model), records::variables(model));
    wire::field_place(pieces_from(), size, tables::piece_count(model))
}

// Byte buffer of that length? 39. For decide, too, once the model's questions are yes.
pub fn bytes_question(model: &[i32], room: usize) -> Result<(), Refusal>
    requires { Whole model.now }
    ensures { asked result ≡ bytes_question model.now room }
{
    ask(longest_file(model) <= room, Refusal::TableBytes)
}

// The model's questions, 20, 32 and 39.
#[tactic(auto, using(plant::proofs::Refusing::refused_first, plant::proofs::Refusing::passed_first, crate::proofs::Asked::room_asked, crate::proofs::Asked::room_whole), unfolding(files::specs::TableFile::write_questions))]
fn write_questions(model: &[i32], table: &[i32], room: usize) -> Result<(), Refusal>
    ensures { asked result ≡ write_questions model.now table.now room }
{
    room_questions(model, table.len())?;
    let mut places = [0; 65];
    tables::places(model, &mut places);
    ask(checks::table_ok(model, &places, table), Refusal::Table)?;
    bytes_question(model, room)
}

// How many pieces of the table are present.
fn present_pieces(model: &[i32], table: &[i32]) -> usize
    requires { Whole model.now × (table_size model.now ≤ length table.now) }
    ensures { result ≡ present_pieces model.now table.now }
{
    let size = tables::face_size(records::variables(model));
    (0..tables::piece_count(model))
        .filter(|&k| table[k * size] == 1)
        .count()
}

// Writes the place of piece q of location l.
fn put_place(model: &[i32], any_cut: bool, l: usize, q: usize, file: &mut [u8], to: usize)
    requires { IsPiece model.now any_cut l q × (to + payload_length (size_by any_cut) ≤ length file.old) }
    ensures { file.new ≡ onto (take to file.old ++ words_bytes (place_words model.now l q)) file.old }
{
    let per = tables::per_face(model, l);
    let f = q / per;
    let k = q % per;
    let place = [l as i32, f as i32, k as i32];
    wire::put_words(&place, 0, place_size(any_cut), file, to);
}

// Writes the field of piece q of location l, by its words, if it is present: where the next field goes.
fn put_piece(
    model: &[i32],
    any_cut: bool,
    l: usize,
    q: usize,
    piece: &[i32],
    file: &mut [u8],
    to: usize,
) -> usize
    requires { PieceRoom model.now any_cut l q piece.now file.old to }
    ensures bytes { file.new ≡ onto (take to file.old ++ piece_field model.now l q (face_read (n# model.now) piece.now 0)) file.old }
    ensures next { result ≡ to + length (piece_field model.now l q (face_read (n# model.now) piece.now 0)) }
{
    if piece[0] != 1 {
        return to;
    }
    let n = records::variables(model);
    let size = field_size(any_cut, n);
    let start = to + wire::HEADER_SIZE;
    wire::put_header(file, to, 5, wire::payload_length(size));
    put_place(model, any_cut, l, q, file, start);
    let box_from = start + wire::payload_length(place_size(any_cut));
    wire::put_words(piece, 1, 2 * n, file, box_from);
    to + wire::field_length(size)
}

// Writes the fields of the present pieces of location l, before which so many pieces stand, by face, then piece: where they end.
fn put_location(
    model: &[i32],
    any_cut: bool,
    before: usize,
    table: &[i32],
    l: usize,
    file: &mut [u8],
    to: usize,
) -> usize
    requires { LocationRoom model.now any_cut before table.now l file.old to }
    ensures bytes { file.new ≡ onto (take to file.old ++ location_fields model.now table.now l) file.old }
    ensures end { result ≡ to + length (location_fields model.now table.now l) }
{
    let n = records::variables(model);
    let mut next = to;
    for q in 0..tables::pieces(model, l) {
        let piece = tables::face(table, tables::piece_at(before, q, n), n);
        next = put_piece(model, any_cut, l, q, piece, file, next);
    }
    next
}

// Writes the fields of the present pieces behind the head field, by location, then face, then piece: where they end.
fn put_pieces(model: &[i32], table: &[i32], file: &mut [u8]) -> usize
    requires { WriteReady model.now table.now file.old }
    ensures bytes { file.new ≡ onto (take pieces_from file.old ++ piece_fields model.now table.now) file.old }
    ensures end { result ≡ pieces_from + length (piece_fields model.now table.now) }
{
    let any_cut = any_cut(model);
    let mut to = pieces_from();
    let mut before = 0;
    for l in 0..records::locations(model) {
        to = put_location(model, any_cut, before, table, l, file, to);
        before += tables::pieces(model, l);
    }
    to
}

// Writes the whole file: how many bytes it has. For decide, too, whose table needs no questions.
pub fn put_table(model: &[i32], table: &[i32], file: &mut [u8]) -> usize
    requires { WriteReady model.now table.now file.old }
    ensures bytes { file.new ≡ onto (table_file model.now table.now) file.old }
    ensures count { result ≡ length (table_file model.now table.now) }
{
    wire::put_header(file, 0, 6, wire::payload_length(COUNT_FIELD_SIZE));
    wire::put_word(file, wire::HEADER_SIZE, present_pieces(model, table) as i32);
    put_pieces(model, table, file)
}

// Writes a table's file: how many bytes it has, or the refusal.
#[tactic(auto, using(crate::proofs::TableWriting::write_asked, crate::proofs::TableWriting::table_refused, crate::proofs::TableWriting::table_done))]
pub fn write_table(model: &[i32], table: &[i32], file: &mut [u8]) -> Result<usize, Refusal>
    ensures { record { count = numbered result; file = file.new } ≡ write_table_call model.now table.now file.old }
{
    write_questions(model, table, file.len())?;
    Ok(put_table(model, table, file))
}
