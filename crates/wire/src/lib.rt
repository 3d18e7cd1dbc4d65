// Words and fields of a file's bytes, and a cursor over them.
#![tactic(auto)]

ghost use Rattle.std.specs.Prelude.{◌≡◌, ◌++◌, ◌+◌, ◌≤◌, ◌<◌, length, take, drop};
ghost use Rattle.integers.specs.Words.{onto};
ghost use Rattle.files.specs.Bytes.{word_size, word_at, words_at, word_bytes, words_bytes, part};
ghost use Rattle.files.specs.Fields.{header_size, payload_length, field_length, field_place, field_at, is_field, header};

use files::Field;

// How many bytes a word has.
pub const WORD_SIZE: usize = 4;

// ---- from bytes to words

// The word at a position, highest byte first.
pub fn word_at(file: &[u8], at: usize) -> i32
    requires { at + word_size ≤ length file.now }
    ensures { result ≡ word_at file.now at }
{
    i32::from_be_bytes([file[at], file[at + 1], file[at + 2], file[at + 3]])
}

// Copies `count` words, from a position of the file on, to a place of the buffer.
pub fn copy_words(file: &[u8], from: usize, count: usize, words: &mut [i32], to: usize)
    requires { (from + payload_length count ≤ length file.now) × (to + count ≤ length words.old) }
    ensures { words.new ≡ onto (take to words.old ++ words_at file.now from count) words.old }
{
    for (i, word) in words[to..to + count].iter_mut().enumerate() {
        *word = word_at(file, from + WORD_SIZE * i);
    }
}

// ---- from words to bytes

// Writes a word's bytes at a position, highest byte first.
pub fn put_word(out: &mut [u8], at: usize, z: i32)
    requires { at + word_size ≤ length out.old }
    ensures { out.new ≡ onto (take at out.old ++ word_bytes z) out.old }
{
    out[at..at + WORD_SIZE].copy_from_slice(&z.to_be_bytes());
}

// Writes the bytes of `count` words, from a place of the list on, at a position.
pub fn put_words(words: &[i32], from: usize, count: usize, out: &mut [u8], to: usize)
    requires { (from + count ≤ length words.now) × (to + payload_length count ≤ length out.old) }
    ensures { out.new ≡ onto (take to out.old ++ words_bytes (part words.now from count)) out.old }
{
    for (i, word) in words[from..from + count].iter().enumerate() {
        put_word(out, to + WORD_SIZE * i, *word);
    }
}

// ---- how many bytes a field has

// Its tag and the length of its payload.
pub const HEADER_SIZE: usize = 3;

// A payload of w words.
pub fn payload_length(w: usize) -> usize
    requires { w ≤ 16383 }
    ensures { result ≡ payload_length w }
{
    WORD_SIZE * w
}

// The whole field.
pub fn field_length(w: usize) -> usize
    requires { w ≤ 16383 }
    ensures { result ≡ field_length w }
{
    HEADER_SIZE + payload_length(w)
}

// Where field i of a run of such fields begins.
pub fn field_place(from: usize, w: usize, i: usize) -> usize
    requires { (from ≤ 1000000) × (w ≤ 37) × (i ≤ 1536) }
    ensures { result ≡ field_place from w i }
{
    from + i * field_length(w)
}

// ---- fields

// The bytes from a position on, which may lie anywhere.
fn rest(file: &[u8], at: usize) -> &[u8]
    ensures { result.now ≡ drop at file.now }
{
    file.get(at..).unwrap_or(&[])
}

// The field at a position, which may lie anywhere. The second and the third byte are the payload's length, highest byte first.
pub fn field_at(file: &[u8], at: usize) -> Field
    ensures { result ≡ field_at file.now at }
{
    let [tag, high, low, payload @ ..] = rest(file, at) else {
        return Field::Short;
    };
    let tag = *tag;
    let len = usize::from(u16::from_be_bytes([*high, *low]));
    if payload.len() < len {
        return Field::Cut { tag };
    }
    let start = at + HEADER_SIZE;
    Field::Whole {
        tag,
        start,
        len,
        next: start + len,
    }
}

// A whole field of this tag and this length.
pub fn is_field(f: Field, tag: u8, len: usize) -> bool
    ensures { result ≡ is_field f tag len }
{
    matches!(f, Field::Whole { tag: t, len: l, .. } if (t == tag) & (l == len))
}

// Writes a field's tag and the length of its payload.
pub fn put_header(out: &mut [u8], to: usize, tag: u8, len: usize)
    requires { (len < 65536) × (to + header_size ≤ length out.old) }
    ensures { out.new ≡ onto (take to out.old ++ header tag len) out.old }
{
    let [high, low] = (len as u16).to_be_bytes();
    out[to..to + HEADER_SIZE].copy_from_slice(&[tag, high, low]);
}

// ---- the cursor

// A place in a file.
#[derive(Clone, Copy)]
pub struct Cursor<'a> {
    pub file: &'a [u8],
    pub at: usize,
}

impl<'a> Cursor<'a> {
    pub fn new(file: &'a [u8], at: usize) -> Self
        ensures { (result.file ≡ file.entry) × (result.at ≡ at) }
    {
        Cursor { file, at }
    }

    // The next field: where its payload lies, and where the one after it begins.
    pub fn next(self) -> Field
        ensures { result ≡ field_at self.entry.file.now self.entry.at }
    {
        field_at(self.file, self.at)
    }
}

// The next field from a position on, by a cursor there.
pub fn next_field(file: &[u8], at: usize) -> Field
    ensures { result ≡ field_at file.now at }
{
    Cursor::new(file, at).next()
}
