// The listing program: reads a model file from standard input, and writes its answer and the pieces of the answer's table
// (document 01, "Plant P and other cases"). Decide gives both, the table as a file. That file's fields are the lines, so which
// pieces are present, how many and in which order is proved where the file is written.
#![tactic(auto)]

ghost use Rattle.std.specs.Prelude.{◌≡◌, ℕ, ◌+◌, ◌≤◌, ◌<◌, length, IfOk};
ghost use Rattle.files.specs.Fields.{payload_length, field_length};
ghost use Rattle.interface.specs.Hosts.{packed, decide_call};

use std::io;
use std::io::Read;

// ---- what is listed

// The answer under limit 1,000 as decide's number, and the file of its table.
fn listed(model: &[u8], table: &mut [u8]) -> u64
    ensures { record { number = result; file = table.new } ≡ decide_call model.now table.old 1000 }
{
    host::decide(model, table, 1000)
}

// The answer's code, or the refusal's number, of a number of decide's.
fn code(number: u64) -> u64
    ensures { (c k : ℕ) → k < 4294967296 → number ≡ packed (record { code = c; value = k }) → result ≡ c }
{
    number / 4294967296
}

// Its passes.
fn passes(number: u64) -> u64
    ensures { (c k : ℕ) → k < 4294967296 → number ≡ packed (record { code = c; value = k }) → result ≡ k }
{
    number % 4294967296
}

// ---- what is read

// Reads until the buffer is full or the input ends, and gives how many bytes that was.
fn read_full(input: &mut impl Read, buffer: &mut [u8]) -> io::Result<usize>
    ensures { IfOk result (λ n. n ≤ length buffer.new) }
{
    let mut done: usize = 0;
    while done < buffer.len() {
        let n = input.read(&mut buffer[done..])?;
        if n == 0 {
            break;
        }
        done += n;
    }
    Ok(done)
}

// ---- what is written

// A line of as many words, from a position of the file on.
fn print_line(out: &impl Print, file: &[u8], from: usize, count: usize) -> io::Result<()>
    requires { from + payload_length count ≤ length file.now }
{
    for i in 0..count {
        let word = wire::word_at(file, from + wire::WORD_SIZE * i);
        let end = if i + 1 == count { '\n' } else { ' ' };
        print!(out; "{word}{end}")?;
    }
    Ok(())
}

// How many words the first field of a table's file has: the count of its pieces.
const COUNT_SIZE: usize = 1;

// A line for each of as many fields of a table's file behind the first.
#[tactic(auto, using(files::proofs::Fields::field_lies))]
fn print_pieces(out: &impl Print, file: &[u8], count: u32) -> io::Result<()> {
    let mut at = wire::field_length(COUNT_SIZE);
    for _ in 0..count {
        let field = wire::next_field(file, at);
        let files::Field::Whole {
            start,
            len,
            next,
            ..
        } = field
        else {
            return Ok(());
        };
        print_line(out, file, start, len / wire::WORD_SIZE)?;
        at = next;
    }
    Ok(())
}

// How many pieces a table's file has, which its first field says, as the end of line one; then their lines.
fn print_table(out: &impl Print, file: &[u8]) -> io::Result<()>
    requires { field_length 1 ≤ length file.now }
{
    let pieces = wire::word_at(file, wire::HEADER_SIZE).unsigned_abs();
    println!(out; "{pieces}")?;
    print_pieces(out, file, pieces)
}

// The word for an answer's code.
fn answer(code: u64) -> &'static str {
    match code {
        100 => "safe",
        101 => "unknown",
        _ => "unfinished",
    }
}

fn print_listing(out: &impl Print, number: u64, table: &[u8]) -> io::Result<()>
    requires { field_length 1 ≤ length table.now }
{
    let code = code(number);
    if code < 100 {
        return println!(out; "refused {code}");
    }
    let answer = answer(code);
    let passes = passes(number);
    print!(out; "{answer} {passes} ")?;
    print_table(out, table)
}

// A read or a write that fails ends the program, with its error and the status 1.
fn main(rt: HostRuntime) -> io::Result<()> {
    // One byte more than the longest model file has is read, so that every longer file is refused, by 8 or 46 if by nothing before.
    let mut model = [0u8; host::LONGEST_MODEL_FILE + 1];
    let n = read_full(&mut rt.stdin(), &mut model)?;
    let mut table = [0u8; host::LONGEST_TABLE_FILE];
    let number = listed(&model[..n], &mut table);
    print_listing(&rt, number, &table)
}
