// The library's calls on words and on files, as C has them (host_c gives them to C): each is one proved call, whose reply is given as
// a number and a value. The number is 100 (done, safe, accepted), 101 (unknown), 102 (unfinished) or a refusal's; the value, of which
// a quote has three, is 0 on a refusal.
ghost use Rattle.std.specs.Prelude.{◌≡◌};
ghost use Rattle.plant.specs.Refusals.{numbered};
ghost use Rattle.plant.specs.Calls.{Reply, analysis_reply, verdict_reply, count_reply, ceiling_call, check_call, analyse_call};
ghost use Rattle.orders.specs.Desks.{desk_call};
ghost use Rattle.files.specs.ModelFile.{read_model_call, write_model_call};
ghost use Rattle.files.specs.TableFile.{read_table_call, write_table_call};
ghost use Rattle.orders.specs.Quotes.{QuoteReply, quote_reply, quote_call};
ghost use Rattle.interface.specs.ForC.{read_for_c, analysed_for_c, written_for_c, served_for_c};

use orders::{Desk, Figures};
use plant::{Answer, Refusal};

// Stores the passes of an answer, and gives its number.
fn answer_reply(answer: Result<Answer, Refusal>, value: &mut u64) -> u32
    ensures { record { code = result; value = value.new } ≡ analysis_reply (numbered answer) }
{
    let (code, passes) = crate::reply(answer);
    *value = passes as u64;
    code
}

// Stores a number of words, bytes or passes, and gives the call's number.
fn count_reply(count: Result<usize, Refusal>, value: &mut u64) -> u32
    ensures { record { code = result; value = value.new } ≡ count_reply (numbered count) }
{
    match count {
        Ok(k) => {
            *value = k as u64;
            100
        }
        Err(refusal) => {
            *value = 0;
            refusal.number()
        }
    }
}

// Reads a model file; the value is how many words the model has.
pub fn qii_read_model(file: &[u8], words: &mut [i32], value: &mut u64) -> u32
    ensures { record { reply = record { code = result; value = value.new }; words = words.new } ≡ read_for_c (read_model_call file.now words.old) }
{
    count_reply(model_files::read_model(file, words), value)
}

// Writes a model's file; the value is how many bytes it has.
pub fn qii_write_model(model: &[i32], file: &mut [u8], value: &mut u64) -> u32
    ensures { record { reply = record { code = result; value = value.new }; file = file.new } ≡ written_for_c (write_model_call model.now file.old) }
{
    count_reply(model_files::write_model(model, file), value)
}

// How many passes settle every answer.
pub fn qii_ceiling(model: &[i32], value: &mut u64) -> u32
    ensures { record { code = result; value = value.new } ≡ count_reply (ceiling_call model.now) }
{
    count_reply(analysis::ceiling(model).map(|k| k as usize), value)
}

// What any analysis of a model takes at most: the words of its table, the bytes of a file of it, the passes.
pub fn qii_quote(model: &[i32], words: &mut u64, bytes: &mut u64, ceiling: &mut u64) -> u32
    ensures { record { code = result; words = words.new; bytes = bytes.new; ceiling = ceiling.new } ≡ quote_reply (quote_call model.now) }
{
    let (code, figures) = match quote::quote(model) {
        Ok(figures) => (100, figures),
        Err(refusal) => {
            let nothing = Figures {
                words: 0,
                bytes: 0,
                ceiling: 0,
            };
            (refusal.number(), nothing)
        }
    };
    *words = figures.words as u64;
    *bytes = figures.bytes as u64;
    *ceiling = figures.ceiling;
    code
}

// Whether a table shows that a model is safe.
pub fn qii_check<'a>(model: &'a [i32], table: &'a [i32]) -> u32
    ensures { result ≡ (verdict_reply (check_call model.now table.now)).code }
{
    crate::verdict(analysis::check(model, table))
}

// The analysis under a limit of passes; the value is the number of passes made.
pub fn qii_analyse(
    model: &[i32],
    limit: u32,
    table: &mut [i32],
    work: &mut [i32],
    value: &mut u64,
) -> u32
    ensures { record { reply = record { code = result; value = value.new }; table = table.new; work = work.new } ≡ analysed_for_c (analyse_call model.now limit table.old work.old) }
{
    answer_reply(analysis::analyse(model, limit, table, work), value)
}

// Reads a table file; the value is how many words the table has.
pub fn qii_read_table(model: &[i32], file: &[u8], table: &mut [i32], value: &mut u64) -> u32
    ensures { record { reply = record { code = result; value = value.new }; words = table.new } ≡ read_for_c (read_table_call model.now file.now table.old) }
{
    count_reply(table_files::read_table(model, file, table), value)
}

// Writes a table's file; the value is how many bytes it has.
pub fn qii_write_table(model: &[i32], table: &[i32], file: &mut [u8], value: &mut u64) -> u32
    ensures { record { reply = record { code = result; value = value.new }; file = file.new } ≡ written_for_c (write_table_call model.now table.now file.old) }
{
    count_reply(table_files::write_table(model, table, file), value)
}

// The analysis at the desk: an answer moves both counters, by one job and by its passes.
pub fn qii_desk(
    jobs: &mut u32,
    passes: &mut u32,
    model: &[i32],
    limit: u32,
    table: &mut [i32],
    work: &mut [i32],
    value: &mut u64,
) -> u32
    ensures { record { desk = record { jobs = jobs.new; passes = passes.new }; analysed = record { reply = record { code = result; value = value.new }; table = table.new; work = work.new } } ≡ served_for_c (desk_call (record { jobs = jobs.old; passes = passes.old }) model.now limit table.old work.old) }
{
    let desk = Desk {
        jobs: *jobs,
        passes: *passes,
    };
    let receipt = desk::serve(desk, model, limit, table, work);
    let after = receipt.desk;
    *jobs = after.jobs;
    *passes = after.passes;
    answer_reply(receipt.answer, value)
}
