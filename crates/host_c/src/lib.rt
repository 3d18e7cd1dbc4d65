// The library's calls for C (document 01, "Desk and host"), the static library libhost.a: each is the call of the crate host that has
// its name, with the same promise. include/qiifaduleh.h declares them.
#![tactic(auto)]

ghost use Rattle.std.specs.Prelude.{◌≡◌};
ghost use Rattle.plant.specs.Calls.{Reply, verdict_reply, count_reply, ceiling_call, check_call, analyse_call};
ghost use Rattle.orders.specs.Desks.{desk_call};
ghost use Rattle.orders.specs.Quotes.{QuoteReply, quote_reply, quote_call};
ghost use Rattle.files.specs.ModelFile.{read_model_call, write_model_call};
ghost use Rattle.files.specs.TableFile.{read_table_call, write_table_call};
ghost use Rattle.interface.specs.Hosts.{decide_call, host_check_call};
ghost use Rattle.interface.specs.ForC.{read_for_c, analysed_for_c, written_for_c, served_for_c};

use host::calls;

// ---- on files

// Decides a model file under a limit, and writes the answer's table file: the answer's code or a refusal's number, times 2^32,
// plus the number of passes.
#[unsafe(no_mangle)]
pub extern "C" fn decide(model: &[u8], table: &mut [u8], limit: u32) -> u64
    ensures { record { number = result; file = table.new } ≡ decide_call model.now table.old limit }
{
    host::decide(model, table, limit)
}

// Checks a table file against a model file: 100 if it is accepted, else a refusal's number.
#[unsafe(no_mangle)]
pub extern "C" fn check(model: &[u8], table: &[u8]) -> u64
    ensures { result ≡ host_check_call model.now table.now }
{
    host::check(model, table)
}

// ---- on words, and from files to words and back

// Reads a model file; the value is how many words the model has.
#[unsafe(no_mangle)]
pub extern "C" fn qii_read_model(file: &[u8], words: &mut [i32], value: &mut u64) -> u32
    ensures { record { reply = record { code = result; value = value.new }; words = words.new } ≡ read_for_c (read_model_call file.now words.old) }
{
    calls::qii_read_model(file, words, value)
}

// Writes a model's file; the value is how many bytes it has.
#[unsafe(no_mangle)]
pub extern "C" fn qii_write_model(model: &[i32], file: &mut [u8], value: &mut u64) -> u32
    ensures { record { reply = record { code = result; value = value.new }; file = file.new } ≡ written_for_c (write_model_call model.now file.old) }
{
    calls::qii_write_model(model, file, value)
}

// How many passes settle every answer.
#[unsafe(no_mangle)]
pub extern "C" fn qii_ceiling(model: &[i32], value: &mut u64) -> u32
    ensures { record { code = result; value = value.new } ≡ count_reply (ceiling_call model.now) }
{
    calls::qii_ceiling(model, value)
}

// What any analysis of a model takes at most: the words of its table, the bytes of a file of it, the passes.
#[unsafe(no_mangle)]
pub extern "C" fn qii_quote(
    model: &[i32],
    words: &mut u64,
    bytes: &mut u64,
    ceiling: &mut u64,
) -> u32
    ensures { record { code = result; words = words.new; bytes = bytes.new; ceiling = ceiling.new } ≡ quote_reply (quote_call model.now) }
{
    calls::qii_quote(model, words, bytes, ceiling)
}

// Whether a table shows that a model is safe.
#[unsafe(no_mangle)]
pub extern "C" fn qii_check<'a>(model: &'a [i32], table: &'a [i32]) -> u32
    ensures { result ≡ (verdict_reply (check_call model.now table.now)).code }
{
    calls::qii_check(model, table)
}

// The analysis under a limit of passes; the value is the number of passes made.
#[unsafe(no_mangle)]
pub extern "C" fn qii_analyse(
    model: &[i32],
    limit: u32,
    table: &mut [i32],
    work: &mut [i32],
    value: &mut u64,
) -> u32
    ensures { record { reply = record { code = result; value = value.new }; table = table.new; work = work.new } ≡ analysed_for_c (analyse_call model.now limit table.old work.old) }
{
    calls::qii_analyse(model, limit, table, work, value)
}

// Reads a table file; the value is how many words the table has.
#[unsafe(no_mangle)]
pub extern "C" fn qii_read_table(
    model: &[i32],
    file: &[u8],
    table: &mut [i32],
    value: &mut u64,
) -> u32
    ensures { record { reply = record { code = result; value = value.new }; words = table.new } ≡ read_for_c (read_table_call model.now file.now table.old) }
{
    calls::qii_read_table(model, file, table, value)
}

// Writes a table's file; the value is how many bytes it has.
#[unsafe(no_mangle)]
pub extern "C" fn qii_write_table(
    model: &[i32],
    table: &[i32],
    file: &mut [u8],
    value: &mut u64,
) -> u32
    ensures { record { reply = record { code = result; value = value.new }; file = file.new } ≡ written_for_c (write_table_call model.now table.now file.old) }
{
    calls::qii_write_table(model, table, file, value)
}

// The analysis at the desk: an answer moves both counters, by one job and by its passes.
#[unsafe(no_mangle)]
pub extern "C" fn qii_desk(
    jobs: &mut u32,
    passes: &mut u32,
    model: &[i32],
    limit: u32,
    table: &mut [i32],
    work: &mut [i32],
    value: &mut u64,
) -> u32
    ensures { record { desk = record { jobs = jobs.new; passes = passes.new }; analysed = record { reply = record { code = result; value = value.new }; table = table.new; work = work.new } } ≡ served_for_c (desk_call (record { jobs = jobs.old; passes = passes.old }) model.now limit table.old work.old) }
{
    calls::qii_desk(jobs, passes, model, limit, table, work, value)
}
