// Whether a part of a location touches a forbidden box of it.
ghost use Rattle.std.specs.Prelude.{◌≡◌, true, ◌<◌, length};
ghost use Rattle.plant.specs.Model.{n#, L#, B#};
ghost use Rattle.plant.specs.Questions.{model_questions};
ghost use Rattle.plant.specs.Tables as T;
ghost use Rattle.plant.specs.Tables.{face_read, table_ok, start_part};
ghost use Rattle.tables.specs.Places.{Places};
ghost use Rattle.passes.specs.Ready.{TableReady};
ghost use Rattle.checks.specs.Links.{Linked};
ghost use Rattle.checks.specs.Parts.{part_words, PartAt};

// The forbidden boxes of each location, linked from the last to the first. A box has its number plus 1 here, and 0 is none: `last`
// holds the last box of each location, and `before` the one before each box in its location.
#[derive(Drop)]
pub struct Links {
    pub last: [usize; 64],
    pub before: [usize; 64],
}

// Links the forbidden boxes of a model.
pub fn link(model: &[i32]) -> Links
    requires { model_questions model.now ≡ 0 }
    ensures { Linked model.now (B# model.now) result.last result.before }
{
    // Built in place: two lists moved into it at the end would be held beside it.
    let mut links = Links {
        last: [0; 64],
        before: [0; 64],
    };
    for b in 0..records::forbidden_boxes(model) {
        let l = records::forbidden_location(model, b);
        links.before[b] = links.last[l];
        links.last[l] = b + 1;
    }
    links
}

// Writes the words of the start part of location l, a flag and a box of up to six variables.
fn start_words(model: &[i32], l: usize, words: &mut [i32])
    requires { (model_questions model.now ≡ 0) × (l < L# model.now) × (length words.old ≡ 13) }
    ensures { face_read (n# model.now) words.new 0 ≡ start_part model.now l }
{
    let there = passes::start_part(model, l, &mut words[1..]);
    words[0] = there as i32;
}

// The words of part p of a location of n variables, whose pieces stand behind the earlier ones in the table: part 0 is its start
// part, part q + 1 its piece q.
fn part_at<'a>(start: &'a [i32], table: &'a [i32], n: usize, earlier: usize, p: usize) -> &'a [i32]
    requires { PartAt n start.now table.now earlier p }
    ensures { result.now ≡ part_words n start.now table.now earlier p }
{
    if p == 0 {
        tables::face(start, 0, n)
    } else {
        tables::face(table, tables::piece_at(earlier, p - 1, n), n)
    }
}

// A part of a location touches a forbidden box of it: the search is left at the first such part. In a location without forbidden
// boxes no part is looked at, and no box is asked of an absent part.
pub fn touching(model: &[i32], places: &[usize], links: &Links, table: &[i32]) -> bool
    requires { TableReady model.now table.now × Places model.now places.now × (table_ok model.now table.now ≡ true) × Linked model.now (B# model.now) links.now.last links.now.before }
    ensures { result ≡ T.touching model.now table.now }
{
    let n = records::variables(model);
    let mut start = [0i32; 13];
    'search: for l in 0..records::locations(model) {
        let last = links.last[l];
        if last == 0 {
            continue 'search;
        }
        let inv = records::invariant(model, l);
        let rate = records::rate(model, l);
        let earlier = places[l];
        let next = places[l + 1];
        start_words(model, l, &mut start);
        'parts: for p in 0..next - earlier + 1 {
            let part = part_at(&start, table, n, earlier, p);
            if part[0] != 1 {
                continue 'parts;
            }
            let bounds = records::box_at(part, 1, n);
            let mut b = last;
            'boxes: while 0 < b {
                if delays::touches(n, inv, rate, bounds, records::forbidden_box(model, b - 1)) {
                    return true;
                }
                b = links.before[b - 1];
            }
        }
    }
    false
}
