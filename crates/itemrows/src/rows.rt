// The rows of an item's lists, from their sizes alone.
ghost use Rattle.std.specs.Prelude.{◌+◌, ◌≤◌, ◌<◌, ◌≡◌, ◌++◌, length, take};
ghost use Rattle.itemrows.specs.Joined.{fields_of, bytes_for, count_of, sum_of, list_row, list_rows, Small};

// How many fields a list of t bytes is.
fn fields_of(t: u32) -> usize
    ensures { (result ≡ fields_of t) × (result ≤ 1) }
{
    usize::from(t != 0)
}

// How many bytes they have, with their 1E.
fn bytes_for(t: u32) -> u32
    requires { t ≤ 300000 }
    ensures { (result ≡ bytes_for t) × (result ≤ 300001) }
{
    if t == 0 {
        return 0;
    }
    t + 1
}

pub fn count_of(totals: [u32; 4]) -> usize
    ensures { (result ≡ count_of totals) × (result ≤ 4) }
{
    fields_of(totals[0]) + fields_of(totals[1]) + fields_of(totals[2]) + fields_of(totals[3])
}

pub fn sum_of(totals: [u32; 4]) -> u32
    requires { Small totals }
    ensures { (result ≡ sum_of totals) × (result ≤ 1200004) }
{
    bytes_for(totals[0]) + bytes_for(totals[1]) + bytes_for(totals[2]) + bytes_for(totals[3])
}

// The row of a list of t bytes, if it has any, behind n others.
fn with_list(rows: [[u32; 3]; 8], n: usize, due: u32, tag: u32, t: u32) -> [[u32; 3]; 8]
    requires { (n < 8) × (t ≤ 300000) }
    ensures { (length result ≡ 8) × (take (n + fields_of t) result ≡ take n rows ++ list_row due tag t) }
{
    if t == 0 {
        return rows;
    }
    let mut out = rows;
    out[n] = [tag, t + 1, due];
    out
}

// The rows of four lists, behind n others, the first due at `due`.
pub fn list_rows(
    rows: [[u32; 3]; 8],
    n: usize,
    due: u32,
    tags: [u32; 4],
    totals: [u32; 4],
) -> [[u32; 3]; 8]
    requires { (n ≤ 4) × ((due ≤ 300000) × Small totals) }
    ensures { take (n + count_of totals) result ≡ take n rows ++ list_rows due tags totals }
{
    let mut out = rows;
    let mut m = n;
    let mut d = due;
    for (tag, t) in tags.iter().zip(&totals) {
        let next = with_list(out, m, d, *tag, *t);
        out = next;
        m += fields_of(*t);
        d += bytes_for(*t);
    }
    out
}
