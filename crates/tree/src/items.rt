// Whether a tree's items name each triangle once, by counting them in the lent work places. The definitions are
// in specs/steps/Counting.antt.
ghost use Rattle.std.specs.Prelude.{◌≡◌, ◌≤◌, length};
ghost use Rattle.tree.specs.steps.Counting as Counting;

// Counts in each place how often its number stands among the items.
fn count_items(items: &[u32], counts: &mut [u64])
    requires { Counting.Zero (length counts.old) counts.old }
    ensures { Counting.Counted items.now (length counts.old) counts.old counts.new }
{
    for item in items {
        let k = *item as usize;
        // No `get_mut`: its contract does not say what the counts end as.
        if k < counts.len() {
            counts[k] += 1;
        }
    }
}

// Whether each place holds 1.
fn all_ones(counts: &[u64]) -> bool
    ensures { result ≡ Counting.all_ones (length counts.now) counts.now }
{
    counts.iter().all(|count| *count == 1)
}

// Whether there are `n` items and each number below `n` stands once among them. The first `n` work places are used for
// counting; a list of another length is not counted. It is lent the whole list, since what is promised is said of all
// of it: the places past `n` stay as they are.
pub fn items_once(items: &[u32], n: usize, work: &mut [u64]) -> bool
    requires { n ≤ length work.old }
    ensures { Counting.CountsOnce items.now n work.old result work.new }
{
    if items.len() != n {
        return false;
    }
    let counts = &mut work[..n];
    counts.fill(0);
    count_items(items, counts);
    all_ones(counts)
}
