// All chains of a one-time key, four at a time.

ghost use Rattle.std.specs.Prelude.{◌≡◌, ◌≢◌, ℕ, ◌+◌, ◌*◌, ◌<◌, ◌≤◌, [], length, slice_index, slice_index_or};
ghost use Rattle.lm_ots.specs.Chains.{secret};
ghost use Rattle.lm_ots.specs.Runs.{AreBelow, AreSizes, Settled, SettledOrWaiting, end_of, steps_of};

use crate::four::{four_chains, four_secrets, store};

// How many groups of four take all chains.
fn group_count(count: usize) -> usize
    requires { count ≤ 265 }
    ensures all { count ≤ 4 * result }
    ensures none_more { (g : ℕ) → g < result → 4 * g < count }
{
    (count + 3) / 4
}

// The chains of group `g`, of `count` chains. Behind the last chain the lanes run it once more.
fn picks_of(g: usize, count: usize) -> [usize; 4]
    requires few { count ≤ 265 }
    requires some { 4 * g < count }
    ensures below { (n : ℕ) → count ≤ n → AreBelow result n }
    ensures places { (k : ℕ) → k < 4 → 4 * g + k < count → slice_index result k ≡ 4 * g + k }
{
    let last = count - 1;
    [
        4 * g,
        up_to(4 * g + 1, last),
        up_to(4 * g + 2, last),
        up_to(4 * g + 3, last),
    ]
}

fn up_to(i: usize, last: usize) -> usize
    ensures bound { result ≤ last }
    ensures value { i ≤ last → result ≡ i }
{
    if i < last { i } else { last }
}

// The places of four chains.
fn places_of(places: &[u8], picks: &[usize; 4]) -> [u8; 4]
    requires { AreBelow picks.now (length places.now) }
    ensures { (k : ℕ) → k < 4 → slice_index result k ≡ slice_index places.now (slice_index picks.now k) }
{
    let [a, b, c, d] = *picks;
    [places[a], places[b], places[c], places[d]]
}

// The values of four chains.
fn values_of(values: &[[u8; 32]], picks: &[usize; 4]) -> [[u8; 32]; 4]
    requires { AreBelow picks.now (length values.now) }
    ensures { (k : ℕ) → k < 4 → slice_index_or result k [] ≡ slice_index_or values.now (slice_index picks.now k) [] }
{
    let [a, b, c, d] = *picks;
    [values[a], values[b], values[c], values[d]]
}

/// Writes the private values of the first chains of one-time key `q`, as many as `values` has places
/// (RFC 8554, appendix A).
pub(crate) fn secrets(seed: &[u8; 32], id: &[u8; 16], q: u32, values: &mut [[u8; 32]])
    requires few { length values.old ≤ 265 }
    ensures { (i : ℕ) → i < length values.old → Settled (secret seed.now id.now q) values.new i }
{
    let count = values.len();
    for g in 0..group_count(count) {
        let picks = picks_of(g, count);
        let four = four_secrets(seed, id, q, &picks);
        store(values, &picks, &four);
    }
}

// The chains of a one-time key: where each begins, with which value, and where it ends.
#[derive(Clone, Copy)]
struct Run<'a> {
    id: &'a [u8; 16],
    q: u32,
    from: &'a [u8],
    to: &'a [u8],
    starts: &'a [[u8; 32]],
}

// The first `count` of four chains wait until there are four.
#[derive(Clone, Copy)]
struct Waiting {
    picks: [usize; 4],
    count: usize,
}

// Runs four chains and writes their ends.
fn settle(run: Run<'_>, picks: &[usize; 4], values: &mut [[u8; 32]])
    requires sizes { AreSizes run.from.now run.to.now run.starts.now (length values.old) }
    requires below { AreBelow picks.now (length values.old) }
    ensures { (x : ℕ) → SettledOrWaiting (end_of run.entry.id.now run.entry.q run.entry.from.now run.entry.to.now run.entry.starts.now) values.old picks.now 4 x
        → Settled (end_of run.entry.id.now run.entry.q run.entry.from.now run.entry.to.now run.entry.starts.now) values.new x }
{
    let from = places_of(run.from, picks);
    let to = places_of(run.to, picks);
    let four = four_chains(
        run.id,
        run.q,
        picks,
        &from,
        &to,
        &values_of(run.starts, picks),
    );
    store(values, picks, &four);
}

// Lets chain `i` wait, and runs four chains once there are four.
fn take(run: Run<'_>, i: usize, waiting: Waiting, values: &mut [[u8; 32]]) -> Waiting
    requires sizes { AreSizes run.from.now run.to.now run.starts.now (length values.old) }
    requires place { i < length values.old }
    requires count { waiting.count < 4 }
    requires below { AreBelow waiting.picks (length values.old) }
    ensures count { result.count < 4 }
    ensures below { AreBelow result.picks (length values.old) }
    ensures settled { (x : ℕ) → (x ≢ i → SettledOrWaiting (end_of run.entry.id.now run.entry.q run.entry.from.now run.entry.to.now run.entry.starts.now) values.old waiting.picks waiting.count x)
        → SettledOrWaiting (end_of run.entry.id.now run.entry.q run.entry.from.now run.entry.to.now run.entry.starts.now) values.new result.picks result.count x }
{
    let mut picks = waiting.picks;
    picks[waiting.count] = i;
    if waiting.count < 3 {
        Waiting {
            picks,
            count: waiting.count + 1,
        }
    } else {
        settle(run, &picks, values);
        Waiting { picks, count: 0 }
    }
}

// Takes chain `i` if it has so many steps.
fn take_if(run: Run<'_>, i: usize, steps: u8, waiting: Waiting, values: &mut [[u8; 32]]) -> Waiting
    requires sizes { AreSizes run.from.now run.to.now run.starts.now (length values.old) }
    requires place { i < length values.old }
    requires count { waiting.count < 4 }
    requires below { AreBelow waiting.picks (length values.old) }
    ensures count { result.count < 4 }
    ensures below { AreBelow result.picks (length values.old) }
    ensures kept { (x : ℕ) → SettledOrWaiting (end_of run.entry.id.now run.entry.q run.entry.from.now run.entry.to.now run.entry.starts.now) values.old waiting.picks waiting.count x
        → SettledOrWaiting (end_of run.entry.id.now run.entry.q run.entry.from.now run.entry.to.now run.entry.starts.now) values.new result.picks result.count x }
    ensures taken { steps_of run.entry.from.now run.entry.to.now i ≡ steps
        → SettledOrWaiting (end_of run.entry.id.now run.entry.q run.entry.from.now run.entry.to.now run.entry.starts.now) values.new result.picks result.count i }
{
    if run.to[i].saturating_sub(run.from[i]) == steps {
        take(run, i, waiting, values)
    } else {
        waiting
    }
}

// Takes each chain of so many steps.
fn take_each(run: Run<'_>, steps: u8, waiting: Waiting, values: &mut [[u8; 32]]) -> Waiting
    requires sizes { AreSizes run.from.now run.to.now run.starts.now (length values.old) }
    requires count { waiting.count < 4 }
    requires below { AreBelow waiting.picks (length values.old) }
    ensures count { result.count < 4 }
    ensures below { AreBelow result.picks (length values.old) }
    ensures kept { (x : ℕ) → SettledOrWaiting (end_of run.entry.id.now run.entry.q run.entry.from.now run.entry.to.now run.entry.starts.now) values.old waiting.picks waiting.count x
        → SettledOrWaiting (end_of run.entry.id.now run.entry.q run.entry.from.now run.entry.to.now run.entry.starts.now) values.new result.picks result.count x }
    ensures taken { (x : ℕ) → x < length values.old → steps_of run.entry.from.now run.entry.to.now x ≡ steps
        → SettledOrWaiting (end_of run.entry.id.now run.entry.q run.entry.from.now run.entry.to.now run.entry.starts.now) values.new result.picks result.count x }
{
    let mut group = waiting;
    for i in 0..values.len() {
        let next = take_if(run, i, steps, group, values);
        group = next;
    }
    group
}

// Waiting chain `k`, or another where fewer wait.
fn pick_or(waiting: Waiting, k: usize, other: usize) -> usize
    requires { k < 4 }
    ensures waits { k < waiting.count → result ≡ slice_index waiting.picks k }
    ensures bound { (n : ℕ) → AreBelow waiting.picks n → other < n → result < n }
{
    if k < waiting.count {
        waiting.picks[k]
    } else {
        other
    }
}

// Runs the chains that still wait. In lanes that are left the first runs once more.
fn settle_rest(run: Run<'_>, waiting: Waiting, values: &mut [[u8; 32]])
    requires sizes { AreSizes run.from.now run.to.now run.starts.now (length values.old) }
    requires count { waiting.count < 4 }
    requires below { AreBelow waiting.picks (length values.old) }
    ensures { (x : ℕ) → SettledOrWaiting (end_of run.entry.id.now run.entry.q run.entry.from.now run.entry.to.now run.entry.starts.now) values.old waiting.picks waiting.count x
        → Settled (end_of run.entry.id.now run.entry.q run.entry.from.now run.entry.to.now run.entry.starts.now) values.new x }
{
    if waiting.count > 0 {
        let first = waiting.picks[0];
        let picks = [
            first,
            pick_or(waiting, 1, first),
            pick_or(waiting, 2, first),
            pick_or(waiting, 3, first),
        ];
        settle(run, &picks, values);
    }
}

// The steps of the longest chain.
fn most_steps(from: &[u8], to: &[u8]) -> u8
    requires { length from.now ≡ length to.now }
    ensures { (x : ℕ) → x < length to.now → steps_of from.now to.now x ≤ result }
{
    let mut most = 0;
    for i in 0..to.len() {
        let steps = to[i].saturating_sub(from[i]);
        if steps > most {
            most = steps;
        }
    }
    most
}

/// Runs the chains of one-time key `q` to their ends: chain `i` begins at place `from[i]` with the value `starts[i]`,
/// and its value at place `to[i]` is written to `values[i]`. Chains of many steps run before those of few, so that four
/// which run at once take about as many.
pub(crate) fn ends(
    id: &[u8; 16],
    q: u32,
    from: &[u8],
    to: &[u8],
    starts: &[[u8; 32]],
    values: &mut [[u8; 32]],
)
    requires few { length values.old ≤ 265 }
    requires sizes { (length from.now ≡ length values.old) × (length to.now ≡ length values.old) × (length starts.now ≡ length values.old) }
    ensures { (i : ℕ) → i < length values.old → Settled (end_of id.now q from.now to.now starts.now) values.new i }
{
    // A chain of no step ends where it begins.
    values.copy_from_slice(starts);
    if values.len() == 0 {
        return;
    }
    let run = Run {
        id,
        q,
        from,
        to,
        starts,
    };
    let mut waiting = Waiting {
        picks: [0; 4],
        count: 0,
    };
    let mut steps = most_steps(from, to);
    'lengths: while steps > 0 {
        let next = take_each(run, steps, waiting, values);
        waiting = next;
        steps -= 1;
    }
    settle_rest(run, waiting, values);
}
