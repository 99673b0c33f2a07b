// S-LSE on one link: whether it is added or removed.
ghost use Rattle.std.specs.Prelude.{◌≡◌, cond, ◌&&◌, ◌<◌, length, get_or, set};
ghost use Rattle.plan_theory.specs.Plan.{is_kept};
ghost use Rattle.plan_slse.specs.Steps.{ends_below, either_below, both_over, one_more, one_less};

// At how many of two ends the entry of `a` is below that of `b`.
fn ends_below(a: &[u16], b: &[u16], low: usize, high: usize) -> u8
    requires { (low < length a.now) × (high < length a.now) × (low < length b.now) × (high < length b.now) }
    ensures { result ≡ ends_below a.now b.now low high }
{
    if a[low] < b[low] {
        if a[high] < b[high] {
            return 2;
        }
        return 1;
    }
    if a[high] < b[high] {
        return 1;
    }
    0
}

// Adds a link that has an end with fewer links than it needs.
pub fn add_link(
    plan: &mut [u8],
    counts: &mut [u16],
    needs: &[u16],
    i: usize,
    low: usize,
    high: usize,
)
    requires { (i < length plan.old) × (low < high) × (high < length counts.old) × (high < length needs.now)
        × (get_or counts.old low 0 < 65535) × (get_or counts.old high 0 < 65535) }
    ensures { let adds = either_below counts.old needs.now low high in
        (plan.new ≡ cond adds (set plan.old i 1) plan.old)
        × (counts.new ≡ cond adds (one_more counts.old low high) counts.old) }
{
    if ends_below(counts, needs, low, high) == 0 {
        return;
    }
    plan[i] = 1;
    table::degrees::add_one(counts, low);
    table::degrees::add_one(counts, high);
}

// Removes an added link where both ends have more added links than they need.
pub fn remove_link(
    plan: &mut [u8],
    counts: &mut [u16],
    needs: &[u16],
    i: usize,
    low: usize,
    high: usize,
)
    requires { (i < length plan.old) × (low < high) × (high < length counts.old) × (high < length needs.now) }
    ensures { let removes = is_kept plan.old i && both_over counts.old needs.now low high in
        (plan.new ≡ cond removes (set plan.old i 0) plan.old)
        × (counts.new ≡ cond removes (one_less counts.old low high) counts.old) }
{
    if plan[i] != 1 {
        return;
    }
    if ends_below(needs, counts, low, high) != 2 {
        return;
    }
    plan[i] = 0;
    table::degrees::take_one(counts, low);
    table::degrees::take_one(counts, high);
}
