// The count and the cost of the links that a plan keeps.
ghost use Rattle.std.specs.Prelude.{◌≡◌, cond, ◌≤◌, eqb, length};
ghost use Rattle.range.specs.Sum.{weigh, count};
ghost use Rattle.table.specs.Table.{item};
ghost use Rattle.plan_theory.specs.Plan.{is_kept};

// What a link counts where its byte says that it is kept.
fn counted(byte: u8, value: u16) -> u32
    ensures { result ≡ cond (eqb byte 1) value 0 }
{
    if byte == 1 { value as u32 } else { 0 }
}

// The count of kept links.
#[tactic(auto, using(range::proofs::Sums::weigh_next, range::proofs::Sums::count_le), unfolding(range::specs::Sum::sum))]
pub fn kept_count(plan: &[u8], links: usize) -> u32
    requires { (links ≤ length plan.now) × (links ≤ 2048) }
    ensures { result ≡ count links (is_kept plan.now) }
{
    let mut n: u32 = 0;
    for i in 0..links {
        n += counted(plan[i], 1);
    }
    n
}

// The total cost of the kept links.
#[tactic(auto, using(range::proofs::Sums::weigh_next, range::proofs::Sums::weigh_most), unfolding(range::specs::Sum::sum))]
pub fn kept_cost(plan: &[u8], links: usize, costs: &[u16]) -> u32
    requires { (links ≤ length plan.now) × (links ≤ length costs.now) × (links ≤ 2048) }
    ensures { result ≡ weigh links (is_kept plan.now) (item costs.now) }
{
    let mut n: u32 = 0;
    for i in 0..links {
        n += counted(plan[i], costs[i]);
    }
    n
}
