//! Sums of bytes, which stop at a ceiling above every memory.

ghost use Rattle.std.specs.Prelude.{◌≡◌, ◌+◌, min, ℕ, length};
ghost use Rattle.scj_tree.specs.Recursion.{lookup};
ghost use Rattle.memory_needs.specs.Need.{sum_of, too_much};

use scj_base::NodeId;
use scj_tree::row_or;

/// More than any memory has.
const TOO_MUCH: u64 = 4_294_967_296;

/// The sum of two numbers of bytes.
pub fn sum(a: u64, b: u64) -> u64
    ensures { result ≡ min too_much (a + b) }
{
    a.saturating_add(b).min(TOO_MUCH)
}

/// The sum of what rows tell of these nodes.
#[tactic(auto, unfolding(crate::specs::Need::sum_of))]
pub fn sum_of(rows: &[u64], ids: &[NodeId]) -> u64
    ensures { result ≡ min too_much (sum_of (lookup 0 rows.now) ids.now) }
{
    let mut all = 0;
    let mut rest = ids;
    while let [id, others @ ..] = rest {
        all = sum(all, row_or(rows, 0, *id));
        rest = others;
    }
    all
}
