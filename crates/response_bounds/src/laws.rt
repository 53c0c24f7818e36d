//! Why a bound holds, in three steps. Each law is the contract of a function that does nothing, and speaks of every
//! schedule that follows priorities and stays within what is declared.

ghost use Rattle.std.specs.Prelude.{◌≡◌, ◌≤◌, ◌<◌, ◌+◌, ℕ, List, length, true};
ghost use Rattle.response_bounds.specs.declared.rows.Declared.{Declared as Row};
ghost use Rattle.response_bounds.specs.Periods.{Period, WasRaised, high_operations, low_operations};
ghost use Rattle.response_bounds.specs.Responses.{IsBound, are_bounds, response_of, responses_of};
ghost use Rattle.response_bounds.specs.declared.responses.Response.TheVariants.{Bound, NoBound};
ghost use Rattle.response_bounds.specs.Rows.{AreDeclared, blocking, other_work, row_at};
ghost use Rattle.response_bounds.specs.Schedule.{EndsInTime, Follows, KeepsRows, Schedule, operations, own};

/// The response of a row is its least bound, and none where it has none. It is what is to be done in it. And responses
/// are right as claims.
pub fn responses_are_least()
    ensures bound { (rows : List Row) (i x : ℕ) → i < length rows → response_of rows i ≡ Bound x → IsBound rows i x }
    ensures least { (rows : List Row) (i x : ℕ) → i < length rows → response_of rows i ≡ Bound x →
        (y : ℕ) → IsBound rows i y → x ≤ y }
    ensures none { (rows : List Row) (i : ℕ) → response_of rows i ≡ NoBound → (y : ℕ) → ¬ IsBound rows i y }
    ensures parts { (rows : List Row) → AreDeclared rows → (i x : ℕ) → i < length rows →
        response_of rows i ≡ Bound x → x ≡ blocking rows i + (row_at rows i).cost + other_work rows i x }
    ensures right { (rows : List Row) → are_bounds rows (responses_of rows) ≡ true }
{}

/// In a busy period of a row's priority all releases of lower priority together do at most as many operations as the
/// row may be blocked. One alone does any, and its active priority was already as high when the period began.
pub fn lower_priorities_block_once()
    ensures blocked { (rows : List Row) (n : ℕ) (c : Schedule) (i t x : ℕ) → Follows rows n c → KeepsRows rows n c →
        Period rows n c (row_at rows i).priority t x → 0 < x →
        low_operations rows c (row_at rows i).priority t x ≤ blocking rows i }
    ensures raised { (rows : List Row) (n : ℕ) (c : Schedule) (least t x p : ℕ) → Follows rows n c →
        Period rows n c least t x → own rows c p < least → 0 < operations c p t x → WasRaised c least t p }
    ensures one { (rows : List Row) (n : ℕ) (c : Schedule) (least t x p q : ℕ) → Follows rows n c →
        Period rows n c least t x → own rows c p < least → 0 < operations c p t x → own rows c q < least →
        0 < operations c q t x → p ≡ q }
{}

/// No unit of a busy period is idle, so as many operations are done in it as it has units. Those of at least the row's
/// priority are fewer than the costs of the releases that may become ready in it.
pub fn busy_periods_are_worked()
    ensures worked { (rows : List Row) (n : ℕ) (c : Schedule) (least t x : ℕ) → Follows rows n c →
        Period rows n c least t x → x ≤ low_operations rows c least t x + high_operations rows c least t x }
    ensures fewer { (rows : List Row) → AreDeclared rows → (n : ℕ) (c : Schedule) (i t x : ℕ) → Follows rows n c →
        KeepsRows rows n c → Period rows n c (row_at rows i).priority t x → 1 ≤ x → x ≤ (row_at rows i).gap →
        high_operations rows c (row_at rows i).priority t x < (row_at rows i).cost + other_work rows i x }
{}

/// So no busy period lasts for as many units as a bound has, and each release with a bound has ended within it.
pub fn schedules_end_in_time()
    ensures period { (rows : List Row) → AreDeclared rows → (n : ℕ) (c : Schedule) (i t x : ℕ) → Follows rows n c →
        KeepsRows rows n c → IsBound rows i x → ¬ Period rows n c (row_at rows i).priority t x }
    ensures ends { (rows : List Row) → AreDeclared rows → (n : ℕ) (c : Schedule) → Follows rows n c →
        KeepsRows rows n c → EndsInTime rows n c }
{}
