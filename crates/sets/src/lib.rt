// Sets of nodes as 64-bit masks, and quorums. Each function is the set operation of specs/.
// Masks stay numbers, and so do nodes, whose bound `q < 64` many contracts ask for: C lends and is lent masks, and the definitions speak of numbers. With a type of
// its own for either, each entry, each frame and each turn of a loop over the nodes would make one, and prove the same bound there.
#![tactic(auto)]

ghost use Rattle.std.specs.Prelude.{◌≡◌, cond, ◌<◌, ◌≤◌};
ghost use Rattle.sets.specs.Sets.{has, ◌∪◌, ◌∩◌, ◌∖◌, subset as is_subset};
ghost use Rattle.sets.specs.Sets.{
  single as the_single,
  below as the_below,
  size as the_size,
  lowest as the_lowest,
};
ghost use Rattle.sets.specs.Quorum.{quorum};

// Whether node q is in m.
pub fn contains(m: u64, q: usize) -> bool
    requires { q < 64 }
    ensures { result ≡ has q m }
{
    (m >> q) & 1 == 1
}

pub fn single(q: usize) -> u64
    requires { q < 64 }
    ensures { result ≡ the_single q }
{
    1 << q
}

pub fn union(a: u64, b: u64) -> u64
    ensures { result ≡ a ∪ b }
{
    a | b
}

pub fn intersection(a: u64, b: u64) -> u64
    ensures { result ≡ a ∩ b }
{
    a & b
}

pub fn difference(a: u64, b: u64) -> u64
    ensures { result ≡ a ∖ b }
{
    a & !b
}

// m, with node q added if `yes`: the body of every loop that builds a set.
pub fn include(m: u64, q: usize, yes: bool) -> u64
    requires { q < 64 }
    ensures { result ≡ cond yes (the_single q ∪ m) m }
{
    if yes { union(single(q), m) } else { m }
}

// a if `yes`, else b: what a loop takes without a branch.
pub fn pick(yes: bool, a: u64, b: u64) -> u64
    ensures { result ≡ cond yes a b }
{
    if yes { a } else { b }
}

// The nodes of m below n.
pub fn below(n: usize, m: u64) -> u64
    requires { n ≤ 64 }
    ensures { result ≡ the_below n m }
{
    if n == 64 { m } else { m % single(n) }
}

pub fn subset(a: u64, b: u64) -> bool
    ensures { result ≡ is_subset a b }
{
    intersection(a, b) == a
}

pub fn size(m: u64) -> u32
    ensures value { result ≡ the_size m }
    ensures upper_bound { result ≤ 64 }
{
    u64::count_ones(m)
}

// The lowest node of m, 64 if it is empty.
pub fn lowest(m: u64) -> u32
    ensures { result ≡ the_lowest 64 (λ q. has q m) }
{
    u64::trailing_zeros(m)
}

// Whether s is a quorum of b.
pub fn is_quorum(s: u64, b: u64) -> bool
    ensures { result ≡ quorum s b }
{
    size(b) < 2 * size(s)
}
