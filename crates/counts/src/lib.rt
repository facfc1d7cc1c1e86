// Counts within a list: so many of its first entries, as `&list[..n]` asks for it.
#![tactic(auto)]

ghost use Rattle.counts.specs.Counts.{IsPrefixLen};

// n, or the list's length where that is less.
pub fn within<T>(n: usize, list: &[T]) -> usize
    ensures { IsPrefixLen result list.now }
{
    n.min(list.len())
}
