// Which conditions of two sheets stay where repeats are left out: those of the first and then those of the second, each compared with the earlier ones that
// stay; and their being written, one after the other.
#![tactic(auto)]

pub mod chains; // chains.rt: digests of chains, and whether two have the same terms
pub mod kept; // kept.rt: the conditions that stay
