//! The laws of strided values.

ghost use Rattle.domain_core.specs.Orders.{IsOrder};
ghost use Rattle.domain_core.specs.WordSets.{IsWordSets};
ghost use Rattle.strided_rules.specs.Strides.{Stride};
ghost use Rattle.strided_rules.specs.Domains.{stride_order, stride_sets};

/// Strided values are a lattice and a domain: a join has the words of both sides, each operator's rule
/// has its word for each choice of words and tells where a choice divides by 0, an assumed relation
/// keeps each word that is in it, and what has one word alone gives what has one word alone.
pub fn strided_values_are_a_domain()
    ensures order { IsOrder Stride stride_order }
    ensures sets { IsWordSets Stride stride_order stride_sets }
{}
