//! Strided values as a domain.

ghost use Rattle.std.specs.Prelude.{◌≡◌, ◌<◌, IsSome, ◌≤◌, IfSome, false, true, map, take, length, slice_get};
ghost use Rattle.alf_ops.specs.Table.{result_size, operand_sizes};
ghost use Rattle.alf_ops.specs.Words.{divides as divides_of, EachFits};
ghost use Rattle.strided_rules.specs.Members.{word_of};
ghost use Rattle.strided_rules.specs.Domains.{operand as operand_of, all_one as all_one_of, divisor as divisor_of};
ghost use Rattle.strided_rules.specs.Domains.{divided as divided_of, known as known_of, stride_sets};
ghost use Rattle.interval_congruence.specs.Operands.{IsSized};
ghost use Rattle.interval_congruence.specs.Divisors.{IsDivisor};

use crate::dispatch::ruled;
use crate::value::Strided;
use alf_ops::{Op, apply};
use domain_core::{Applied, Domain, Rel};
use flat_domain::{HasSize, divides, size_of};

/// The operand at this place; one word after the last.
fn operand(args: &[Strided], place: usize) -> Strided
    ensures { result ≡ operand_of args.now place }
{
    if place < args.len() {
        args[place]
    } else {
        Strided::one_word(1, 0)
    }
}

/// Each operand has one member.
fn all_one(args: &[Strided]) -> bool
    ensures { result ≡ all_one_of args.now }
{
    match args.split_first() {
        None => true,
        Some((first, others)) => first.is_one() && all_one(others),
    }
}

/// The words of the low ends of the operands; 0 after the last.
fn words(args: &[Strided]) -> [u64; 3]
    requires { length args.now ≤ 3 }
    ensures { take (length args.now) result ≡ map word_of args.now }
{
    [
        operand(args, 0).word(),
        operand(args, 1).word(),
        operand(args, 2).word(),
    ]
}

/// What the operator gives at words.
#[tactic(auto, using(flat_domain::specs::OperatorSizeLaws::result_is_size))]
fn known(op: Op, sizes: &[u32], words: &[u64]) -> Applied<Strided>
    requires typed { IsSome (result_size op sizes.now) }
    requires fitting { EachFits (operand_sizes op sizes.now) words.now }
    ensures { result ≡ known_of op sizes.now words.now }
{
    match apply(op, sizes, words) {
        Ok(word) => Applied {
            value: Some(Strided::one_word(size_of(op, sizes), word)),
            divide: false,
        },
        Err(_) => Applied {
            value: None,
            divide: true,
        },
    }
}

/// The divisor without 0.
fn divisor(b: Strided) -> Option<Strided>
    ensures value { result ≡ divisor_of b }
    ensures size { IfSome result (λ rest. rest.size ≡ b.size) }
    ensures divisor { IfSome result IsDivisor }
{
    // Only a value in normal form has none but its own words.
    let _numbers = b.numbers();
    if b.has(0) { b.without(0) } else { Some(b) }
}

/// What a division gives: 0 is told, and dropped from the divisor.
fn divided(op: Op, sizes: &[u32], a: Strided, b: Strided) -> Applied<Strided>
    requires typed { IsSome (result_size op sizes.now) }
    requires divides { divides_of op ≡ true }
    requires first { IsSized (slice_get (operand_sizes op sizes.now) 0) a }
    requires second { IsSized (slice_get (operand_sizes op sizes.now) 1) b }
    ensures { result ≡ divided_of op sizes.now a b }
{
    let value = match divisor(b) {
        None => None,
        Some(rest) => Some(ruled(op, sizes, a, rest, rest)),
    };
    Applied {
        value,
        divide: b.has(0),
    }
}

impl HasSize for Strided {
    ghost bits_of = { λ x. x.size };

    fn bits(&self) -> u32 {
        self.size()
    }
}

impl Domain for Strided {
    ghost use Rattle.strided_rules.specs.StrideLaws.{stride_is_sets};

    ghost sets = { stride_sets };

    ghost is_sets = { stride_is_sets };

    fn kept(&self) {
        let _numbers = self.numbers();
    }

    fn single(size: u32, bits: u64) -> Self {
        Strided::one_word(size, bits)
    }

    fn whole(size: u32) -> Self {
        Strided::every_word(size)
    }

    fn has(&self, bits: u64) -> bool {
        Strided::has(*self, bits)
    }

    fn apply(op: Op, sizes: &[u32], args: &[Self]) -> Applied<Self> {
        if all_one(args) {
            let words = words(args);
            return known(op, sizes, &words[..args.len()]);
        }
        let (a, b, c) = (operand(args, 0), operand(args, 1), operand(args, 2));
        if divides(op) {
            divided(op, sizes, a, b)
        } else {
            Applied {
                value: Some(ruled(op, sizes, a, b, c)),
                divide: false,
            }
        }
    }

    fn assume(&self, rel: Rel, other: &Self) -> Option<Self> {
        self.assumed(rel, *other)
    }

    fn only(&self, bits: u64) -> Option<Self> {
        Strided::only(*self, bits)
    }
}
