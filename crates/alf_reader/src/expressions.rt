//! Expressions. Reading one goes as deep as expressions may stand in one another.

ghost use Rattle.std.specs.Prelude.{◌≡◌, ◌∷◌, ◌≤◌, map, length, IfOk, Result};
ghost use Rattle.grammar.specs.Rule.{many, maybe, exactly};
ghost use Rattle.alf_program.specs.Tree.{expression_of};
ghost use Rattle.std.specs.Option.{option_map};
ghost use Rattle.alf_ops.specs.Layouts.{size_count};
ghost use Rattle.alf_ops.specs.Table.{layout_of};
ghost use Rattle.alf_ops.specs.Names.{TellsOperator};
ghost use Rattle.alf_reader.specs.Grammar.{one, opens, fits_too_deep, operator, operator_named, unsigned_term};
ghost use Rattle.alf_reader.specs.Grammar.{signed_term, address_term, load, further, sizes, apply, expr_tail, nested};
ghost use Rattle.alf_reader.specs.Grammar.{expr, whole_expr, least_further, most_further};
ghost use Rattle.alf_tokens.specs.Ahead.{lexeme};
ghost use Rattle.alf_reader.specs.Reading.{Reads};

use crate::fault::{Departure, misfit, outside};
use crate::parts::Exprs;
use crate::reader::Reader;
use crate::words::operator_row;
use alf_ops::{Op, OpRow};
use alf_program::{Expr, Sizes};
use alf_tokens::{Kind, Token};
use flow_base::Which;
use grammar::many;

const MOST_DEPTH: u32 = 64;

// The least number after the first size of this operator: a size, or a place where it is `select`.
fn least_further(op: Op) -> u128
    ensures { result ≡ least_further op }
{
    match op {
        Op::Select => 0,
        _ => 1,
    }
}

fn most_further(op: Op) -> u128
    ensures value { result ≡ most_further op }
    ensures within { result ≤ 64 }
{
    match op {
        Op::Select => 63,
        _ => 64,
    }
}

impl<'a> Reader<'a> {
    #[tactic(auto, unfolding(crate::specs::Grammar::unsigned_term))]
    fn unsigned_term(&mut self) -> Result<Expr, Departure<'a>>
        ensures { Reads unsigned_term expression_of result self.old self.new }
    {
        let num = self.unsigned()?;
        Ok(Expr::Num(num))
    }

    #[tactic(auto, unfolding(crate::specs::Grammar::signed_term))]
    fn signed_term(&mut self) -> Result<Expr, Departure<'a>>
        ensures { Reads signed_term expression_of result self.old self.new }
    {
        let num = self.signed()?;
        Ok(Expr::Num(num))
    }

    #[tactic(auto, unfolding(crate::specs::Grammar::address_term))]
    fn address_term(&mut self) -> Result<Expr, Departure<'a>>
        ensures { Reads address_term expression_of result self.old self.new }
    {
        let (name, offset) = self.address_tail()?;
        Ok(Expr::Addr(name, offset))
    }

    // The departure where no further expression may stand in another.
    fn too_deep(&mut self) -> Departure<'a>
        ensures { Reads (one fits_too_deep) expression_of (Result.Err result) self.old self.new }
    {
        match self.token() {
            Ok(token) if token.kind == Kind::Open => {
                Departure::Limit(Which::Depth, u64::from(MOST_DEPTH) + 1)
            }
            Ok(token) => misfit(token),
            Err(departure) => departure,
        }
    }

    // A size after the first, or a place.
    #[tactic(auto, unfolding(crate::specs::Grammar::further))]
    fn further(&mut self, op: Op) -> Result<u32, Departure<'a>>
        ensures { Reads (further op) (λ x. x) result self.old self.new }
    {
        let number = self.between(least_further(op), most_further(op), 1)?;
        Ok(number as u32)
    }

    fn many_further(&mut self, op: Op, count: u32) -> Result<Vec<u32>, Departure<'a>>
        ensures reads { Reads (exactly count (further op)) (λ x. x.items) result self.old self.new }
        ensures counted { IfOk result (λ x. length x.items ≡ count) }
    {
        let mut sizes = Vec::new(self.alloc);
        for _ in 0..count {
            sizes.push(self.further(op)?)?;
        }
        Ok(sizes)
    }

    // The sizes of an operator, which are so many.
    #[tactic(auto, unfolding(crate::specs::Grammar::sizes))]
    fn sizes(&mut self, op: Op, count: u8) -> Result<Sizes, Departure<'a>>
        requires { count ≡ size_count (layout_of op) }
        ensures { Reads (sizes op) (λ x. x.items) result self.old self.new }
    {
        let first = self.size()?;
        let others = self.many_further(op, u32::from(count.saturating_sub(1)))?;
        Ok(with_first(first, &others))
    }

    /// An expression in which at most so many stand in one another.
    #[cycle(expr)]
    #[tactic(auto, using(crate::proofs::Depths::expr_none, crate::proofs::Depths::expr_more))]
    pub fn expr(&mut self, depth: u32) -> Result<Expr, Departure<'a>>
        ensures { Reads (expr depth) expression_of result self.old self.new }
    {
        if depth == 0 {
            Err(self.too_deep())
        } else {
            self.nested(depth - 1)
        }
    }

    #[cycle(expr)]
    #[tactic(auto, unfolding(crate::specs::Grammar::nested, crate::specs::Grammar::expr_tail))]
    fn nested(&mut self, depth: u32) -> Result<Expr, Departure<'a>>
        ensures { Reads (nested (expr depth)) expression_of result self.old self.new }
    {
        self.opening()?;
        let word = self.some_word()?;
        if word.text == b"dec_unsigned".as_slice() {
            self.unsigned_term()
        } else if word.text == b"dec_signed".as_slice() {
            self.signed_term()
        } else if word.text == b"addr".as_slice() {
            self.address_term()
        } else if word.text == b"load".as_slice() {
            self.load(depth)
        } else {
            self.operator(word, depth)
        }
    }

    #[cycle(expr)]
    #[tactic(auto, unfolding(crate::specs::Grammar::operator, crate::specs::Grammar::unknown))]
    fn operator(&mut self, word: Token<'a>, depth: u32) -> Result<Expr, Departure<'a>>
        ensures { Reads (operator (expr depth) (lexeme word.entry) (operator_named word.entry.text.now)) expression_of
            result self.old self.new }
    {
        match operator_row(word.text) {
            Some(row) => self.apply(row, depth),
            None => Err(outside(word)),
        }
    }

    #[cycle(expr)]
    #[tactic(auto, unfolding(crate::specs::Grammar::load))]
    fn load(&mut self, depth: u32) -> Result<Expr, Departure<'a>>
        ensures { Reads (load (expr depth)) expression_of result self.old self.new }
    {
        let size = self.between(8, 64, 8)? as u32;
        let at = self.expr(depth)?;
        self.closing()?;
        Ok(Expr::Load(size, Box::new(self.alloc, at)?))
    }

    #[cycle(expr)]
    #[tactic(auto, unfolding(crate::specs::Grammar::apply))]
    fn apply(&mut self, row: &OpRow, depth: u32) -> Result<Expr, Departure<'a>>
        requires { TellsOperator row.now }
        ensures { Reads (apply (expr depth) row.now.op) expression_of result self.old self.new }
    {
        let sizes = self.sizes(row.op, row.sizes)?;
        let operands = self.operands(u32::from(row.operands), depth)?;
        self.closing()?;
        Ok(Expr::Apply(row.op, sizes, operands))
    }

    #[cycle(expr)]
    fn operands(&mut self, count: u32, depth: u32) -> Result<Vec<Expr>, Departure<'a>>
        ensures { Reads (exactly count (expr depth)) (λ x. map expression_of x.items) result self.old self.new }
    {
        let mut operands = Vec::new(self.alloc);
        for _ in 0..count {
            operands.push(self.expr(depth)?)?;
        }
        Ok(operands)
    }

    /// An expression that stands in no other.
    #[tactic(auto, unfolding(crate::specs::Grammar::whole_expr))]
    pub fn whole_expr(&mut self) -> Result<Expr, Departure<'a>>
        ensures { Reads whole_expr expression_of result self.old self.new }
    {
        let expr = self.expr(MOST_DEPTH)?;
        Ok(expr)
    }

    /// Expressions that stand in no other, as long as a brace opens.
    pub fn whole_exprs(&mut self) -> Result<Vec<Expr>, Departure<'a>>
        ensures { Reads (many opens whole_expr) (λ x. map expression_of x.items) result self.old self.new }
    {
        let exprs = many(self.alloc, &Exprs, self)?;
        Ok(exprs)
    }

    /// An expression that stands in no other, where a brace opens.
    pub fn maybe_expr(&mut self) -> Result<Option<Expr>, Departure<'a>>
        ensures { Reads (maybe opens whole_expr) (option_map expression_of) result self.old self.new }
    {
        if !self.at_open() {
            return Ok(None);
        }
        let expr = self.whole_expr()?;
        Ok(Some(expr))
    }
}

// A size and at most two after it.
fn with_first(first: u32, others: &[u32]) -> Sizes
    requires { length others.now ≤ 2 }
    ensures { result.items ≡ first ∷ others.now }
{
    let mut sizes = Sizes::new();
    sizes.push(first);
    match sizes.try_extend_from_slice(others) {
        Ok(()) => sizes,
        Err(_) => unreachable!(),
    }
}
