//! Whole reports.

ghost use Rattle.std.specs.Prelude.{codes, map};
ghost use Rattle.std.specs.Option.{option_map};
ghost use Rattle.grammar.specs.Rule.{maybe};
ghost use Rattle.flow_facts.specs.Reports.{node_of, certificate_of, reported};
ghost use Rattle.fact_text.specs.Grammar.{heading, count_bound, path_bound, line_is, cert, ending, lists, tail, report};
ghost use Rattle.fact_text.specs.Reading.{Reads};

use crate::reader::Reader;
use domain_core::ScopeRow;
use fact_words::Departure;
use flow_facts::{BoundWord, Cert, Fact, NodeLine, Report};

impl<'a> Reader<'a> {
    // The first line.
    #[tactic(auto, unfolding(crate::specs::Grammar::heading, crate::specs::Grammar::told))]
    fn heading(&mut self) -> Result<u8, Departure>
        ensures { Reads heading (λ x. x) result self.old self.new }
    {
        self.begins(b"facts")?;
        let token = self.next_word()?;
        if token.text == b"1".as_slice() {
            Ok(1)
        } else if token.text == b"2".as_slice() {
            Ok(2)
        } else {
            Err(Departure::Syntax(token.left))
        }
    }

    #[tactic(auto, unfolding(crate::specs::Grammar::count_bound))]
    fn count_bound(&mut self) -> Result<u64, Departure>
        ensures { Reads count_bound (λ x. x) result self.old self.new }
    {
        self.begins(b"count-bound")?;
        let bound = self.number(u64::MAX)?;
        Ok(bound)
    }

    #[tactic(auto, unfolding(crate::specs::Grammar::path_bound, crate::specs::Grammar::told))]
    fn path_bound(&mut self) -> Result<(u64, BoundWord), Departure>
        ensures { Reads path_bound (λ x. x) result self.old self.new }
    {
        self.begins(b"path-bound")?;
        let bound = self.number(u64::MAX)?;
        let token = self.next_word()?;
        if token.text == b"least".as_slice() {
            Ok((bound, BoundWord::Least))
        } else if token.text == b"stopped".as_slice() {
            Ok((bound, BoundWord::Stopped))
        } else {
            Err(Departure::Syntax(token.left))
        }
    }

    fn maybe_path_bound(&mut self) -> Result<Option<(u64, BoundWord)>, Departure>
        ensures { Reads (maybe (line_is (codes "path-bound")) path_bound) (λ x. x) result self.old self.new }
    {
        if !self.line_is(b"path-bound") {
            return Ok(None);
        }
        let bound = self.path_bound()?;
        Ok(Some(bound))
    }

    fn maybe_cert(&mut self) -> Result<Option<Cert>, Departure>
        ensures { Reads (maybe (line_is (codes "cert")) cert) (λ x. option_map certificate_of x) result self.old
            self.new }
    {
        if !self.line_is(b"cert") {
            return Ok(None);
        }
        let cert = self.cert()?;
        Ok(Some(cert))
    }

    // The last line, after which nothing is left.
    #[tactic(auto, unfolding(crate::specs::Grammar::ending, crate::specs::Grammar::told))]
    fn ending(&mut self) -> Result<(), Departure>
        ensures { Reads ending (λ x. x) result self.old self.new }
    {
        self.begins(b"end")?;
        let token = self.line_word()?;
        if token.left == 0 {
            Ok(())
        } else {
            Err(Departure::Syntax(token.left))
        }
    }

    #[tactic(auto, unfolding(crate::specs::Grammar::lists))]
    fn lists(&mut self, form: u8) -> Result<(Vec<NodeLine>, Vec<ScopeRow>, Vec<Fact>), Departure>
        ensures { Reads (lists form) (λ x. (map node_of x.0.items, x.1.items, x.2.items)) result self.old self.new }
    {
        let nodes = self.nodes()?;
        let scopes = self.scopes()?;
        let facts = self.facts(form)?;
        Ok((nodes, scopes, facts))
    }

    #[tactic(auto, unfolding(crate::specs::Grammar::tail))]
    fn tail(&mut self) -> Result<(u64, Option<(u64, BoundWord)>, Option<Cert>), Departure>
        ensures { Reads tail (λ x. (x.0, x.1, option_map certificate_of x.2)) result self.old self.new }
    {
        let count_bound = self.count_bound()?;
        let path_bound = self.maybe_path_bound()?;
        let cert = self.maybe_cert()?;
        self.ending()?;
        Ok((count_bound, path_bound, cert))
    }

    /// A whole report.
    #[tactic(auto, unfolding(crate::specs::Grammar::report))]
    pub fn report(&mut self) -> Result<Report, Departure>
        ensures { Reads report reported result self.old self.new }
    {
        let form = self.heading()?;
        let (nodes, scopes, facts) = self.lists(form)?;
        let (count_bound, path_bound, cert) = self.tail()?;
        Ok(Report {
            form,
            nodes,
            scopes,
            facts,
            count_bound,
            path_bound,
            cert,
        })
    }
}
