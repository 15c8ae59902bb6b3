//! Lines of nodes and scopes.

ghost use Rattle.std.specs.Prelude.{map, []};
ghost use Rattle.grammar.specs.Chain.{grow};
ghost use Rattle.flow_facts.specs.Reports.{node_of};
ghost use Rattle.fact_text.specs.Grammar.{numbered, name, node, next_node, node_begins, parent, scope_kind, scope};
ghost use Rattle.fact_text.specs.Grammar.{next_scope, scope_begins};
ghost use Rattle.fact_text.specs.Reading.{Reads};

use crate::reader::Reader;
use domain_core::{ScopeKind, ScopeRow};
use fact_words::{Departure, is_node_name, number_within};
use flow_facts::NodeLine;

const MOST_COUNT: u128 = 0xffff_ffff;

impl<'a> Reader<'a> {
    // This very number.
    #[tactic(auto, unfolding(crate::specs::Grammar::numbered, crate::specs::Grammar::told))]
    fn numbered(&mut self, expected: usize) -> Result<(), Departure>
        ensures { Reads (numbered expected) (λ x. x) result self.old self.new }
    {
        let token = self.next_word()?;
        let number = number_within(token.text, MOST_COUNT, token.left)?;
        if number == expected as u128 {
            Ok(())
        } else {
            Err(Departure::Syntax(token.left))
        }
    }

    #[tactic(auto, unfolding(crate::specs::Grammar::name, crate::specs::Grammar::told))]
    fn name(&mut self) -> Result<Vec<u8>, Departure>
        ensures { Reads name (λ x. x.items) result self.old self.new }
    {
        let token = self.next_word()?;
        if !is_node_name(token.text) {
            return Err(Departure::Syntax(token.left));
        }
        let name = Vec::from_slice(self.alloc, token.text)?;
        Ok(name)
    }

    /// The line of the node of this number.
    #[tactic(auto, unfolding(crate::specs::Grammar::node))]
    fn node(&mut self, number: usize) -> Result<NodeLine, Departure>
        ensures { Reads (node number) node_of result self.old self.new }
    {
        self.begins(b"node")?;
        self.numbered(number)?;
        let scope = self.count()?;
        let cost = self.count()?;
        let name = self.name()?;
        Ok(NodeLine { scope, cost, name })
    }

    // The line of the node after these.
    fn next_node(&mut self, nodes: Vec<NodeLine>) -> Result<Vec<NodeLine>, Departure>
        ensures { Reads (next_node (map node_of nodes.items)) (λ x. map node_of x.items) result self.old self.new }
    {
        let node = self.node(nodes.len())?;
        let mut nodes = nodes;
        nodes.push(node)?;
        Ok(nodes)
    }

    /// The lines of all nodes.
    pub fn nodes(&mut self) -> Result<Vec<NodeLine>, Departure>
        ensures { Reads (grow node_begins next_node []) (λ x. map node_of x.items) result self.old self.new }
    {
        let mut nodes = Vec::new(self.alloc);
        while self.line_is(b"node") {
            match self.next_node(nodes) {
                Ok(next) => nodes = next,
                Err(error) => return Err(error),
            }
        }
        Ok(nodes)
    }

    #[tactic(auto, unfolding(crate::specs::Grammar::parent, crate::specs::Grammar::told))]
    fn parent(&mut self) -> Result<Option<u32>, Departure>
        ensures { Reads parent (λ x. x) result self.old self.new }
    {
        let token = self.next_word()?;
        if token.text == b"-".as_slice() {
            return Ok(None);
        }
        let scope = number_within(token.text, MOST_COUNT, token.left)?;
        Ok(Some(scope as u32))
    }

    #[tactic(auto, unfolding(crate::specs::Grammar::scope_kind, crate::specs::Grammar::told))]
    fn scope_kind(&mut self) -> Result<ScopeKind, Departure>
        ensures { Reads scope_kind (λ x. x) result self.old self.new }
    {
        let token = self.next_word()?;
        if token.text == b"call".as_slice() {
            Ok(ScopeKind::Call)
        } else if token.text == b"loop".as_slice() {
            Ok(ScopeKind::Loop)
        } else {
            Err(Departure::Syntax(token.left))
        }
    }

    /// The line of the scope of this number.
    #[tactic(auto, unfolding(crate::specs::Grammar::scope))]
    fn scope(&mut self, number: usize) -> Result<ScopeRow, Departure>
        ensures { Reads (scope number) (λ x. x) result self.old self.new }
    {
        self.begins(b"scope")?;
        self.numbered(number)?;
        let parent = self.parent()?;
        let header = self.count()?;
        let kind = self.scope_kind()?;
        Ok(ScopeRow {
            parent,
            header,
            kind,
        })
    }

    // The line of the scope after these.
    fn next_scope(&mut self, scopes: Vec<ScopeRow>) -> Result<Vec<ScopeRow>, Departure>
        ensures { Reads (next_scope (scopes.items)) (λ x. x.items) result self.old self.new }
    {
        let scope = self.scope(scopes.len())?;
        let mut scopes = scopes;
        scopes.push(scope)?;
        Ok(scopes)
    }

    /// The lines of all scopes.
    pub fn scopes(&mut self) -> Result<Vec<ScopeRow>, Departure>
        ensures { Reads (grow scope_begins next_scope []) (λ x. x.items) result self.old self.new }
    {
        let mut scopes = Vec::new(self.alloc);
        while self.line_is(b"scope") {
            match self.next_scope(scopes) {
                Ok(next) => scopes = next,
                Err(error) => return Err(error),
            }
        }
        Ok(scopes)
    }
}
