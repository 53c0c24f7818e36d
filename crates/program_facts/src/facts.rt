//! What the passes share of a program. What a table doesn't tell is found anew by those who ask: so the tables
//! themselves are made.

ghost use Rattle.std.specs.Prelude.{◌≡◌, ◌<◌, ◌^◌, Some, IfSome, length};
ghost use Rattle.scj_rules.specs.Classes.{class_number};
ghost use Rattle.scj_rules.specs.Contexts.{declarations_of, contexts_in, context};
ghost use Rattle.scj_rules.specs.ScopeRules.{scope_number};
ghost use Rattle.scj_rules.specs.StaticScopes.{is_implied_immortal};
ghost use Rattle.scj_rules.specs.UseRules.{variable_scope_at};
ghost use Rattle.program_facts.specs.Meanings.{IsMeaningAt, AreMeanings};
ghost use Rattle.program_facts.specs.Tables.{IsNaming, IsTreeOf, AreRuns, AreVariables, row_of, scope_of_member};

use crate::meanings::NodeMeaning;
use crate::tables::{Runs, ScopeNames, ScopeRow, ScopeTree, Variables};
use class_rows::ClassTable;
use node_contexts::Contexts;
use scj_base::{ClassId, Name, NodeId, ScopeId};
use scj_rules::{Context, Scope};
use scj_tree::Program;
use std::marker::Model;

/// A program with its classes, the contexts of its nodes and the names of its scopes, and with the tables that are made
/// later, as far as they are there. A contract sees the program.
#[derive(Drop)]
pub struct ProgramFacts<'a> {
    classes: &'a ClassTable<'a>,
    contexts: &'a Contexts,
    names: &'a ScopeNames,
    meanings: &'a [NodeMeaning],
    tree: Option<&'a ScopeTree>,
    runs: Option<&'a Runs>,
    variables: Option<&'a Variables>,
}

impl<'a> Model for ProgramFacts<'a> {
    ghost use Rattle.scj_tree.specs.Forest.{Forest};

    ghost Value = { Forest };

    ghost use Rattle.std.specs.Prelude.{option_copied};
    ghost use Rattle.program_facts.specs.Tables.{AreFacts};

    ghost view = { λ a. a.classes.now };

    ghost invariant = { λ a. AreFacts a.classes.now a.contexts.now a.names.now a.meanings.now (option_copied a.tree)
        (option_copied a.runs) (option_copied a.variables) };
}

impl<'a> ProgramFacts<'a> {
    /// What is told of a program first.
    #[tactic(auto, using(crate::proofs::MeaningLemmas::no_meanings))]
    pub fn new(
        classes: &'a ClassTable<'a>,
        contexts: &'a Contexts,
        names: &'a ScopeNames,
    ) -> ProgramFacts<'a>
        requires contexts { contexts.now ≡ contexts_in classes.now }
        requires names { IsNaming (declarations_of classes.now) names.now }
        ensures { result ≡ classes.now }
    {
        ProgramFacts {
            classes,
            contexts,
            names,
            meanings: &[],
            tree: None,
            runs: None,
            variables: None,
        }
    }

    /// The same once more, so that another part may be put to it.
    pub fn again(&self) -> ProgramFacts<'a>
        ensures { result ≡ self.now }
    {
        ProgramFacts {
            classes: self.classes,
            contexts: self.contexts,
            names: self.names,
            meanings: self.meanings,
            tree: self.tree,
            runs: self.runs,
            variables: self.variables,
        }
    }

    /// The same, with what the first nodes stand for.
    pub fn with_meanings(self, meanings: &'a [NodeMeaning]) -> ProgramFacts<'a>
        requires { AreMeanings self meanings.now }
        ensures { result ≡ self.entry }
    {
        let mut facts = self;
        facts.meanings = meanings;
        facts
    }

    /// The same, with what is told of classes, which may be the first ones alone.
    pub fn with_tree(self, tree: &'a ScopeTree) -> ProgramFacts<'a>
        requires { IsTreeOf self tree.now }
        ensures { result ≡ self.entry }
    {
        let mut facts = self;
        facts.tree = Some(tree);
        facts
    }

    /// The same, with where methods run and fields lie.
    pub fn with_runs(self, runs: &'a Runs) -> ProgramFacts<'a>
        requires { AreRuns self runs.now }
        ensures { result ≡ self.entry }
    {
        let mut facts = self;
        facts.runs = Some(runs);
        facts
    }

    /// The same, with the scopes of variables.
    pub fn with_variables(self, variables: &'a Variables) -> ProgramFacts<'a>
        requires { AreVariables self variables.now }
        ensures { result ≡ self.entry }
    {
        let mut facts = self;
        facts.variables = Some(variables);
        facts
    }

    /// The program.
    pub fn program(&self) -> &'a Program
        ensures { result.now ≡ self.now }
    {
        self.classes.program()
    }

    /// The classes.
    pub fn classes(&self) -> &'a ClassTable<'a>
        ensures { result.now ≡ self.now }
    {
        self.classes
    }

    /// How many classes there are, the framework's among them.
    pub fn class_count(&self) -> usize
        ensures value { result ≡ length (declarations_of self.now).classes }
        ensures few { result < 2 ^ 32 }
    {
        let _names = self.names;
        self.classes.count()
    }

    /// The class of a name: the first one that has it.
    pub fn class_of(&self, name: &Name) -> Option<ClassId>
        ensures { result ≡ class_number (declarations_of self.now).names name.now }
    {
        self.classes.class_of(name)
    }

    /// The contexts of the nodes.
    pub fn contexts(&self) -> &'a Contexts
        ensures { result.now ≡ contexts_in self.now }
    {
        self.contexts
    }

    /// Where a node stands.
    #[tactic(auto, unfolding(scj_rules::specs::Contexts::declarations_of))]
    pub fn context(&self, id: NodeId) -> Context
        ensures { result ≡ context (declarations_of self.now) id }
    {
        let contexts = self.contexts;
        contexts.get(id)
    }

    /// The scope of a name.
    #[tactic(auto, unfolding(scj_rules::specs::ScopeRules::scope_number))]
    pub fn scope_number(&self, name: &Name) -> Option<ScopeId>
        ensures { result ≡ scope_number (declarations_of self.now) name.now }
    {
        if name.bytes() == b"IMMORTAL".as_slice() {
            return Some(ScopeId::IMMORTAL);
        }
        let names = self.names;
        names.scopes.get(name).copied()
    }

    /// What a node stands for, as far as that is told.
    #[tactic(auto, unfolding(crate::specs::Meanings::IsMeaningAt))]
    pub fn meaning_reported(&self, id: NodeId) -> NodeMeaning
        ensures { IsMeaningAt self.now id result }
    {
        match self.meanings.get(id.number()) {
            Some(row) => *row,
            None => NodeMeaning::Nothing,
        }
    }

    /// What is said of the classes, as far as that is told.
    fn tree(&self) -> Option<&'a ScopeTree>
        ensures { IfSome result (λ tree. IsTreeOf self.now tree.now) }
    {
        Some(self.tree?)
    }

    /// Where methods run and fields lie, if that is told.
    fn runs(&self) -> Option<&'a Runs>
        ensures { IfSome result (λ runs. AreRuns self.now runs.now) }
    {
        Some(self.runs?)
    }

    /// Whether the instances of a class lie in `IMMORTAL` although it doesn't write so, if that is told.
    pub fn implied_reported(&self, class: ClassId) -> Option<bool>
        ensures { IfSome result (λ mark. mark ≡ is_implied_immortal (declarations_of self.now) class) }
    {
        let tree = self.tree()?;
        Some(*tree.implied.get(class.number() as usize)?)
    }

    /// What is said of the class of a number, if that is told.
    pub fn class_reported(&self, class: u32) -> Option<ScopeRow>
        ensures { IfSome result (λ row. row ≡ row_of (declarations_of self.now) class) }
    {
        let tree = self.tree()?;
        Some(*tree.rows.get(class as usize)?)
    }

    /// What is said of the method or field that a node declares in a class, if that is told.
    #[tactic(auto, unfolding(crate::specs::Tables::run_at, scj_rules::specs::Contexts::declarations_of))]
    pub fn member_reported(&self, class: ClassId, node: NodeId) -> Option<Option<Scope>>
        ensures { IfSome result (λ row. row ≡ scope_of_member (declarations_of self.now) class node) }
    {
        let context = self.context(node);
        if context.class? != class {
            return None;
        }
        let runs = self.runs()?;
        let number = node.number();
        Some(*runs.rows.get(&number)?)
    }

    /// The scope of the variable that a node declares, if that is told.
    pub fn variable_reported(&self, id: NodeId) -> Option<Scope>
        ensures { IfSome result (λ scope. variable_scope_at (declarations_of self.now) id ≡ Some scope) }
    {
        let variables = self.variables?;
        let number = id.number();
        Some(*variables.rows.get(&number)?)
    }
}
