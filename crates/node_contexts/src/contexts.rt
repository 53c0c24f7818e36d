//! The contexts of the nodes of a program.

ghost use Rattle.std.specs.Prelude.{◌≡◌, IfOk, replicate};
ghost use Rattle.scj_tree.specs.Recursion.{lookup};
ghost use Rattle.scj_rules.specs.Contexts.{outermost, contexts_in};

use crate::class_numbers::class_numbers;
use crate::packed::PackedContext;
use crate::rows::{row_at, spread_children};
use scj_base::{Memory, NodeId};
use scj_rules::Context;
use scj_tree::Program;
use std::alloc::Global;
use std::marker::Model;

/// The context of each node of a program.
#[derive(Drop)]
pub struct Contexts {
    rows: Vec<PackedContext>,
}

impl Model for Contexts {
    ghost use Rattle.std.specs.Prelude.{List};
    ghost use Rattle.scj_rules.specs.declared.contexts.Context.{Context as Row};

    ghost Value = { List Row };

    ghost view = { λ a. a.rows.items };
}

/// Contexts of so many nodes without parents.
fn outermost(alloc: Global, count: usize) -> Result<Vec<PackedContext>, Memory>
    ensures { IfOk result (λ rows. rows.items ≡ replicate count outermost) }
{
    Ok(vec![in alloc; PackedContext::outermost(); count]?)
}

impl Contexts {
    /// The contexts of a program.
    #[tactic(auto, using(crate::proofs::StepLemmas::started, crate::proofs::StepLemmas::ended))]
    pub fn of(alloc: Global, program: &Program) -> Result<Contexts, Memory>
        ensures { IfOk result (λ contexts. contexts ≡ contexts_in program.now) }
    {
        let numbers = class_numbers(alloc, program)?;
        let mut rows = outermost(alloc, program.len())?;
        let mut index = program.len();
        while index > 0 {
            index -= 1;
            let parent = NodeId::at(index as u32);
            let node = program.node(parent);
            spread_children(program, numbers[index], parent, node, &mut rows)?;
        }
        Ok(Contexts { rows })
    }

    /// The context of a node.
    pub fn get(&self, id: NodeId) -> Context
        ensures { result ≡ lookup outermost self.now id }
    {
        row_at(&self.rows, id).context()
    }
}
