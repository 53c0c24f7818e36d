//! The classes of a program in their order, and by their names.

ghost use Rattle.std.specs.Prelude.{◌≡◌, ◌++◌, List, ℕ, map, filter_map, option_map, position, IfOk};
ghost use Rattle.scj_builtins.specs.declared.classes.FrameworkClass.{FrameworkClass};
ghost use Rattle.scj_builtins.specs.Framework.{framework_classes};
ghost use Rattle.scj_base.specs.Bytes.{is_same};
ghost use Rattle.scj_rules.specs.Views.{WrittenClass, class_at};
ghost use Rattle.class_headers.specs.NamedNumbers.{found_under};

use crate::named_numbers::NamedNumbers;
use node_views::class_name;
use scj_base::{Memory, Name, NodeId};
use scj_builtins::framework_classes;
use scj_tree::Program;
use std::alloc::{AllocError, Global};

/// The names of the framework's classes.
fn framework_names(alloc: Global) -> Result<Vec<Name>, AllocError>
    ensures { IfOk result (λ names. names.items ≡ map (λ (c : FrameworkClass). c.name) framework_classes) }
{
    framework_classes()
        .iter()
        .map(|class| class.name)
        .collect(alloc)
}

/// The names of the classes at these nodes.
fn user_names(alloc: Global, program: &Program, ids: &[NodeId]) -> Result<Vec<Name>, AllocError>
    ensures { IfOk result (λ names. names.items ≡ filter_map
        (λ id. option_map (λ (c : WrittenClass). c.name) (class_at program.now.nodes id)) ids.now) }
{
    ids.iter()
        .filter_map(|id| class_name(program, *id))
        .collect(alloc)
}

/// The names of the framework's classes and of the classes at these nodes.
pub fn names_of(alloc: Global, program: &Program, ids: &[NodeId]) -> Result<Vec<Name>, Memory>
    ensures { IfOk result (λ names. names.items ≡ map (λ (c : FrameworkClass). c.name) framework_classes
        ++ filter_map (λ id. option_map (λ (c : WrittenClass). c.name) (class_at program.now.nodes id)) ids.now) }
{
    let mut names = framework_names(alloc)?;
    let users = user_names(alloc, program, ids)?;
    names.extend_from_slice(&users)?;
    Ok(names)
}

/// How many classes are found by a hash table: no accepted program has more.
const FEW: usize = 512;

/// The first place of each name.
#[tactic(auto, using(crate::proofs::PartLemmas::all_numbered))]
pub fn index_of(alloc: Global, names: &[Name]) -> Result<NamedNumbers, Memory>
    ensures { IfOk result (λ index. (name : List ℕ) → found_under index name ≡ position (is_same name) names.now) }
{
    let mut number = names.len();
    if number > u32::MAX as usize {
        return Err(Memory);
    }
    let mut index = NamedNumbers::new(alloc, FEW);
    while number > 0 {
        number -= 1;
        index.enter(number, names[number], number as u32)?;
    }
    Ok(index)
}
