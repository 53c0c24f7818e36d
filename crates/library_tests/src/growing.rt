//! A program that grows by hand.

use scj_base::{Name, Position, SharedName};
use scj_tree::{Node, NodeList, Program};
use std::test::Fail;

#[test]
#[tactic(auto, unfolding(scj_tree::specs::Forest::joined, scj_tree::specs::Forest::all_children, scj_tree::specs::Forest::AllBelow, scj_tree::specs::Forest::AllClasses, scj_tree::specs::Counts::times, scj_tree::specs::Shape::children))]
fn a_program_grows(rt: HostRuntime) -> Result<(), Fail> {
    let mut program = Program::new(rt.alloc());
    let position = Position {
        file: 0,
        line: 1,
        col: 7,
    };
    let id = program.add(Node::Class {
        position,
        name: SharedName::new(rt.alloc(), &Name::new(b"A"))?,
        flags: None,
        header: None,
        members: NodeList(Vec::new(rt.alloc())),
    })?;
    assert_eq!(rt; id.number(), 0);
    assert_eq!(rt; program.len(), 1);
    program.end_file(Vec::new(rt.alloc()))?;
    assert_eq!(rt; program.file_count(), 1);
    Ok(())
}
