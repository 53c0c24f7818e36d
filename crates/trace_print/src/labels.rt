//! The texts of a program and the names of its files, and which of them are the longest.

ghost use Rattle.std.specs.Prelude.{◌≡◌, ◌<◌, ◌≤◌, length};
ghost use Rattle.scj_model.specs.TraceText.{label, file_name};
ghost use Rattle.trace_print.specs.Room.{greatest, longest_text, longest_name};

use scj_base::{Files, NodeId};
use scj_tree::{Node, Program};

/// The bytes between the quotes of the text at a node, and nothing where no text is.
#[tactic(auto, unfolding(scj_model::specs::TraceText::bytes_of_text))]
pub fn label_at(program: &Program, id: NodeId) -> &[u8]
    ensures { result.now ≡ label program.now.nodes id }
{
    match program.get(id) {
        Some(Node::Text { text, .. }) => text.items(),
        _ => &[],
    }
}

/// The length of the longest text of a program.
#[tactic(auto, using(crate::proofs::Lengths::greatest_none, crate::proofs::Lengths::greatest_next))]
pub fn text_room(program: &Program) -> usize
    ensures { result ≡ longest_text program.now.nodes }
{
    let mut longest = 0;
    for number in 0..program.len() {
        longest = label_at(program, NodeId::at(number as u32))
            .len()
            .max(longest);
    }
    longest
}

/// The name of a file.
pub fn name_at(files: &Files, file: u8) -> &[u8]
    requires { file < length files.now }
    ensures { result.now ≡ file_name files.now file }
{
    files.name(file)
}

/// The length of the longest name of a file.
#[tactic(auto, using(crate::proofs::Lengths::greatest_none, crate::proofs::Lengths::greatest_next))]
pub fn name_room(files: &Files, count: usize) -> usize
    requires all { count ≡ length files.now }
    requires few { count ≤ 16 }
    ensures { result ≡ longest_name files.now }
{
    let mut longest = 0;
    for file in 0..count {
        longest = name_at(files, file as u8).len().max(longest);
    }
    longest
}
