//! Files: packages, imports, and the heads of classes.

ghost use Rattle.std.specs.Prelude.{◌≡◌};
ghost use Rattle.parser_machine.specs.Files.{classes_step, file_start_step, import_dot_step, import_end_step, import_name_step, import_star_step, import_start_step, imports_step, package_end_step, package_name_step};
ghost use Rattle.parser_nodes.specs.Reported.{gives, seen};

use parser_machine::Mode;
use parser_nodes::growing_nodes::Nodes;
use parser_nodes::stacks::Stack;
use parser_nodes::views::View;
use scj_base::Memory;
use scj_base::vocabulary::{DOT, IMPORT, PACKAGE, SEMICOLON, STAR, STATIC};
use type_steps::declarations::flags_step;
use type_steps::flags::no_flags;

/// Behind `package`, or a dot behind it.
#[tactic(auto, unfolding(parser_machine::specs::Files::package_name_step))]
pub fn package_name_step(
    nodes: &mut Nodes,
    stack: &mut Stack,
    view: &View,
) -> Result<Option<Mode>, Memory>
    ensures step { let awaited = package_name_step nodes.old.all stack.old (seen view.now) in
        gives result nodes.new.all stack.new awaited ≡ awaited }
    ensures kept { nodes.new.kept ≡ nodes.old.kept }
{
    if let View::Name(_, _) = view {
        return Ok(Some(Mode::PackageEnd));
    }
    Ok(None)
}

/// Behind a name of a package.
#[tactic(auto, unfolding(parser_machine::specs::Files::package_end_step))]
pub fn package_end_step(
    nodes: &mut Nodes,
    stack: &mut Stack,
    view: &View,
) -> Result<Option<Mode>, Memory>
    ensures step { let awaited = package_end_step nodes.old.all stack.old (seen view.now) in
        gives result nodes.new.all stack.new awaited ≡ awaited }
    ensures kept { nodes.new.kept ≡ nodes.old.kept }
{
    let View::Sign(sign, _) = view else {
        return Ok(None);
    };
    if *sign == DOT {
        return Ok(Some(Mode::PackageName));
    }
    if *sign == SEMICOLON {
        return Ok(Some(Mode::InImports));
    }
    Ok(None)
}

/// Where a name of an import is due.
#[tactic(auto, unfolding(parser_machine::specs::Files::import_name_step))]
pub fn import_name_step(
    nodes: &mut Nodes,
    stack: &mut Stack,
    view: &View,
) -> Result<Option<Mode>, Memory>
    ensures step { let awaited = import_name_step nodes.old.all stack.old (seen view.now) in
        gives result nodes.new.all stack.new awaited ≡ awaited }
    ensures kept { nodes.new.kept ≡ nodes.old.kept }
{
    if let View::Name(_, _) = view {
        return Ok(Some(Mode::ImportEnd));
    }
    Ok(None)
}

/// Behind `import`.
#[tactic(auto, unfolding(parser_machine::specs::Files::import_start_step))]
pub fn import_start_step(
    nodes: &mut Nodes,
    stack: &mut Stack,
    view: &View,
) -> Result<Option<Mode>, Memory>
    ensures step { let awaited = import_start_step nodes.old.all stack.old (seen view.now) in
        gives result nodes.new.all stack.new awaited ≡ awaited }
    ensures kept { nodes.new.kept ≡ nodes.old.kept }
{
    if let View::Word(word, _) = view {
        if *word == STATIC {
            return Ok(Some(Mode::ImportName));
        }
        return Ok(None);
    }
    import_name_step(nodes, stack, view)
}

/// Behind a dot in an import.
#[tactic(auto, unfolding(parser_machine::specs::Files::import_dot_step))]
pub fn import_dot_step(
    nodes: &mut Nodes,
    stack: &mut Stack,
    view: &View,
) -> Result<Option<Mode>, Memory>
    ensures step { let awaited = import_dot_step nodes.old.all stack.old (seen view.now) in
        gives result nodes.new.all stack.new awaited ≡ awaited }
    ensures kept { nodes.new.kept ≡ nodes.old.kept }
{
    if let View::Sign(sign, _) = view {
        if *sign == STAR {
            return Ok(Some(Mode::ImportStar));
        }
        return Ok(None);
    }
    import_name_step(nodes, stack, view)
}

/// Behind a name in an import.
#[tactic(auto, unfolding(parser_machine::specs::Files::import_end_step))]
pub fn import_end_step(
    nodes: &mut Nodes,
    stack: &mut Stack,
    view: &View,
) -> Result<Option<Mode>, Memory>
    ensures step { let awaited = import_end_step nodes.old.all stack.old (seen view.now) in
        gives result nodes.new.all stack.new awaited ≡ awaited }
    ensures kept { nodes.new.kept ≡ nodes.old.kept }
{
    let View::Sign(sign, _) = view else {
        return Ok(None);
    };
    if *sign == DOT {
        return Ok(Some(Mode::ImportDot));
    }
    if *sign == SEMICOLON {
        return Ok(Some(Mode::InImports));
    }
    Ok(None)
}

/// Behind the `*` of an import.
#[tactic(auto, unfolding(parser_machine::specs::Files::import_star_step))]
pub fn import_star_step(
    nodes: &mut Nodes,
    stack: &mut Stack,
    view: &View,
) -> Result<Option<Mode>, Memory>
    ensures step { let awaited = import_star_step nodes.old.all stack.old (seen view.now) in
        gives result nodes.new.all stack.new awaited ≡ awaited }
    ensures kept { nodes.new.kept ≡ nodes.old.kept }
{
    let View::Sign(sign, _) = view else {
        return Ok(None);
    };
    if *sign == SEMICOLON {
        return Ok(Some(Mode::InImports));
    }
    Ok(None)
}

/// Where a class or the end is due.
#[tactic(auto, unfolding(parser_machine::specs::Files::classes_step))]
pub fn classes_step(
    nodes: &mut Nodes,
    stack: &mut Stack,
    view: &View,
) -> Result<Option<Mode>, Memory>
    ensures step { let awaited = classes_step nodes.old.all stack.old (seen view.now) in
        gives result nodes.new.all stack.new awaited ≡ awaited }
    ensures kept { nodes.new.kept ≡ nodes.old.kept }
{
    if let View::End(_) = view {
        return Ok(Some(Mode::Finished));
    }
    flags_step(nodes, stack, view, false, no_flags())
}

/// Where an import, a class or the end is due.
#[tactic(auto, unfolding(parser_machine::specs::Files::imports_step))]
pub fn imports_step(
    nodes: &mut Nodes,
    stack: &mut Stack,
    view: &View,
) -> Result<Option<Mode>, Memory>
    ensures step { let awaited = imports_step nodes.old.all stack.old (seen view.now) in
        gives result nodes.new.all stack.new awaited ≡ awaited }
    ensures kept { nodes.new.kept ≡ nodes.old.kept }
{
    if let View::Word(word, _) = view {
        if *word == IMPORT {
            return Ok(Some(Mode::ImportStart));
        }
        return classes_step(nodes, stack, view);
    }
    classes_step(nodes, stack, view)
}

/// Where a file begins.
#[tactic(auto, unfolding(parser_machine::specs::Files::file_start_step))]
pub fn file_start_step(
    nodes: &mut Nodes,
    stack: &mut Stack,
    view: &View,
) -> Result<Option<Mode>, Memory>
    ensures step { let awaited = file_start_step nodes.old.all stack.old (seen view.now) in
        gives result nodes.new.all stack.new awaited ≡ awaited }
    ensures kept { nodes.new.kept ≡ nodes.old.kept }
{
    if let View::Word(word, _) = view {
        if *word == PACKAGE {
            return Ok(Some(Mode::PackageName));
        }
        return imports_step(nodes, stack, view);
    }
    imports_step(nodes, stack, view)
}
