//! The generated program, part by part.

ghost use Rattle.std.specs.Prelude.{◌≡◌, ◌+◌, ◌*◌, ◌≤◌, ◌<◌, ◌↔◌, ◌++◌, IfOk, IfErr, OnOk, Err, length};
ghost use Rattle.source_gen.specs.Generated.{safelet_lines, mission_lines, handler_head, handler_lines, print_line, class_line, up_to, source_of, plan_of, IsOutside, ReportsOwnSize};

use crate::sizes::GenError;
use scj_base::Memory;
use std::alloc::Global;

/// A safelet with a sequencer that gives one mission.
#[tactic(auto, unfolding(crate::specs::Generated::safelet_lines))]
fn safelet_text() -> &'static [u8]
    ensures { result.now ≡ safelet_lines }
{
    b"class App implements Safelet {
  public MissionSequencer getSequencer() { return new Seq(); }
  public long immortalMemorySize() { return 400; }
  public void initializeApplication() { }
}
class Seq extends MissionSequencer {
  int n;
  Seq() { super(new PriorityParameters(5), new StorageParameters(0)); }
  public Mission getNextMission() {
    if (n > 0) return null;
    n = n + 1;
    return new Main();
  }
}
"
}

/// The mission with its one handler.
#[tactic(auto, unfolding(crate::specs::Generated::mission_lines))]
fn mission_text() -> &'static [u8]
    ensures { result.now ≡ mission_lines }
{
    b"@DefineScope(name=\"M\", parent=\"IMMORTAL\") class Main extends Mission {
public long missionMemorySize() { return 48; }
public void initialize() { new Work().register(); }
}
"
}

/// The handler up to the number of bytes of its releases' memory.
#[tactic(auto, unfolding(crate::specs::Generated::handler_head))]
fn handler_text() -> &'static [u8]
    ensures { result.now ≡ handler_head }
{
    b"@Scope(\"M\") @DefineScope(name=\"P\", parent=\"M\") class Work extends PeriodicEventHandler {
Work() { super(new PriorityParameters(10), new PeriodicParameters(new RelativeTime(0, 0), new RelativeTime(5, 0)), \
new StorageParameters("
}

/// Puts the handler up to the statements of its release.
#[tactic(auto, unfolding(crate::specs::Generated::handler_lines))]
fn put_handler(alloc: Global, text: &mut Vec<u8>, n: u32) -> Result<(), Memory>
    requires { n ≤ 250 }
    ensures { OnOk result (text.new.items ≡ text.old.items ++ handler_lines n) }
{
    let storage = 24 * n;
    let end = format!(in alloc; "{storage})); }}\npublic void handleAsyncEvent() {{\n")?;
    text.extend_from_slice(handler_text())?;
    text.extend_from_slice(end.as_bytes())?;
    Ok(())
}

/// Puts the statement that prints the number of a class's object.
#[tactic(auto, unfolding(crate::specs::Generated::print_line))]
fn put_print(alloc: Global, text: &mut Vec<u8>, i: u32) -> Result<(), Memory>
    ensures { OnOk result (text.new.items ≡ text.old.items ++ print_line i) }
{
    let line = format!(in alloc; "Trace.print(\"d{i}\", new D{i}({i}).get());\n")?;
    text.extend_from_slice(line.as_bytes())?;
    Ok(())
}

/// Puts the class of a number.
#[tactic(auto, unfolding(crate::specs::Generated::class_line))]
fn put_class(alloc: Global, text: &mut Vec<u8>, i: u32) -> Result<(), Memory>
    ensures { OnOk result (text.new.items ≡ text.old.items ++ class_line i) }
{
    let line = format!(in alloc;
        "class D{i} {{ int v; D{i}(int a) {{ v = a; }} int get() {{ return v + 1; }} }}\n"
    )?;
    text.extend_from_slice(line.as_bytes())?;
    Ok(())
}

/// Puts the statements of the release.
fn put_prints(alloc: Global, text: &mut Vec<u8>, n: u32) -> Result<(), Memory>
    requires { n ≤ 250 }
    ensures { OnOk result (text.new.items ≡ text.old.items ++ up_to print_line n) }
{
    for i in 0..n {
        put_print(alloc, text, i + 1)?;
    }
    Ok(())
}

/// Puts the classes.
fn put_classes(alloc: Global, text: &mut Vec<u8>, n: u32) -> Result<(), Memory>
    requires { n ≤ 250 }
    ensures { OnOk result (text.new.items ≡ text.old.items ++ up_to class_line n) }
{
    for i in 0..n {
        put_class(alloc, text, i + 1)?;
    }
    Ok(())
}

/// The source.
#[tactic(auto, unfolding(crate::specs::Generated::source_of))]
fn source(alloc: Global, n: u32) -> Result<Vec<u8>, Memory>
    requires { n ≤ 250 }
    ensures { IfOk result (λ text. text.items ≡ source_of n) }
{
    let mut text = Vec::from_slice(alloc, safelet_text())?;
    text.extend_from_slice(mission_text())?;
    put_handler(alloc, &mut text, n)?;
    put_prints(alloc, &mut text, n)?;
    text.extend_from_slice(b"}\n}\n")?;
    put_classes(alloc, &mut text, n)?;
    Ok(text)
}

/// The plan.
#[tactic(auto, unfolding(crate::specs::Generated::plan_of))]
fn plan(alloc: Global, n: u32) -> Result<Vec<u8>, Memory>
    requires { n ≤ 250 }
    ensures { IfOk result (λ text. text.items ≡ plan_of n) }
{
    let store = 448 + 24 * n;
    let line = format!(in alloc; "version = 1\nunits = 50000\nstore = {store}\n")?;
    Ok(line.into_bytes())
}

/// The source of the generated program of size `n`, in one file, and the text of a plan for it. A release of its one
/// handler makes and asks an object of each of `n` classes and prints `n` lines; the plan has units for ten releases.
///
/// # Errors
///
/// `Size` exactly where `n` isn't within 1 to 250, and `Memory` where there was none for the texts.
pub fn generate(alloc: Global, n: u32) -> Result<(Vec<u8>, Vec<u8>), GenError>
    ensures source { IfOk result (λ texts. texts.0.items ≡ source_of n) }
    ensures short { IfOk result (λ texts. length texts.0.items ≤ 1048576) }
    ensures plan { IfOk result (λ texts. texts.1.items ≡ plan_of n) }
    ensures size { (result ≡ Err (GenError.Size n)) ↔ IsOutside n }
    ensures own_size { IfErr result (ReportsOwnSize n) }
{
    if n < 1 {
        return Err(GenError::Size { n });
    }
    if n > 250 {
        return Err(GenError::Size { n });
    }
    let source = source(alloc, n)?;
    let plan = plan(alloc, n)?;
    Ok((source, plan))
}
