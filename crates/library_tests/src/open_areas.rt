//! The open areas after the last unit of a run: a thousand releases, one after the other, each with a private memory in the
//! words of the one before.

ghost use Rattle.std.specs.Prelude.{◌≡◌, length};

use class_rows::ClassTable;
use object_layout::Layout;
use op_list::{Code, OpList};
use plain_machine::{Machine, Setting};
use private_scopes::private_scopes;
use run_plan::{Plan, read_plan};
use scj_base::Files;
use scj_check::{Sources, Verdict, check};
use scj_io::MemSink;
use scj_rules::Checked;
use std::alloc::Global;
use std::test::Fail;

const UNITS: u64 = 30_100;

const SOURCE: &[u8] = b"class App implements Safelet {
  public MissionSequencer getSequencer() { return new Seq(); }
  public long immortalMemorySize() { return 400; }
  public void initializeApplication() { }
}
class Seq extends MissionSequencer {
  int n;
  Seq() { super(new PriorityParameters(5), new StorageParameters(0)); }
  public Mission getNextMission() {
    if (n > 0) return null;
    n = n + 1;
    return new Main();
  }
}
@DefineScope(name=\"M\", parent=\"IMMORTAL\") class Main extends Mission {
  public long missionMemorySize() { return 200; }
  public void initialize() { new H(this).register(); }
}
@Scope(\"M\") @DefineScope(name=\"P\", parent=\"M\") class H extends AperiodicEventHandler {
  Main m;
  H(Main x) { super(new PriorityParameters(7), new AperiodicParameters(), new StorageParameters(48)); m = x; }
  public void handleAsyncEvent() { new Box(1); new Box(2); Trace.print(\"ok\", 0); }
}
class Box { int v; Box(int a) { v = a; } }
";

/// A plan whose store has room for immortal memory, mission memory and one private memory, and not for a byte more.
fn thousand_fires(alloc: Global) -> Result<Plan, Fail> {
    let mut text = String::from_str(alloc, "version = 1\nunits = 30100\nstore = 648\n")?;
    for k in 0..1000_u16 {
        let at = 50 + 30 * u64::from(k);
        let row = format!(in alloc; "[[fire]]\nat = {}\nhandler = \"H\"\n", at)?;
        text.push_str(&row)?;
    }
    Ok(read_plan(alloc, text.as_bytes())?)
}

/// Spends all units.
fn run_through(alloc: Global, machine: &mut Machine<'_>) -> Result<(), Fail> {
    let mut out = MemSink::with_capacity(alloc, 262_144)?;
    for _unit in 0..UNITS {
        if !machine.is_live() {
            return Err(Fail::from("the run ended before"));
        }
        machine.step(alloc, &mut out)?;
    }
    Ok(())
}

/// The declared and the used bytes of the first three open areas, where there are so many.
fn open_areas(machine: &Machine<'_>) -> [Option<(u64, u64)>; 3] {
    let mut open = [None; 3];
    for i in 0..3 {
        if let Some(area) = machine.area(i) {
            open[i] = Some((area.bytes, area.used));
        }
    }
    open
}

/// Those behind the last unit of a run.
fn open_after(
    alloc: Global,
    setting: Setting<'_>,
    files: &Files,
) -> Result<[Option<(u64, u64)>; 3], Fail>
    requires same { setting.classes.now ≡ setting.code.now.program }
    requires named { length setting.code.now.program.files ≡ length files.now }
{
    let mut machine = Machine::make(alloc, setting, files)?;
    run_through(alloc, &mut machine)?;
    Ok(open_areas(&machine))
}

/// Those of the run of a checked program by a plan.
fn open_at_the_end(
    alloc: Global,
    checked: &Checked,
    plan: &Plan,
) -> Result<[Option<(u64, u64)>; 3], Fail> {
    let mut files = Files::new(alloc);
    files.add("C.java")?;
    if checked.program().file_count() != 1 {
        return Err(Fail::from("another number of files"));
    }
    let table = ClassTable::of(alloc, checked.program())?;
    let scopes = private_scopes(alloc, &table)?;
    let layout = Layout::of(alloc, &table, scopes)?;
    let code = OpList::of(alloc, Code::new(checked, &layout))?;
    let setting = Setting {
        code: &code,
        classes: &table,
        plan,
    };
    open_after(alloc, setting, &files)
}

#[test]
fn closed_areas_take_nothing(rt: HostRuntime) -> Result<(), Fail> {
    let alloc = rt.alloc();
    let plan = thousand_fires(alloc)?;
    let mut sources = Sources::new(alloc);
    let name = String::from_str(alloc, "C.java")?;
    sources.add(name, Vec::from_slice(alloc, SOURCE)?)?;
    let Verdict::Accepted(checked) = check(alloc, &sources)? else {
        return Err(Fail::from("not accepted"));
    };
    // App, Seq and Main; one H with two hidden fields and one of its own.
    let open = open_at_the_end(alloc, &checked, &plan)?;
    assert_eq!(rt; open, [Some((400, 56)), Some((200, 40)), None]);
    Ok(())
}
