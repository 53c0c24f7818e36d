//! The texts of the smallest and of the greatest size.

use source_gen::generate;
use std::test::Fail;

/// The FNV-1a hash of a text, by which `expected/make_generated.py` tells it too.
fn hash(text: &[u8]) -> u64 {
    let mut hash: u64 = 0xcbf2_9ce4_8422_2325;
    for byte in text {
        hash = (hash ^ u64::from(*byte)).wrapping_mul(0x100_0000_01b3);
    }
    hash
}

#[test]
fn the_smallest_program_has_one_class(rt: HostRuntime) -> Result<(), Fail> {
    let (source, plan) = generate(rt.alloc(), 1)?;
    let expected = b"class App implements Safelet {
  public MissionSequencer getSequencer() { return new Seq(); }
  public long immortalMemorySize() { return 400; }
  public void initializeApplication() { }
}
class Seq extends MissionSequencer {
  int n;
  Seq() { super(new PriorityParameters(5), new StorageParameters(0)); }
  public Mission getNextMission() {
    if (n > 0) return null;
    n = n + 1;
    return new Main();
  }
}
@DefineScope(name=\"M\", parent=\"IMMORTAL\") class Main extends Mission {
public long missionMemorySize() { return 48; }
public void initialize() { new Work().register(); }
}
@Scope(\"M\") @DefineScope(name=\"P\", parent=\"M\") class Work extends PeriodicEventHandler {
Work() { super(new PriorityParameters(10), new PeriodicParameters(new RelativeTime(0, 0), new RelativeTime(5, 0)), \
new StorageParameters(24)); }
public void handleAsyncEvent() {
Trace.print(\"d1\", new D1(1).get());
}
}
class D1 { int v; D1(int a) { v = a; } int get() { return v + 1; } }
";
    assert_eq!(rt; source.as_slice(), expected.as_slice());
    assert_eq!(rt;
        plan.as_slice(),
        b"version = 1\nunits = 50000\nstore = 472\n".as_slice()
    );
    Ok(())
}

#[test]
fn the_greatest_program_has_250_classes(rt: HostRuntime) -> Result<(), Fail> {
    let (source, plan) = generate(rt.alloc(), 250)?;
    assert_eq!(rt; source.len(), 29_070);
    assert_eq!(rt; hash(&source), 0x141_5a32_7ef8_5003);
    assert_eq!(rt;
        plan.as_slice(),
        b"version = 1\nunits = 50000\nstore = 6448\n".as_slice()
    );
    Ok(())
}
