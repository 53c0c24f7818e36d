//! The state of a run, and who acts in it.

use job_frames::Activity;
use region_heap::RegionHeap;
use run_releases::Releases;
use scj_base::{AreaId, ClassId, Position, Ref, ScopeId, Value};
use scj_model::{HandlerRow, Phase, SeqOp};
use scj_rules::SlotKind;

/// A job: the mission sequencer, or the release at a place.
#[derive(Clone, Copy, Debug)]
pub enum Job {
    /// The mission sequencer.
    Sequencer,
    /// The release at this place among all releases.
    Release(usize),
}

/// Who acts in a unit of execution.
#[derive(Clone, Copy, Debug)]
pub enum Turn {
    /// Nobody.
    Idle,
    /// The release at this place.
    Of(usize),
}

/// An operation under way: whose it is, and where it stands.
#[derive(Clone, Copy, Debug)]
pub struct Acting {
    /// Who acts.
    pub job: Job,
    /// Where the operation stands, which a fault tells.
    pub position: Position,
}

/// An area that is to be opened.
#[derive(Clone, Copy, Debug)]
pub struct NewArea {
    /// Its scope.
    pub scope: ScopeId,
    /// The area inside which it is opened.
    pub parent: Option<AreaId>,
    /// How many bytes of objects it has room for.
    pub bytes: u64,
}

/// An object that is to be made.
#[derive(Drop)]
pub struct NewObject {
    /// Its class.
    pub class: ClassId,
    /// Its slots, of which the hidden fields of a handler are the first.
    pub slots: Vec<Value>,
}

/// An array that is to be made.
#[derive(Clone, Copy, Debug)]
pub struct NewArray {
    /// Its class.
    pub class: ClassId,
    /// The kind of its elements.
    pub kind: SlotKind,
    /// How many they are.
    pub count: u32,
}

/// The state of a run. While a job acts, its activity is taken out.
#[derive(Drop)]
pub struct RunState {
    /// The areas, objects and static fields.
    pub memory: RegionHeap,
    /// All releases.
    pub releases: Releases,
    /// The handlers of the mission.
    pub registry: Vec<HandlerRow>,
    /// The frames, areas and priority of the mission sequencer.
    pub activity: Activity,
    /// Which unit comes next.
    pub unit: u64,
    /// Where the run stands in the life of its missions.
    pub phase: Phase,
    /// Which operation the sequencer does or will do next.
    pub operation: SeqOp,
    /// Once that operation is done, the value that its body left with, or null.
    pub outcome: Option<Value>,
    /// The object that is the safelet.
    pub safelet: Option<Ref>,
    /// The object that is the sequencer.
    pub mission_sequencer: Option<Ref>,
    /// The object that is the mission of now.
    pub mission: Option<Ref>,
    /// Whether that mission was asked to end.
    pub is_end_asked: bool,
    /// The first unit of execution.
    pub origin: u64,
    /// Whose turn it was last in this execution.
    pub last_choice: Option<Turn>,
}
