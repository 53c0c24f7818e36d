//! One operation of a frame.

ghost use Rattle.std.specs.Prelude.{ℕ, List, Option, None, ◌∷◌};
ghost use Rattle.scj_model.specs.declared.operations.Op.{Op};
ghost use Rattle.scj_model.specs.Code.{Code};
ghost use Rattle.scj_model.specs.Operations.{Environment, effect_of};
ghost use Rattle.scj_model.specs.State.{MemoryArea, Frame};
ghost use Rattle.scope_flow.specs.Facts.{Facts};
ghost use Rattle.scope_flow.specs.Signatures.{Signature};
ghost use Rattle.frame_sound.specs.EffectsFine.{Fine};
ghost use Rattle.frame_sound.specs.Fine.{ListFine, HeapFine, StaticsFine, Ready};

/// The next operation of a frame that is ready isn't stuck, and its effect asks only what keeps the invariant: it
/// stores where the rules allow it, and what it calls, opens and leaves with is as the rules say.
pub fn operations_are_fine()
    ensures { (code : Code) → Facts code → (areas : ℕ → Option MemoryArea) (world : Environment) (list : List ℕ)
        (class : ℕ) (sig : Signature) (f : Frame) (op : Op) (rest : List Op) → ListFine areas list →
        HeapFine code.program (record { areas = areas; objects = world.object_at }) →
        StaticsFine code.program (record { areas = areas; objects = world.object_at }) world.statics →
        Ready code (record { areas = areas; objects = world.object_at }) list class sig
        (record f { rest = op ∷ rest }) None →
        Fine code (record { areas = areas; objects = world.object_at }) list class sig (record f { rest = rest })
        (effect_of code world (record f { rest = rest }) op) }
{}
