//! What holds of each run of an accepted program, and what a machine counts on.

ghost use Rattle.std.specs.Prelude.{◌≡◌};
ghost use Rattle.plain_machine.specs.Lawful.{IsLawful};
ghost use Rattle.plain_machine.specs.UnderWay.{IsNeverStuck};
ghost use Rattle.plain_machine.specs.Watched.{IsSituatedRun};

use area_laws::{
    areas_close_as_the_last, effects_name_live_objects, few_areas_are_open,
    jobs_stand_in_open_areas, operations_are_on_live_objects,
};
use area_sites::operations_are_situated;
use live_reads::operation_reads_live;
use run_sizes::grows_by_units;
use scope_sound::laws::law_safe;
use unit_steps::Setting;

/// The run of the program by the plan is never stuck, keeps the laws that a machine counts on, and its operations are
/// situated in open areas.
pub(crate) fn keep_laws(setting: Setting<'_>)
    requires same { setting.classes.now ≡ setting.code.now.program }
    ensures never { IsNeverStuck setting.entry.code.now.program setting.entry.plan.now }
    ensures lawful { IsLawful setting.entry.code.now setting.entry.plan.now }
    ensures situated { IsSituatedRun setting.entry.code.now.program setting.entry.plan.now }
{
    let checked = setting.code.code().checked();
    law_safe(checked);
    jobs_stand_in_open_areas(checked);
    areas_close_as_the_last(checked);
    few_areas_are_open(checked);
    operations_are_on_live_objects(checked);
    effects_name_live_objects(checked);
    operations_are_situated(checked);
    grows_by_units();
    operation_reads_live();
    let _units = setting.plan.units();
}
