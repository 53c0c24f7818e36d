//! What rules on annotations and uses are for: each is broken alone by a small text whose program isn't safe. The checker
//! refuses these texts; here their programs are run by the definitions all the same.
#![tactic(auto)]

ghost use Rattle.scj_base.specs.declared.findings.Rule.TheVariants.{A2, A3, A4, A5, A6, E1, E2, E3, E4, E5, E6, E7, E8, E10};
ghost use Rattle.needed_rules.specs.Needed.{IsNeeded, IsUnsafeUnguarded, IsUnsafeWhereUndone};

/// Without one of these rules unsafe programs would be accepted.
pub fn rules_on_uses_are_needed()
    ensures new { IsNeeded E1 }
    ensures call { IsNeeded E2 }
    ensures argument { IsNeeded E3 }
    ensures assign { IsNeeded E4 }
    ensures store { IsNeeded E5 }
    ensures return_ { IsNeeded E6 }
    ensures enter { IsNeeded E7 }
    ensures execute_in_area { IsNeeded E8 }
    ensures array { IsNeeded E10 }
{}

/// The same of rules on annotations: without one of them a run of an accepted program might keep a reference to an object
/// that is gone.
pub fn rules_on_annotations_are_needed()
    ensures class { IsNeeded A2 }
    ensures field { IsNeeded A3 }
    ensures field_of_unannotated { IsNeeded A4 }
    ensures static_field { IsNeeded A5 }
    ensures override_ { IsNeeded A6 }
{}

/// Where nothing is known of where two objects lie, a store of one in a field of the other isn't safe without a guard.
pub fn unguarded_stores_are_unsafe()
    ensures { IsUnsafeUnguarded }
{}

/// A store isn't safe because an `if` around it asks whether its object and its value lie in one area: the part may assign
/// to one of the two before.
pub fn undone_guards_are_unsafe()
    ensures { IsUnsafeWhereUndone }
{}
