//! The rules of the checker, and what is found broken.

ghost use Rattle.std.specs.Prelude.{◌≡◌, ◌==◌, codes};
ghost use Rattle.std.proofs.Common.{rules};
ghost use Rattle.std.specs.Cmp.{partial_order_from_own_ties};
ghost use Rattle.std.specs.Cmp.Rules.{comparing};
ghost use Rattle.std.specs.Ordering.{nat_cmp, on, as_partial_cmp};
ghost use Rattle.scj_base.specs.Rule.{number_of, name_of, text_of};

use crate::positions::Position;
use std::cmp::Ordering;

/// The rules of the checker, in the order in which a report lists them at one place. `docs/RULES.md` says
/// of each what breaks it.
#[derive(Clone, Copy, Debug)]
pub enum Rule {
    /// Bad byte.
    L1,
    /// Bad number.
    L2,
    /// Open comment or string.
    L3,
    /// Long name.
    L4,
    /// Not in the grammar.
    P1,
    /// Too deep.
    P2,
    /// Class twice.
    C1,
    /// Unknown super.
    C2,
    /// Class cycle.
    C3,
    /// Field twice.
    C4,
    /// Method twice.
    C5,
    /// Override types.
    C6,
    /// Abstract left open.
    C7,
    /// Not exactly one safelet.
    C8,
    /// Unknown type.
    C9,
    /// Forbidden super.
    C10,
    /// Misplaced word.
    C11,
    /// Too many classes.
    K1,
    /// Too many locals.
    K2,
    /// Too many parameters.
    K3,
    /// Too many fields.
    K4,
    /// Unknown variable.
    T1,
    /// Name twice.
    T2,
    /// Operand.
    T3,
    /// No field.
    T4,
    /// No method.
    T5,
    /// Arguments.
    T6,
    /// Assignment.
    T7,
    /// Condition.
    T8,
    /// Return.
    T9,
    /// End without return.
    T10,
    /// Abstract new.
    T11,
    /// Cast.
    T12,
    /// This in static.
    T13,
    /// Misplaced framework form.
    T14,
    /// Scope defined twice or reserved.
    S1,
    /// Unknown parent.
    S2,
    /// Scope cycle.
    S3,
    /// Wrong class.
    S4,
    /// Wrong parent.
    S5,
    /// Scope missing.
    S6,
    /// Unknown scope.
    A1,
    /// Class scope.
    A2,
    /// Field scope.
    A3,
    /// Field of unannotated class.
    A4,
    /// Static field scope.
    A5,
    /// Override scopes.
    A6,
    /// Unknown runs-in.
    A7,
    /// Framework runs-in.
    A8,
    /// Contradicting scope.
    A9,
    /// New.
    E1,
    /// Call.
    E2,
    /// Argument.
    E3,
    /// Assign.
    E4,
    /// Store.
    E5,
    /// Return.
    E6,
    /// Enter.
    E7,
    /// Execute in area.
    E8,
    /// Cast scope.
    E9,
    /// Array.
    E10,
}

impl Rule {
    /// The rule's number in the order of the rules, from 0.
    #[tactic(auto, unfolding(crate::specs::Rule::number_of))]
    pub fn number(self) -> u8
        ensures { result ≡ number_of self }
    {
        match self {
            Rule::L1 => 0,
            Rule::L2 => 1,
            Rule::L3 => 2,
            Rule::L4 => 3,
            Rule::P1 => 4,
            Rule::P2 => 5,
            Rule::C1 => 6,
            Rule::C2 => 7,
            Rule::C3 => 8,
            Rule::C4 => 9,
            Rule::C5 => 10,
            Rule::C6 => 11,
            Rule::C7 => 12,
            Rule::C8 => 13,
            Rule::C9 => 14,
            Rule::C10 => 15,
            Rule::C11 => 16,
            Rule::K1 => 17,
            Rule::K2 => 18,
            Rule::K3 => 19,
            Rule::K4 => 20,
            Rule::T1 => 21,
            Rule::T2 => 22,
            Rule::T3 => 23,
            Rule::T4 => 24,
            Rule::T5 => 25,
            Rule::T6 => 26,
            Rule::T7 => 27,
            Rule::T8 => 28,
            Rule::T9 => 29,
            Rule::T10 => 30,
            Rule::T11 => 31,
            Rule::T12 => 32,
            Rule::T13 => 33,
            Rule::T14 => 34,
            Rule::S1 => 35,
            Rule::S2 => 36,
            Rule::S3 => 37,
            Rule::S4 => 38,
            Rule::S5 => 39,
            Rule::S6 => 40,
            Rule::A1 => 41,
            Rule::A2 => 42,
            Rule::A3 => 43,
            Rule::A4 => 44,
            Rule::A5 => 45,
            Rule::A6 => 46,
            Rule::A7 => 47,
            Rule::A8 => 48,
            Rule::A9 => 49,
            Rule::E1 => 50,
            Rule::E2 => 51,
            Rule::E3 => 52,
            Rule::E4 => 53,
            Rule::E5 => 54,
            Rule::E6 => 55,
            Rule::E7 => 56,
            Rule::E8 => 57,
            Rule::E9 => 58,
            Rule::E10 => 59,
        }
    }

    /// The rule's code, as it is printed.
    #[tactic(auto, unfolding(crate::specs::Rule::name_of))]
    pub fn name(self) -> &'static str
        ensures { result.now ≡ name_of self }
    {
        match self {
            Rule::L1 => "L1",
            Rule::L2 => "L2",
            Rule::L3 => "L3",
            Rule::L4 => "L4",
            Rule::P1 => "P1",
            Rule::P2 => "P2",
            Rule::C1 => "C1",
            Rule::C2 => "C2",
            Rule::C3 => "C3",
            Rule::C4 => "C4",
            Rule::C5 => "C5",
            Rule::C6 => "C6",
            Rule::C7 => "C7",
            Rule::C8 => "C8",
            Rule::C9 => "C9",
            Rule::C10 => "C10",
            Rule::C11 => "C11",
            Rule::K1 => "K1",
            Rule::K2 => "K2",
            Rule::K3 => "K3",
            Rule::K4 => "K4",
            Rule::T1 => "T1",
            Rule::T2 => "T2",
            Rule::T3 => "T3",
            Rule::T4 => "T4",
            Rule::T5 => "T5",
            Rule::T6 => "T6",
            Rule::T7 => "T7",
            Rule::T8 => "T8",
            Rule::T9 => "T9",
            Rule::T10 => "T10",
            Rule::T11 => "T11",
            Rule::T12 => "T12",
            Rule::T13 => "T13",
            Rule::T14 => "T14",
            Rule::S1 => "S1",
            Rule::S2 => "S2",
            Rule::S3 => "S3",
            Rule::S4 => "S4",
            Rule::S5 => "S5",
            Rule::S6 => "S6",
            Rule::A1 => "A1",
            Rule::A2 => "A2",
            Rule::A3 => "A3",
            Rule::A4 => "A4",
            Rule::A5 => "A5",
            Rule::A6 => "A6",
            Rule::A7 => "A7",
            Rule::A8 => "A8",
            Rule::A9 => "A9",
            Rule::E1 => "E1",
            Rule::E2 => "E2",
            Rule::E3 => "E3",
            Rule::E4 => "E4",
            Rule::E5 => "E5",
            Rule::E6 => "E6",
            Rule::E7 => "E7",
            Rule::E8 => "E8",
            Rule::E9 => "E9",
            Rule::E10 => "E10",
        }
    }

    /// What the rule's break is called, as it is printed behind the code.
    #[tactic(auto, unfolding(crate::specs::Rule::text_of))]
    pub fn text(self) -> &'static str
        ensures { result.now ≡ text_of self }
    {
        match self {
            Rule::L1 => "bad byte",
            Rule::L2 => "bad number",
            Rule::L3 => "open comment or string",
            Rule::L4 => "long name",
            Rule::P1 => "not in the grammar",
            Rule::P2 => "too deep",
            Rule::C1 => "class twice",
            Rule::C2 => "unknown super",
            Rule::C3 => "class cycle",
            Rule::C4 => "field twice",
            Rule::C5 => "method twice",
            Rule::C6 => "override types",
            Rule::C7 => "abstract left open",
            Rule::C8 => "not exactly one safelet",
            Rule::C9 => "unknown type",
            Rule::C10 => "forbidden super",
            Rule::C11 => "misplaced word",
            Rule::K1 => "too many classes",
            Rule::K2 => "too many locals",
            Rule::K3 => "too many parameters",
            Rule::K4 => "too many fields",
            Rule::T1 => "unknown variable",
            Rule::T2 => "name twice",
            Rule::T3 => "operand",
            Rule::T4 => "no field",
            Rule::T5 => "no method",
            Rule::T6 => "arguments",
            Rule::T7 => "assignment",
            Rule::T8 => "condition",
            Rule::T9 => "return",
            Rule::T10 => "end without return",
            Rule::T11 => "abstract new",
            Rule::T12 => "cast",
            Rule::T13 => "this in static",
            Rule::T14 => "misplaced framework form",
            Rule::S1 => "scope defined twice or reserved",
            Rule::S2 => "unknown parent",
            Rule::S3 => "scope cycle",
            Rule::S4 => "wrong class",
            Rule::S5 => "wrong parent",
            Rule::S6 => "scope missing",
            Rule::A1 => "unknown scope",
            Rule::A2 => "class scope",
            Rule::A3 => "field scope",
            Rule::A4 => "field of unannotated class",
            Rule::A5 => "static field scope",
            Rule::A6 => "override scopes",
            Rule::A7 => "unknown runs-in",
            Rule::A8 => "framework runs-in",
            Rule::A9 => "contradicting scope",
            Rule::E1 => "new",
            Rule::E2 => "call",
            Rule::E3 => "argument",
            Rule::E4 => "assign",
            Rule::E5 => "store",
            Rule::E6 => "return",
            Rule::E7 => "enter",
            Rule::E8 => "execute in area",
            Rule::E9 => "cast scope",
            Rule::E10 => "array",
        }
    }
}

impl PartialEq for Rule {
    ghost eq = { on number_of ◌==◌ };

    ghost laws = { Prim.search (comparing, rules) };

    fn eq(&self, other: &Rule) -> bool {
        self.number() == other.number()
    }
}

impl Eq for Rule {
    ghost laws = { Prim.search (comparing, rules) };
}

impl Ord for Rule {
    ghost cmp = { on number_of nat_cmp };

    ghost total = { Prim.search (comparing, rules) };

    ghost matches_partial_cmp = { Prim.search (comparing, rules) };

    ghost matches_eq = { Prim.search (comparing, rules) };

    fn cmp(&self, other: &Rule) -> Ordering {
        self.number().cmp(&other.number())
    }
}

impl PartialOrd for Rule {
    ghost partial_cmp = { as_partial_cmp (on number_of nat_cmp) };

    ghost laws = { partial_order_from_own_ties (Prim.search (comparing, rules)) (Prim.search (comparing, rules)) };

    fn partial_cmp(&self, other: &Rule) -> Option<Ordering> {
        Some(self.cmp(other))
    }
}

/// A broken rule and its place. Findings are ordered by file, line, column and rule.
#[derive(Clone, Copy, Debug, PartialEq, Eq, PartialOrd, Ord)]
pub struct Found {
    /// Where the rule is broken.
    pub pos: Position,
    /// The rule that is broken.
    pub rule: Rule,
}
