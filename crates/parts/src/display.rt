// How a relation and a rule are printed.
ghost use Rattle.std.specs.Prelude.{Some};
ghost use Rattle.parts.specs.Shown.{relation_sign, rule_text};

use crate::part::{Relation, Rule};
use std::error::Error;
use std::fmt;

impl fmt::Display for Relation {
    ghost output = { λ r. Some (relation_sign r) };

    fn fmt<W: fmt::Write>(&self, f: &mut fmt::Formatter<W>) -> fmt::Result {
        let sign = match *self {
            Relation::Lt => "<",
            Relation::Le => "<=",
            Relation::Eq => "=",
            Relation::Ge => ">=",
            Relation::Gt => ">",
        };
        write!(f, "{sign}")
    }
}

impl fmt::Display for Rule {
    ghost output = { λ r. Some (rule_text r) };

    fn fmt<W: fmt::Write>(&self, f: &mut fmt::Formatter<W>) -> fmt::Result {
        let text = match *self {
            Rule::BadCounts =>
                "there are 1 to 8 automata, at most 16 clocks, 16 triggers and 8 channels",
            Rule::OutOfTurn =>
                "variables come before tasks, tasks before locations, locations before edges",
            Rule::TooMany => "there are at most 16 variables, 16 tasks, 64 locations and 128 edges",
            Rule::BadVariable => "the start lies from low to high",
            Rule::BadTask => "1 <= C <= D <= 1000000, and it assigns variables that are there",
            Rule::BadLocation => "its task and its clocks are there, its bounds at most 1000000000",
            Rule::BadAutomaton => "locations go automaton by automaton, none left out",
            Rule::BadEnds => "both ends are there and of one automaton",
            Rule::BadEdge => "it refers to what is there, with constants in range",
        };
        write!(f, "{text}")
    }
}

impl Error for Rule {}
