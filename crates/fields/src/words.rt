// Faults in words, as a person reads them.
ghost use Rattle.std.specs.Prelude.{Some};
ghost use Rattle.fields.specs.Faults.{refusal_number, field_number, numbers};
ghost use Rattle.fields.specs.FaultText.{refusal_words, field_words, owner_words, fault_words};

use crate::fault::{Fault, Field, Owner, Refusal};
use std::error::Error;
use std::fmt;

impl fmt::Display for Refusal {
    ghost output = { λ refusal. Some (refusal_words (refusal_number refusal)) };

    #[tactic(auto, unfolding(crate::specs::FaultText::refusal_words))]
    fn fmt<W: fmt::Write>(&self, f: &mut fmt::Formatter<W>) -> fmt::Result {
        f.write_str(match self {
            Refusal::Ended => "the input ends before a field is complete",
            Refusal::OutOfRange => "a value breaks its limit",
            Refusal::Trailing => "a bit after the last field is 1 or lies in a further byte",
        })
    }
}

impl fmt::Display for Field {
    ghost output = { λ field. Some (field_words (field_number field)) };

    #[tactic(auto, unfolding(crate::specs::FaultText::field_words))]
    fn fmt<W: fmt::Write>(&self, f: &mut fmt::Formatter<W>) -> fmt::Result {
        f.write_str(match self {
            Field::Processors => "processors less one",
            Field::Modes => "modes less one",
            Field::Start => "start mode",
            Field::Rule => "rule code",
            Field::Tasks => "tasks less one",
            Field::Cost => "execution time C",
            Field::Deadline => "deadline D",
            Field::Separation => "separation T",
            Field::Enabling => "enabling deadline E",
            Field::Padding => "padding",
        })
    }
}

// The mode and the task, each after a comma, where there is one.
impl fmt::Display for Owner {
    ghost output = { λ owner. Some (owner_words owner.mode owner.task) };

    #[tactic(auto, unfolding(crate::specs::FaultText::owner_words, crate::specs::FaultText::owner_text))]
    fn fmt<W: fmt::Write>(&self, f: &mut fmt::Formatter<W>) -> fmt::Result {
        if let Some(mode) = self.mode {
            write!(f, ", mode {mode}")?;
        }
        if let Some(task) = self.task {
            write!(f, ", task {task}")?;
        }
        Ok(())
    }
}

// A line for what is wrong, and a line for where, which ends with the text.
impl fmt::Display for Fault {
    ghost output = { λ fault. Some (fault_words (numbers fault)) };

    #[tactic(auto, unfolding(crate::specs::FaultText::fault_words, crate::specs::FaultText::refusal_line, crate::specs::FaultText::field_text))]
    fn fmt<W: fmt::Write>(&self, f: &mut fmt::Formatter<W>) -> fmt::Result {
        let refusal = self.refusal;
        let field = self.field;
        let owner = self.owner;
        let bit = self.bit;
        writeln!(f, "refused {}: {refusal}", refusal.number())?;
        write!(f, "field {} ({field}){owner}, bit {bit}", field.number())
    }
}

impl Error for Fault {}
