// Numbers in fields, with their limits: a fault is made with its field, and then gains its owner.
ghost use Rattle.std.specs.Prelude.{◌≡◌, Option, ℕ, ◌≤◌, IfOk, OnErr};
ghost use Rattle.fields.specs.Bits.{bits};
ghost use Rattle.fields.specs.Layout.{field as in_field};
ghost use Rattle.fields.specs.Readers.{Answers, located};

use crate::bits::BitReader;
use crate::fault::{Fault, Field, FieldFault, Owner, Refusal};

impl BitReader<'_> {
    // The number in a field, which is to lie between `least` and `most`. A refusal leaves the reader where it was.
    #[tactic(auto, unfolding(crate::specs::Layout::field))]
    fn field(&mut self, field: Field, least: u16, most: u16) -> Result<u16, FieldFault>
        ensures value { (mode task : Option ℕ) → located mode task result self.new.at ≡ (in_field field mode task least most).read (bits self.old.bytes.now) self.old.at }
        ensures kept { OnErr result (self.new.at ≡ self.old.at) }
        ensures within { IfOk result (λ n. (least ≤ n) × (n ≤ most)) }
        ensures bytes { self.new.bytes.now ≡ self.old.bytes.now }
    {
        let width = field.width();
        let value = self.peek(width).ok_or(self.fault(Refusal::Ended, field))?;
        if !(least..=most).contains(&value) {
            return Err(self.fault(Refusal::OutOfRange, field));
        }
        self.advance(width);
        Ok(value)
    }

    // The number in a field of an owner. A refusal leaves the reader where it was. The limits are two numbers and no `RangeInclusive`,
    // since a range that was iterated over has lost its last number.
    pub fn number(
        &mut self,
        field: Field,
        owner: Owner,
        least: u16,
        most: u16,
    ) -> Result<u16, Fault>
        ensures reads { Answers (in_field field owner.mode owner.task least most).read self.old result self.new }
        ensures kept { OnErr result (self.new.at ≡ self.old.at) }
        ensures within { IfOk result (λ n. (least ≤ n) × (n ≤ most)) }
    {
        self.field(field, least, most)
            .map_err(|fault| fault.of(owner))
    }
}
