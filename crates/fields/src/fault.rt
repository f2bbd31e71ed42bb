// Why a plan file is refused, and where.
ghost use Rattle.std.specs.Prelude.{◌≡◌};
ghost use Rattle.fields.specs.Faults.{refusal_number, field_number, numbers, five};
ghost use Rattle.fields.specs.Layout.{width};

// The number that is told for the mode or the task of a field that belongs to none.
pub const NONE: u8 = 255;

// What is wrong with a file, with the number by which it is told.
#[derive(Clone, Copy, Debug, PartialEq, Eq)]
pub enum Refusal {
    // the input ends before a field is complete
    Ended = 1,
    // a value breaks its limit
    OutOfRange = 2,
    // a bit after the last field is 1, or lies in a further byte
    Trailing = 3,
}

// The fields of a file, in their order, with their numbers.
#[derive(Clone, Copy, Debug, PartialEq, Eq)]
pub enum Field {
    Processors = 1,
    Modes = 2,
    Start = 3,
    Rule = 4,
    Tasks = 5,
    Cost = 6,
    Deadline = 7,
    Separation = 8,
    Enabling = 9,
    Padding = 10,
}

// The mode and the task that a field belongs to, where it belongs to one. Two `Option`s and no enum of plan, mode and task: a reader
// takes any owner that can be told.
#[derive(Clone, Copy, Debug, PartialEq, Eq)]
pub struct Owner {
    pub mode: Option<u8>,
    pub task: Option<u8>,
}

// A refusal with its field and the bit that it speaks of.
#[derive(Clone, Copy)]
pub(crate) struct FieldFault {
    pub(crate) refusal: Refusal,
    pub(crate) field: Field,
    pub(crate) bit: u32,
}

// A refusal with its field, the owner of that field, and the bit.
#[derive(Clone, Copy, Debug, PartialEq, Eq)]
pub struct Fault {
    pub refusal: Refusal,
    pub field: Field,
    pub owner: Owner,
    pub bit: u32,
}

// A refusal and a field each have a `number` of their own, and no trait or `From`: no code is generic in what is told by one.
impl Refusal {
    // The number by which it is told.
    pub fn number(self) -> u8
        ensures { result ≡ refusal_number self }
    {
        self as u8
    }
}

impl Field {
    // The number by which it is told.
    pub fn number(self) -> u8
        ensures { result ≡ field_number self }
    {
        self as u8
    }

    // How many bits it takes; the padding has no number of its own.
    pub fn width(self) -> u32
        ensures { result ≡ width self }
    {
        match self {
            Field::Processors | Field::Modes | Field::Start => 3,
            Field::Rule => 2,
            Field::Tasks => 4,
            Field::Cost => 12,
            Field::Deadline | Field::Separation | Field::Enabling => 16,
            Field::Padding => 0,
        }
    }
}

impl Owner {
    // The plan, whose own fields belong to no mode.
    pub const PLAN: Owner = Owner {
        mode: None,
        task: None,
    };
}

impl FieldFault {
    // The fault, now that the owner of the field is known, which a `From` could not take.
    pub(crate) fn of(self, owner: Owner) -> Fault
        ensures { result ≡ record { refusal = self.refusal; field = self.field; owner = owner; bit = self.bit } }
    {
        Fault {
            refusal: self.refusal,
            field: self.field,
            owner,
            bit: self.bit,
        }
    }
}

impl Fault {
    // The five numbers by which it is told: refusal, field, mode, task and bit, with `NONE` where there is no mode or task.
    pub fn numbers(&self) -> [u32; 5]
        ensures { result ≡ five (numbers self.now) }
    {
        [
            u32::from(self.refusal.number()),
            u32::from(self.field.number()),
            u32::from(self.owner.mode.unwrap_or(NONE)),
            u32::from(self.owner.task.unwrap_or(NONE)),
            self.bit,
        ]
    }
}
